// Rules typed as lines: reads a text from standard input and writes its job to standard output. A text that is refused
// gives no byte there, and one line on standard error: which line is at fault, why, and what would do. `make_job` (typed) has the
// contract of what is written; no contract can say that the system writes it.
#![tactic(auto)]

mod digits;
mod limits;
mod line;
mod misfit;
mod said;
mod shape;
mod sort;
mod typed;

use console::input;
use job::{Refusal, checks};
use said::say;
use std::io::{Stderr, Stdout};

// Check 14 or 15 in words. 16 can't come, since the buffer has room for the largest job.
fn say_refusal(err: Stderr, text: &[u8], refusal: Refusal) {
    let line = refusal.place;
    say(err, b"makejob: line ");
    said::say_number(err, line);
    if refusal.number == 14 {
        misfit::say_misfit(err, text, line);
    } else {
        limits::say_fault(err, text, line);
    }
    say(err, b"\n");
}

fn write_job(out: Stdout, err: Stderr, job: &[u8]) {
    if out.write_all(job).is_ok() {
        return;
    }
    say(
        err,
        b"makejob: the job can't be written to standard output; is the disk full?\n",
    );
}

fn make(out: Stdout, err: Stderr, text: &[u8], job: &mut [u8]) {
    if input::MOST_BYTES < text.len() {
        say(
            err,
            b"makejob: the text has over 1,048,576 bytes, more than the lines of any job; split the field\n",
        );
        return;
    }
    match typed::make_job(text, job) {
        Ok(length) => write_job(out, err, &job[..length]),
        Err(refusal) => say_refusal(err, text, refusal),
    }
}

fn main(rt: HostRuntime) {
    let err = rt.stderr();
    let mut stdin = rt.stdin();
    let mut text = input::room();
    let mut out = [0u8; checks::MOST_BYTES];
    let Ok(length) = input::read_input(&mut stdin, &mut text) else {
        say(
            err,
            b"makejob: standard input can't be read; give a file of lines, as in `makejob < my.rules`\n",
        );
        return;
    };
    make(rt.stdout(), err, &text[..length], &mut out);
}
