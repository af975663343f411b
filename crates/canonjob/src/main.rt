// The same rules, written one way: reads a job from standard input and writes its form to standard output, so that two sites' jobs
// say the same exactly where their forms are the same bytes. A job that is refused gives no byte there, and one line on standard
// error that says in words what is wrong and where. `canonical` of crate canon has the contract of what is written; no contract can say
// that the system writes it, so the functions here have none: they are safe, they end, and stored tests hold their words.
#![tactic(auto)]

use canon::canonical::canonical;
use console::{faults, input};
use job::{Refusal, checks};
use std::io::{Stderr, Stdout};

// One byte more than a job may have, so that a longer input shows.
const ROOM: usize = checks::MOST_BYTES + 1;

// What standard error doesn't take is let go: there is nowhere else to say it.
fn say(err: Stderr, words: &[u8]) {
    let _ = err.write_all(words);
}

fn say_number(err: Stderr, number: usize) {
    let _ = err.print(number);
}

// What the check found wrong, up to the place. 19 can't come, since the output has room for the largest job.
fn say_fault(err: Stderr, refusal: Refusal) {
    if checks::MOST_BYTES < refusal.place {
        say(err, b"the input has over 61,476 bytes; bytes read: ");
        return;
    }
    let mut words = [0u8; faults::MOST_FAULT];
    let n = faults::put_fault(&mut words, refusal.number);
    say(err, &words[..n]);
}

// One line on standard error.
fn say_refusal(err: Stderr, refusal: Refusal) {
    say(err, b"canonjob: refused by check ");
    say_number(err, refusal.number as usize);
    say(err, b": ");
    say_fault(err, refusal);
    say_number(err, refusal.place);
    say(err, b"\n");
}

fn write_form(out: Stdout, err: Stderr, form: &[u8]) {
    if out.write_all(form).is_ok() {
        return;
    }
    say(
        err,
        b"canonjob: the form can't be written to standard output; is the disk full?\n",
    );
}

fn form(out: Stdout, err: Stderr, job: &[u8], form: &mut [u8]) {
    match canonical(job, form) {
        Ok(length) => write_form(out, err, &form[..length]),
        Err(refusal) => say_refusal(err, refusal),
    }
}

fn main(rt: HostRuntime) {
    let err = rt.stderr();
    let mut stdin = rt.stdin();
    let mut job = [0u8; ROOM];
    let mut out = [0u8; checks::MOST_BYTES];
    let Ok(length) = input::read_input(&mut stdin, &mut job) else {
        say(
            err,
            b"canonjob: standard input can't be read; give a job, as in `canonjob < my.job`\n",
        );
        return;
    };
    form(rt.stdout(), err, &job[..length], &mut out);
}
