// The listing program: reads a job with its schedule from standard input, writes the listing to standard output and, where the
// input is refused, one line on standard error that says in words what is wrong and where. An input that can't be read is not listed.
// `list` of crate listing has the contract of what is written; no contract can say that the system writes it, so the functions here
// have none: they are safe, they end, and stored tests hold their words.
#![tactic(auto)]

use console::{faults, input};
use job::Refusal;
use listing::input::{MOST_INPUT, TOO_LONG};
use listing::list::MOST_TEXT;
use std::io::{Stderr, Stdout};

// What standard error doesn't take is let go: there is nowhere else to say it.
fn say(err: Stderr, words: &[u8]) {
    let _ = err.write_all(words);
}

fn say_number(err: Stderr, number: usize) {
    let _ = err.print(number);
}

// What the check found wrong, up to the place. 16 can't come, since there is room.
fn say_fault(err: Stderr, refusal: Refusal) {
    if refusal.number == 11 {
        say(err, b"the schedule names no worker of the job; its byte ");
        return;
    }
    if MOST_INPUT < refusal.place {
        say(err, b"the input has over 65,536 bytes; bytes read: ");
        return;
    }
    let mut words = [0u8; faults::MOST_FAULT];
    let n = faults::put_fault(&mut words, refusal.number);
    say(err, &words[..n]);
}

// One line on standard error.
fn say_refusal(err: Stderr, refusal: Refusal) {
    say(err, b"verdicts: refused by check ");
    say_number(err, refusal.number as usize);
    say(err, b": ");
    say_fault(err, refusal);
    say_number(err, refusal.place);
    say(err, b"\n");
}

fn write_text(out: Stdout, err: Stderr, text: &[u8]) {
    if out.write_all(text).is_ok() {
        return;
    }
    say(
        err,
        b"verdicts: the listing can't be written to standard output; is the disk full?\n",
    );
}

fn list(out: Stdout, err: Stderr, input: &[u8], text: &mut [u8]) {
    let listed = listing::list::list(input, text);
    write_text(out, err, &text[..listed.length]);
    if let Err(refusal) = listed.check {
        say_refusal(err, refusal);
    }
}

// One byte more is read than an input may have, so that a longer one shows.
fn main(rt: HostRuntime) {
    let err = rt.stderr();
    let mut stdin = rt.stdin();
    let mut input = [0u8; TOO_LONG];
    let mut text = [0u8; MOST_TEXT];
    let Ok(length) = input::read_input(&mut stdin, &mut input) else {
        say(
            err,
            b"verdicts: standard input can't be read; give a job, as in `verdicts < my.job`\n",
        );
        return;
    };
    list(rt.stdout(), err, &input[..length], &mut text);
}
