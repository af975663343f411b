// Check 15 in words, behind the line's number: which count passes its limit, or which number is not below its count. These functions
// only write words, so they have no contract (`said`).
use crate::said::say;
use crate::{digits, line, said};
use job::checks;
use std::io::Stderr;

fn say_most(err: Stderr, count: &[u8]) {
    say(err, b"with this line there are more than ");
    say(err, count);
    say(err, b", the most that a job has; split the field");
}

fn say_workers(err: Stderr, number: &[u8]) {
    say(err, b"the count of workers, ");
    said::say_part(err, number);
    say(err, b", is not from 1 to 32, as in `claims 12 workers 3`");
}

// A claim, or a worker, that is not below its count.
fn say_not_below(err: Stderr, thing: &[u8], number: &[u8], count: usize) {
    say(err, thing);
    say(err, b" ");
    said::say_part(err, number);
    say(err, b" is not below ");
    said::say_number(err, count);
    say(err, b", the count of ");
    say(err, thing);
    say(err, b"s in line 1; ");
    say(err, thing);
    say(err, b"s are numbered from 0");
}

// Of line 1: claims over their limit, or else workers.
fn say_first(err: Stderr, line: &[u8]) {
    let (claims, behind) = digits::next(line);
    if checks::MOST_CLAIMS < digits::value(claims) {
        say_most(err, b"4,096 claims");
        return;
    }
    let (workers, _) = digits::next(behind);
    say_workers(err, workers);
}

// The worker, or else the claim, or else the count of questions.
fn say_question(err: Stderr, line: &[u8], claims: usize, workers: usize) {
    let (worker, behind) = digits::next(line);
    if workers <= digits::value(worker) {
        say_not_below(err, b"worker", worker, workers);
        return;
    }
    let (claim, _) = digits::next(behind);
    if claims <= digits::value(claim) {
        say_not_below(err, b"claim", claim, claims);
        return;
    }
    say_most(err, b"1,024 questions");
}

// The count of rules, or else a claim, or else the count of literals.
fn say_rule(err: Stderr, line: &[u8], number: usize, claims: usize) {
    // rule k stands in line k + 1
    if checks::MOST_RULES + 1 < number {
        say_most(err, b"6,144 rules");
        return;
    }
    match digits::first_past(line, claims) {
        Some(claim) => say_not_below(err, b"claim", claim, claims),
        None => say_most(err, b"16,384 literals"),
    }
}

// Of a line behind the first, which has the counts.
fn say_later(err: Stderr, line: &[u8], number: usize, first: &[u8]) {
    let (claims, behind) = digits::next(first);
    let claims = digits::value(claims);
    if line::first_byte(line) == b'a' {
        let (workers, _) = digits::next(behind);
        say_question(err, line, claims, digits::value(workers));
    } else {
        say_rule(err, line, number, claims);
    }
}

pub(crate) fn say_fault(err: Stderr, text: &[u8], number: usize) {
    let first = line::line_of(text, 1);
    say(err, b": ");
    if number == 1 {
        say_first(err, first);
    } else {
        say_later(err, line::line_of(text, number), number, first);
    }
}
