// Yesterday's field again as it went: reads a day, a job and behind it the record of a run, from standard input and takes the turns. Where each is of the kind
// that the record says, it writes the job and behind it the schedule to standard output, so that `verdicts` lists the day. An input of 1,048,576 bytes has room for 493,550 turns of the largest job. A day that is refused gives no byte there,
// and one line on standard error that says which pair is false and what its turn is. `replay` of the crate `recording` has the contract of what is accepted; no
// contract can say that the system writes it, so the functions here have none: they are safe, they end, and stored tests hold their words.
#![tactic(auto)]

use calls::tally;
use console::{faults, input, kinds};
use job::Refusal;
use listing::input::MOST_INPUT;
use recording::named;
use std::io::{Stderr, Stdout};
use table::words;

// What standard error doesn't take is let go: there is nowhere else to say it.
fn say(err: Stderr, words: &[u8]) {
    let _ = err.write_all(words);
}

fn say_number(err: Stderr, number: usize) {
    let _ = err.print(number);
}

fn say_kind(err: Stderr, number: usize) {
    let mut word = [0u8; kinds::MOST_KIND];
    let n = kinds::put_kind(&mut word, number);
    say(err, &word[..n]);
}

// What the turn of the false pair is, on the table that holds the turns before it.
fn say_turn(err: Stderr, job: &[u8], table: &mut [u32], worker: usize) {
    match calls::turn(job, table, worker) {
        Ok(kind) => {
            say(err, b"; this turn is ");
            say_kind(err, tally::kind_number(kind));
        }
        Err(_) => say(err, b"; the job has no such worker"),
    }
}

// Worker and kind of a pair, as the record has them.
fn say_pair(err: Stderr, worker: usize, kind: usize) {
    say(err, b": worker ");
    say_number(err, worker);
    say(err, b", ");
    if 8 <= kind {
        say(err, b"byte ");
        say_number(err, kind);
        say(err, b", which is ");
    }
    say_kind(err, kind);
}

// Pair k of the record, which is false.
fn say_false(err: Stderr, job: &[u8], table: &mut [u32], log: &[u8], k: usize) {
    say(err, b"pair ");
    say_number(err, k);
    if k < log.len() / 2 {
        let worker = usize::from(log[2 * k]);
        say_pair(err, worker, usize::from(log[2 * k + 1]));
        say_turn(err, job, table, worker);
    }
}

// What the check found wrong, with the place. 9 can't come, since the table is long enough.
fn say_fault(err: Stderr, job: &[u8], table: &mut [u32], log: &[u8], refusal: Refusal) {
    if refusal.number == 24 {
        say_false(err, job, table, log, refusal.place);
        return;
    }
    if refusal.number == 23 {
        say(err, b"the record has an odd length, so it was cut: ");
    } else {
        let mut words = [0u8; faults::MOST_FAULT];
        let n = faults::put_fault(&mut words, refusal.number);
        say(err, &words[..n]);
    }
    say_number(err, refusal.place);
}

// Where a listing takes fewer bytes it is said before it refuses them.
fn say_length(err: Stderr, length: usize) {
    if MOST_INPUT < length {
        say(
            err,
            b"replayjob: every pair holds, but job and schedule have ",
        );
        say_number(err, length);
        say(
            err,
            b" bytes and a listing takes 65,536: verdicts will refuse them\n",
        );
    }
}

// The job, and behind it the schedule that the record names.
fn write_run(out: Stdout, err: Stderr, job: &[u8], schedule: &[u8]) {
    if out.write_all(job).is_ok() && out.write_all(schedule).is_ok() {
        return;
    }
    say(
        err,
        b"replayjob: the schedule can't be written to standard output; is the disk full?\n",
    );
}

fn replay(out: Stdout, err: Stderr, job: &[u8], log: &[u8], schedule: &mut [u8]) {
    let mut table = [0u32; words::MOST_WORDS];
    if let Err(stopped) = recording::replay(job, &mut table, log) {
        let refusal = stopped.refusal;
        say(err, b"replayjob: refused by check ");
        say_number(err, refusal.number as usize);
        say(err, b": ");
        say_fault(err, job, &mut table, log, refusal);
        say(err, b"\n");
        return;
    }
    if log.len() / 2 <= schedule.len() {
        let turns = named::put_schedule(schedule, log);
        say_length(err, job.len() + turns);
        write_run(out, err, job, &schedule[..turns]);
    }
}

// The first word says where the job ends, as for `verdicts`.
fn replay_day(out: Stdout, err: Stderr, day: &[u8], schedule: &mut [u8]) {
    let end = listing::input::job_end(day);
    replay(out, err, &day[..end], &day[end..], schedule);
}

fn main(rt: HostRuntime) {
    let err = rt.stderr();
    let mut stdin = rt.stdin();
    let mut day = input::room();
    let mut schedule = input::room();
    let Ok(length) = input::read_input(&mut stdin, &mut day) else {
        say(
            err,
            b"replayjob: standard input can't be read; give a job and its record, as in `replayjob < my.day`\n",
        );
        return;
    };
    if length == input::ROOM {
        say(err, b"replayjob: the input has over 1,048,576 bytes\n");
        return;
    }
    replay_day(rt.stdout(), err, &day[..length], &mut schedule);
}
