// Check 14 in words, behind the line's number: what doesn't fit, the line, and what would. The contract cites specs/Faults; the
// functions that only write words have none (`said`).
ghost use Rattle.std.specs.Prelude.{◌≡◌, ◌≤◌, length};
ghost use Rattle.makejob.specs.Faults.{fault_at};

use crate::said::say;
use crate::sort::Sort;
use crate::{line, said, shape, sort};
use std::io::Stderr;

// Of a long line no more than so many bytes before the fault are shown.
const BEFORE: usize = 40;

fn say_what(err: Stderr, sort: Sort, column: usize) {
    match sort {
        Sort::Empty => say(err, b" is not there, the text is empty"),
        Sort::Blank => say(err, b" is blank, take it out"),
        Sort::Unended => say(err, b" has no line feed at its end"),
        Sort::Return => say(err, b" has a carriage return, as files from Windows do"),
        Sort::LateRule => say(err, b" is a rule behind a question"),
        _ => {
            say(err, b" doesn't fit at column ");
            said::say_number(err, column);
        }
    }
}

// The byte at fault: the first of a rule behind a question, whatever fits in it.
fn fault_at(sort: Sort, at: usize) -> usize
    ensures { (result ≡ fault_at sort at) × (result ≤ at) }
{
    match sort {
        Sort::LateRule => 0,
        _ => at,
    }
}

// The line in quotes, unless it has no byte.
fn say_line(err: Stderr, line: &[u8], at: usize)
    requires { at ≤ length line.now }
{
    if line.is_empty() {
        return;
    }
    say(err, b": `");
    if BEFORE < at {
        say(err, b"..");
        said::say_part(err, &line[at - BEFORE..]);
    } else {
        said::say_part(err, line);
    }
    say(err, b"`");
}

fn say_example(err: Stderr, number: usize) {
    if number == 1 {
        say(err, b"the first line is typed as `claims 12 workers 3`");
        return;
    }
    say(
        err,
        b"a rule is typed as `7.` or `7 if 8, not 9.`, a question as `ask 0 7`",
    );
}

fn say_remedy(err: Stderr, sort: Sort, number: usize) {
    match sort {
        Sort::Unended => say(err, b"end every line by the Enter key, the last one too"),
        Sort::Return => say(
            err,
            b"save it with line ends LF, not CRLF, or send it through `tr -d '\\r'`",
        ),
        Sort::LateRule => say(err, b"type all rules before the first question"),
        Sort::LeadingZero => say(err, b"a number has no leading zero: type `7`, not `07`"),
        _ => say_example(err, number),
    }
}

pub(crate) fn say_misfit(err: Stderr, text: &[u8], number: usize) {
    let line = line::line_of(text, number);
    let reach = shape::reach_of(line, number == 1);
    let sort = sort::sort_of(text, number, reach);
    let at = fault_at(sort, reach.at);
    say_what(err, sort, at + 1);
    say_line(err, line, at);
    say(err, b"; ");
    say_remedy(err, sort, number);
}
