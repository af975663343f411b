// What sort of fault a line has that doesn't fit. The contracts cite specs/Faults.
ghost use Rattle.std.specs.Prelude.{◌≡◌};
ghost use Rattle.makejob.specs.Faults.{is_late as late_of, sort_of_byte, sort_at_end, sort_in, sort_of};

use crate::line;
use crate::shape::Reach;
use lines::grammar;

#[derive(Clone, Copy, Debug, PartialEq, Eq)]
pub enum Sort {
    // No line at all; one without a byte; one that lacks only its line feed.
    Empty,
    Blank,
    Unended,
    // A carriage return; a rule where only questions may stand; a digit behind a leading 0; anything else.
    Return,
    LateRule,
    LeadingZero,
    Other,
}

// Whether a line is a rule and the one before it a question.
fn is_late(text: &[u8], line: usize) -> bool
    ensures { result ≡ late_of text.now line }
{
    if line < 2 {
        return false;
    }
    let before = line::line_of(text, line - 1);
    let typed = line::line_of(text, line);
    line::first_byte(before) == b'a' && grammar::is_digit(line::first_byte(typed))
}

// Of the byte that doesn't fit, and the one before it.
fn sort_of_byte(before: u8, b: u8) -> Sort
    ensures { result ≡ sort_of_byte before b }
{
    match b {
        b'\r' => Sort::Return,
        b'0'..=b'9' if before == b'0' => Sort::LeadingZero,
        _ => Sort::Other,
    }
}

// Of a line that has nothing behind what fits.
fn sort_at_end(line: &[u8], whole: bool, ended: bool) -> Sort
    ensures { result ≡ sort_at_end line.now whole ended }
{
    match (line.is_empty(), whole, ended) {
        (false, true, _) => Sort::Unended,
        (false, false, _) => Sort::Other,
        (true, _, true) => Sort::Blank,
        (true, _, false) => Sort::Empty,
    }
}

fn sort_in(line: &[u8], reach: Reach, ended: bool) -> Sort
    ensures { result ≡ sort_in line.now reach ended }
{
    let at = reach.at;
    if line.len() <= at {
        return sort_at_end(line, reach.whole, ended);
    }
    if at == 0 {
        return sort_of_byte(0, line[at]);
    }
    sort_of_byte(line[at - 1], line[at])
}

pub fn sort_of(text: &[u8], number: usize, reach: Reach) -> Sort
    ensures { result ≡ sort_of text.now number reach }
{
    if is_late(text, number) {
        return Sort::LateRule;
    }
    sort_in(
        line::line_of(text, number),
        reach,
        line::has_line_feed(text, number),
    )
}
