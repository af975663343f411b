// The numbers of rules and questions, noted down in the order of the text. The contracts cite specs/Noting.
ghost use Rattle.std.specs.Prelude.{◌∷◌, [], ◌+◌, ◌≤◌, length};
ghost use Rattle.writing.specs.Written.{Put};
ghost use Rattle.lines.specs.Noting.{note_of, note_in, notes_of, Kept};

use crate::{Event, Slot, State, grammar};
use job::{checks, format};

// Added to a head, so that a note shows where a rule starts.
pub const HEAD: u32 = 65536;

// The most notes of rules: one for each head and each literal; and the most notes of a job: two for each question besides.
pub const MOST_RULE_NOTES: usize = checks::MOST_RULES + checks::MOST_LITERALS;

pub const MOST_NOTES: usize = MOST_RULE_NOTES + 2 * checks::MOST_QUESTIONS;

fn put_note(notes: &mut [u32], at: usize, note: u32) -> usize
    requires { at + 1 ≤ length notes.old }
    ensures { Put notes.old at (note ∷ []) notes.new result }
{
    notes[at] = note;
    at + 1
}

fn note_number(notes: &mut [u32], at: usize, slot: Slot, number: u32) -> usize
    requires { (number ≤ 65536) × (at + length (note_of slot number) ≤ length notes.old) }
    ensures { Put notes.old at (note_of slot number) notes.new result }
{
    match slot {
        Slot::ClaimCount | Slot::WorkerCount => at,
        Slot::Head => put_note(notes, at, HEAD + number),
        Slot::Body | Slot::Asker | Slot::Asked => put_note(notes, at, number),
        Slot::NotBody => put_note(notes, at, format::NEGATED as u32 + number),
    }
}

// A number of a rule or a question; the two counts go by.
fn note(notes: &mut [u32], at: usize, event: Event) -> usize
    requires { Kept event × (at + length (note_in event) ≤ length notes.old) }
    ensures { Put notes.old at (note_in event) notes.new result }
{
    match event {
        None => at,
        Some((slot, number)) => note_number(notes, at, slot, number as u32),
    }
}

pub fn note_numbers(text: &[u8], notes: &mut [u32]) -> usize
    requires { length (notes_of text.now) ≤ length notes.old }
    ensures { Put notes.old 0 (notes_of text.now) notes.new result }
{
    let mut state = State::FirstLine;
    let mut number: usize = 0;
    let mut at: usize = 0;
    for &b in text {
        let event = grammar::event(state, number, b);
        at = note(notes, at, event);
        number = grammar::with_digit(number, b);
        state = grammar::step(state, b);
    }
    at
}
