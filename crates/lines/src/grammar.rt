// The machine that reads a text byte by byte. The contracts cite specs/Grammar.
ghost use Rattle.std.specs.Prelude.{◌≡◌, true, ◌+◌, ◌*◌, ◌-◌, ◌<◌, ◌≤◌, length, get_or};
ghost use Rattle.lines.specs.Lines.{letters};
ghost use Rattle.lines.specs.Grammar.{is_digit, after as after_word, spelled as spelled_of, first as first_of, only as only_of};
ghost use Rattle.lines.specs.Grammar.{either as either_of, ended as ended_of, more as more_of, any_line, body_next, step as step_of, is_bad, line_start};
ghost use Rattle.lines.specs.Numbering.{cap, digit_by, unless_digit, event_in};

use crate::{Event, Slot, State, Word};

// Where a number past it is kept: past every limit.
const KEPT: usize = 65536;

pub fn is_digit(b: u8) -> bool
    ensures { result ≡ is_digit b }
{
    b.is_ascii_digit()
}

// How a word is typed.
fn letters(word: Word) -> &'static [u8]
    ensures value { result.now ≡ letters word }
    ensures some { 0 < length result.now }
{
    match word {
        Word::ClaimsWord => b"claims ",
        Word::WorkersWord => b" workers ",
        Word::IfWord => b" if ",
        Word::NotWord => b"not ",
        Word::AskWord => b"ask ",
        Word::StopWord => b".\n",
        Word::CommaWord => b", ",
    }
}

// Letter k of a word; 0 past its end.
fn letter(word: Word, k: usize) -> u8
    ensures { result ≡ get_or (letters word) k 0 }
{
    letters(word).get(k).copied().unwrap_or(0)
}

// The state behind a whole word.
fn after(word: Word) -> State
    ensures { result ≡ after_word word }
{
    match word {
        Word::ClaimsWord => State::First(Slot::ClaimCount),
        Word::WorkersWord => State::First(Slot::WorkerCount),
        Word::IfWord | Word::CommaWord => State::BodyNext,
        Word::NotWord => State::First(Slot::NotBody),
        Word::AskWord => State::First(Slot::Asker),
        Word::StopWord => State::AnyLine,
    }
}

// The state behind byte b where k letters of a word stand before it.
fn spelled(word: Word, k: usize, b: u8) -> State
    ensures { result ≡ spelled_of word k b }
{
    if b != letter(word, k) {
        return State::Bad;
    }
    if k < letters(word).len() - 1 {
        return State::Letter(word, k + 1);
    }
    after(word)
}

// The first byte of a number.
fn first(slot: Slot, b: u8) -> State
    ensures { result ≡ first_of slot b }
{
    if b == b'0' {
        return State::Zero(slot);
    }
    if is_digit(b) {
        return State::More(slot);
    }
    State::Bad
}

fn only(b: u8, wanted: u8, next: State) -> State
    ensures { result ≡ only_of b wanted next }
{
    if b == wanted {
        return next;
    }
    State::Bad
}

// Byte b, or byte other, and nothing else.
fn either(b: u8, one: u8, next: State, two: u8, other: State) -> State
    ensures { result ≡ either_of b one next two other }
{
    if b == one {
        return next;
    }
    only(b, two, other)
}

// The byte behind a number.
fn ended(slot: Slot, b: u8) -> State
    ensures { result ≡ ended_of slot b }
{
    match slot {
        Slot::ClaimCount => only(b, b' ', State::Letter(Word::WorkersWord, 1)),
        Slot::WorkerCount => only(b, b'\n', State::AnyLine),
        Slot::Head => either(
            b,
            b'.',
            State::Letter(Word::StopWord, 1),
            b' ',
            State::Letter(Word::IfWord, 1),
        ),
        Slot::Body | Slot::NotBody => either(
            b,
            b'.',
            State::Letter(Word::StopWord, 1),
            b',',
            State::Letter(Word::CommaWord, 1),
        ),
        Slot::Asker => only(b, b' ', State::First(Slot::Asked)),
        Slot::Asked => only(b, b'\n', State::AskLine),
    }
}

// A byte behind a digit of a number that isn't 0.
fn more(slot: Slot, b: u8) -> State
    ensures { result ≡ more_of slot b }
{
    if is_digit(b) {
        return State::More(slot);
    }
    ended(slot, b)
}

// The first byte of a line where a rule or a question may stand.
fn any_line(b: u8) -> State
    ensures { result ≡ any_line b }
{
    if b == b'a' {
        return State::Letter(Word::AskWord, 1);
    }
    first(Slot::Head, b)
}

// The first byte of a literal.
fn body_next(b: u8) -> State
    ensures { result ≡ body_next b }
{
    if b == b'n' {
        return State::Letter(Word::NotWord, 1);
    }
    first(Slot::Body, b)
}

// The state behind byte b.
pub fn step(state: State, b: u8) -> State
    ensures { result ≡ step_of state b }
{
    match state {
        State::Bad => State::Bad,
        State::FirstLine => only(b, b'c', State::Letter(Word::ClaimsWord, 1)),
        State::AnyLine => any_line(b),
        State::AskLine => only(b, b'a', State::Letter(Word::AskWord, 1)),
        State::Letter(word, k) => spelled(word, k, b),
        State::First(slot) => first(slot, b),
        State::Zero(slot) => ended(slot, b),
        State::More(slot) => more(slot, b),
        State::BodyNext => body_next(b),
    }
}

pub fn is_bad(state: State) -> bool
    ensures { result ≡ is_bad state }
{
    matches!(state, State::Bad)
}

// 1 at the start of a line, else 0.
pub fn starts_line(state: State) -> usize
    ensures { (result ≡ line_start state) × (result ≤ 1) }
{
    match state {
        State::FirstLine | State::AnyLine | State::AskLine => 1,
        _ => 0,
    }
}

// A digit more, kept at 65,536 where the number is past that; 0 behind any other byte.
pub fn with_digit(number: usize, b: u8) -> usize
    ensures { result ≡ digit_by cap number b }
{
    if !is_digit(b) {
        return 0;
    }
    let more = 10 * number.min(KEPT) + usize::from(b - b'0');
    more.min(KEPT)
}

fn unless_digit(slot: Slot, number: usize, b: u8) -> Event
    ensures { result ≡ unless_digit slot number b }
{
    if is_digit(b) {
        return None;
    }
    Some((slot, number))
}

// What byte b ends.
pub fn event(state: State, number: usize, b: u8) -> Event
    ensures { result ≡ event_in state number b }
{
    match state {
        State::Zero(slot) | State::More(slot) => unless_digit(slot, number, b),
        _ => None,
    }
}
