// Rules typed as lines (order 1): from a text to the bytes of its job. `typed` has the call.
// specs/ for readers: Lines (what a text says, and its job), Checks (rows 15 and 16), Laws (row 14, and all that is promised).
// The other contracts cite Grammar and Fitting (row 14 along the bytes), Numbering (row 15), Room (row 16), Noting and Placing (the
// rules by head).
#![tactic(auto)]

mod fits;
pub mod grammar;
mod note;
mod numbers;
mod place;
mod room;
pub mod typed;
mod write;

// The numbers of a text, by what they stand for.
#[derive(Clone, Copy, Debug, PartialEq, Eq)]
pub enum Slot {
    ClaimCount,
    WorkerCount,
    Head,
    Body,
    NotBody,
    Asker,
    Asked,
}

// The fixed words between the numbers.
#[derive(Clone, Copy, Debug, PartialEq, Eq)]
pub enum Word {
    ClaimsWord,
    WorkersWord,
    IfWord,
    NotWord,
    AskWord,
    StopWord,
    CommaWord,
}

// Where in a line the reading of a text is.
#[derive(Clone, Copy, Debug, PartialEq, Eq)]
pub enum State {
    // Something doesn't fit.
    Bad,
    // At the start of the first line, of one where a rule or a question may stand, of one behind a question.
    FirstLine,
    AnyLine,
    AskLine,
    // Behind so many letters of a word.
    Letter(Word, usize),
    // At the start of a number; behind a 0 that is one; behind a digit of another.
    First(Slot),
    Zero(Slot),
    More(Slot),
    // At the start of a literal.
    BodyNext,
}

// What a byte ends: a number with its value, kept at 65,536 where it is past that.
pub type Event = Option<(Slot, usize)>;

// What the numbers read so far say.
#[derive(Clone, Copy, Debug, Default, PartialEq, Eq)]
pub struct Tally {
    pub claims: usize,
    pub workers: usize,
    pub rules: usize,
    pub literals: usize,
    pub questions: usize,
}
