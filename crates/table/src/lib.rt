// The words of a table: layout, the checks of its length and words (rows 9 and 10), starting, stores, reading a claim, and each worker's newest
// claim; and each worker's questions. The contracts cite specs/: Layout, Ranges, Start, Reading, Newest, Questions.
#![tactic(auto)]

pub mod checks;
pub mod literals;
pub mod newest;
pub mod questions;
pub mod start;
pub mod stores;
pub mod words;

// What reading a claim finds. A complete claim (a completed table entry) has a value.
#[derive(Clone, Copy, Debug, PartialEq, Eq)]
pub enum Reading {
    Fresh,
    Open,
    True,
    False,
    Undefined,
}

// The index of a job's questions (questions.rt): an entry for each worker and one more, where the places of its questions start; then the
// places in the file, worker by worker.
pub type QuestionIndex = [u16; questions::QUESTION_ENTRIES];
