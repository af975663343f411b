// The bytes of a job: reading its parts, checking it (rows 1 to 8 of the check table), and the index of its claims.
// The contracts cite specs/: Job and Format (what the bytes mean), Checks (the table), Claims (a claim's literals).
#![tactic(auto)]

pub mod bytes;
pub mod checks;
pub mod claims;
pub mod format;
mod reader;

pub use reader::Job;

// Why a call refuses what it was given: a number of the check table, and a place.
#[derive(Clone, Copy, Debug, PartialEq, Eq)]
pub struct Refusal {
    pub number: u32,
    pub place: usize,
}

// What a check answers. The contracts name its two cases Accepted and Refused (specs/Check).
pub type Check = Result<(), Refusal>;

// A literal of a rule's body: a claim (a ground atom), or its default negation.
#[derive(Clone, Copy, Debug, PartialEq, Eq)]
pub enum Literal {
    Plain(usize),
    Negated(usize),
}

// A question: the worker that puts it, and the claim asked.
#[derive(Clone, Copy, Debug, PartialEq, Eq)]
pub struct Question {
    pub worker: usize,
    pub claim: usize,
}

// A cursor over one claim's literals: those from `at` up to `end`, counted among all the job's literals, are left.
#[derive(Clone, Copy, Debug, PartialEq, Eq)]
pub struct Cursor {
    pub at: usize,
    pub end: usize,
}

// The index of a job's claims and rules (claims.rt): a field for each claim and one more, then a bit for each literal and one more.
pub type ClaimIndex = [u16; claims::INDEX_ENTRIES];
