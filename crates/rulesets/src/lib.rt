// No code but the types of the answer: the rule sets of a size, each as a job, how many make claim 0 true, false and undefined, and which needs most turns
// (specs/ and proofs/; 02, order 12). Crate counting counts them.
#![tactic(auto)]

use job::Refusal;

// The five numbers of a size: how many sets make claim 0 true, false, undefined; the place of the first set that needs most changing turns, and those turns.
#[derive(Clone, Copy, Debug, Default, PartialEq, Eq)]
pub struct Counts {
    pub trues: u64,
    pub falses: u64,
    pub undefineds: u64,
    pub place: u64,
    pub turns: u64,
}

// What the call answers. The contracts name its two cases Counted and Refused (specs/CensusAnswer).
pub type CensusAnswer = Result<Counts, Refusal>;
