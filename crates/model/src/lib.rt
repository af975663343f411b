// The evaluation of a job: its well-founded model (crate semantics), computed. The contracts cite specs/: Output (what evaluation
// ensures) and Rounds (the alternation).
#![tactic(auto)]

mod alternate;
pub mod evaluate;
mod rooms;
mod verdicts;
