// The sets D(S) by counters, a number a rule (crate semantics: specs/Model): where literals occur, how a D grows and how U shrinks.
// The contracts cite specs/: Positions and Placing (occurrences), Queues and Counters (growing), Doubts (shrinking).
#![tactic(auto)]

pub mod derive;
pub mod doubt;
pub mod key_queue;
pub mod occurrences;
pub mod recover;
pub mod tables;
