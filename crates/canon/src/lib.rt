// The same rules, written one way (02, order 7): `canonical` has the call that writes a job's form, `compare` the one that compares
// byte strings. What the form is stands in crate forms. The contracts cite specs/: Answers (what the calls give), Comparing and Merging
// (sorting), Kept, Sizes and Heads (bodies and rules in order), Rooms.
#![tactic(auto)]

mod bodies;
pub mod canonical;
pub mod compare;
mod heads;
mod literals;
mod merging;
mod ranks;
mod rooms;
mod write;
