// The part of a job that some claims make, written as a job of its own and evaluated. The contracts cite specs/: Part (what it is) and
// Written (how it is written).
#![tactic(auto)]

mod bodies;
mod claim;
mod component;
pub mod evaluate;
mod write;
