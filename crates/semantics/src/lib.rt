// No code: what the well-founded model of a job is, and the theorems about it (specs/ and proofs/). Crate model computes it.
#![tactic(auto)]
