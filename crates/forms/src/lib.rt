// No code: the one form of a job's rules, the order of byte strings, and the theorems about them (specs/ and proofs/; 02, order 7).
// Crate canon writes the form.
#![tactic(auto)]
