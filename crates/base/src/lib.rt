// What several crates share: bytes as sets of claims; definitions and laws, each once (specs/ and proofs/).
#![tactic(auto)]

pub mod byte_sets;
