// Bytes and decimal numbers, written into a buffer that the caller lends. Each function writes at `at` and answers the place after
// what it wrote. The contracts cite specs/: Written, and Decimal for numbers.
#![tactic(auto)]

pub mod number;
pub mod put;
mod writer;

pub use writer::Writer;
