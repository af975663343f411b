// Fields of 16 and 32 bits, and the header of a job, written into an output. The contracts cite specs/Header and job/specs/Encoding.
#![tactic(auto)]

pub mod header;
pub mod little_endian;
