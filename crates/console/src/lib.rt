// What the programs share: standard input read to its end (`input`), what is wrong with a refused job in words (`faults`), and the kinds of turns (`kinds`).
#![tactic(auto)]

pub mod faults;
mod front;
pub mod input;
pub mod kinds;
