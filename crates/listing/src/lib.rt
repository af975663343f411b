// The listing: from the input bytes to the bytes of the text.
#![tactic(auto)]

mod finish;
pub mod input;
mod lines;
pub mod list;
pub mod play;
mod text;

use job::Check;

// What a listing answers: its check, and how many bytes the text has that it wrote; 0 where there was no room.
// The length stands beside the check and not in it: a refusal's line is a text too, and both outcomes write theirs alike.
#[derive(Clone, Copy, Debug, PartialEq, Eq)]
pub struct Listed {
    pub check: Check,
    pub length: usize,
}
