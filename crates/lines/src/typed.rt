// The call: from a text of lines to the bytes of its job. The contract cites specs/Laws.
ghost use Rattle.std.specs.Prelude.{◌≤◌, length, IfOk};
ghost use Rattle.lines.specs.Answer.{check_of, written_of};
ghost use Rattle.lines.specs.Laws.{Typing};

use crate::{room, write};
use job::Refusal;

// Writes the job of the text at the start of `out`, and nothing past it: how many bytes. Refused, nothing is written.
pub fn job_of_lines(text: &[u8], out: &mut [u8]) -> Result<usize, Refusal>
    ensures typing { Typing text.now out.old out.new (check_of result) (written_of result) }
    ensures fits { IfOk result (λ n. n ≤ length out.new) }
{
    let tally = room::check_lines(text, out.len())?;
    Ok(write::put_job(out, text, tally))
}
