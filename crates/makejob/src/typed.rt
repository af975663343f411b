// The job of a text, and what the listing program says of it. The contract cites lines/specs/Laws and specs/Lists.
ghost use Rattle.std.specs.Prelude.{◌≡◌, ◌≤◌, length, IfOk};
ghost use Rattle.job.specs.Check.{Accepted};
ghost use Rattle.lines.specs.Answer.{check_of, written_of};
ghost use Rattle.lines.specs.Lines.{Lines, text_of};
ghost use Rattle.lines.specs.Laws.{Typing};
ghost use Rattle.makejob.specs.Lists.{Lists};

use job::Refusal;

// Writes the job of the text at the start of `out`; refused, nothing is written.
pub fn make_job(text: &[u8], out: &mut [u8]) -> Result<usize, Refusal>
    ensures typing { Typing text.now out.old out.new (check_of result) (written_of result) }
    ensures fits { IfOk result (λ n. n ≤ length out.new) }
    ensures lists { (l : Lines) → text.now ≡ text_of l → check_of result ≡ Accepted → Lists l }
{
    lines::typed::job_of_lines(text, out)
}
