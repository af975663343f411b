// The evaluation of a job: the verdict of every claim in its well-founded model. The contracts cite semantics/specs/Model and specs/Output.
ghost use Rattle.std.specs.Prelude.{◌≡◌, ◌≤◌, length};
ghost use Rattle.job.specs.Format.{claims, job_of};
ghost use Rattle.job.specs.Check.{Accepted};
ghost use Rattle.semantics.specs.Model.{program_of};
ghost use Rattle.model.specs.Output.{OutputBytes, output_of, Evaluated};

use crate::rooms;
use job::{Check, Job, Refusal, checks, format};

// The evaluation of an accepted job.
pub fn evaluate_accepted(job: &Job, out: &mut [u8])
    requires { claims job.now ≤ length out.old }
    ensures output_bytes { OutputBytes job.now (program_of (job_of job.now)) out.old out.new }
    ensures out_after { out.new ≡ output_of Accepted job.now out.old }
{
    rooms::evaluate(job, out);
}

// Plain evaluation: rows 1 to 8 of the check table, then 13. Accepted, byte c of `out` is the verdict of
// claim c, and every byte past the claims is as it was; refused, `out` is as it was.
pub fn evaluate(job: &[u8], out: &mut [u8]) -> Check
    ensures { Evaluated job.now out.old result out.new }
{
    checks::check_job(job)?;
    let n = format::claim_count(job);
    if out.len() < n {
        return Err(Refusal {
            number: 13,
            place: n,
        });
    }
    evaluate_accepted(&Job::of_accepted(job), out);
    Ok(())
}
