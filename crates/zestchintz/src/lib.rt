// The two functions that a program in C calls: the check of a job, and plain evaluation. Thin over the crates job and model.
// The contracts cite specs/Code for the code that they answer, and the specs of those crates for the rest.
#![tactic(auto)]

ghost use Rattle.std.specs.Prelude.{◌≡◌, length};
ghost use Rattle.job.specs.Checks.{check_job};
ghost use Rattle.job.specs.Reading.{Reading};
ghost use Rattle.model.specs.Output.{check_plain, Evaluated};
ghost use Rattle.zestchintz.specs.Code.{Answered, Coded};

use job::Check;

// The answer of a call in one number: the claims, or the refusal.
fn code_of(job: &[u8], check: Check) -> u64
    requires { Answered job.now check }
    ensures { Coded job.now check result }
{
    match check {
        Ok(()) => job::format::claim_count(job) as u64,
        Err(refusal) => codes::in_halves(refusal),
    }
}

// Checks a job: rows 1 to 8 of the check table.
#[unsafe(no_mangle)]
pub extern "C" fn zestchintz_check(job: &[u8]) -> u64
    ensures coded { Coded job.now (check_job job.now) result }
    ensures reading { Reading }
{
    code_of(job, job::checks::check_job(job))
}

// Plain evaluation: rows 1 to 8, then 13; accepted, the verdict of every claim, a byte each, and nothing after them.
#[unsafe(no_mangle)]
pub extern "C" fn zestchintz_evaluate(job: &[u8], verdicts: &mut [u8]) -> u64
    ensures coded { Coded job.now (check_plain job.now (length verdicts.old)) result }
    ensures evaluated { Evaluated job.now verdicts.old (check_plain job.now (length verdicts.old)) verdicts.new }
{
    code_of(job, model::evaluate::evaluate(job, verdicts))
}
