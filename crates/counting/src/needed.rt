// What is counted of a job: claim 0's verdict, and the changing turns that it needs. The contracts cite specs/Census.
ghost use Rattle.std.specs.Prelude.{◌≡◌, ◌^◌, ◌<◌, ◌≤◌, sum, drop};
ghost use Rattle.job.specs.Format.{claims, job_of};
ghost use Rattle.semantics.specs.Model.{program_of, verdict};
ghost use Rattle.counting.specs.Verdicts.{meant};
ghost use Rattle.table.specs.Layout.{used as used_by};
ghost use Rattle.rulesets.specs.Census.{needed_by};

use job::Job;
use job::checks::MOST_CLAIMS;
use listing::play;
use model::evaluate;
use table::words;

// Words of a table of three claims, one worker and three questions.
const MOST_WORDS: usize = 23;

// A claim's verdict.
#[derive(Clone, Copy, Debug, PartialEq, Eq)]
pub enum Verdict {
    True,
    False,
    Undefined,
}

// The verdict of claim 0.
pub fn first_verdict(job: &Job) -> Verdict
    requires { (1 ≤ claims job.now) × (claims job.now ≤ 3) }
    ensures { meant result ≡ verdict (program_of (job_of job.now)) 0 }
{
    let mut out = [0u8; 3];
    evaluate::evaluate_accepted(job, &mut out);
    match out[0] {
        1 => Verdict::True,
        2 => Verdict::False,
        _ => Verdict::Undefined,
    }
}

// All turns of a tally but the idle ones.
fn all_changing(tally: [u64; 8]) -> u64
    requires { sum (drop 1 tally) < 2 ^ 64 }
    ensures { result ≡ sum (drop 1 tally) }
{
    tally[1..].iter().sum()
}

// The changing turns that one worker's questions need.
pub fn turns_needed(job: &Job) -> u64
    requires { used_by (job_of job.now) ≤ 23 }
    ensures { result ≡ needed_by (job_of job.now) }
{
    prove!(job.claim_count() <= MOST_CLAIMS);
    let mut table = [0u32; MOST_WORDS];
    let used = words::used_words(job);
    let tally = play::play(job, &[], &mut table[..used]);
    all_changing(tally)
}
