// The input of a listing: where the job ends, and the checks. The contracts cite specs/Listing.
ghost use Rattle.std.specs.Prelude.{◌≡◌, ◌≤◌, length};
ghost use Rattle.job.specs.Rows.{◌⨾◌};
ghost use Rattle.job.specs.Checks.{check_job};
ghost use Rattle.calls.specs.Calls.{check_schedule};
ghost use Rattle.listing.specs.Listing.{job_end, listing_check};

use calls::schedule;
use job::{Check, Job, Refusal, bytes, checks};

// The longest input.
pub const MOST_INPUT: usize = 65536;

// The length that stands for every longer one.
pub const TOO_LONG: usize = MOST_INPUT + 1;

// Where the job ends: what the first word says, or the end of the input where it is absent or past that.
pub fn job_end(input: &[u8]) -> usize
    ensures { (result ≡ job_end input.now) × (result ≤ length input.now) }
{
    let n = input.len();
    if n < 4 {
        return n;
    }
    bytes::word(input, 0).min(n)
}

// The checks of a listing: the input's length, the job, the schedule.
pub fn check_input(input: &[u8]) -> Check
    ensures { result ≡ listing_check input.now }
{
    if MOST_INPUT < input.len() {
        return Err(Refusal {
            number: 1,
            place: TOO_LONG,
        });
    }
    let (job, schedule) = input.split_at(job_end(input));
    check_parts(job, schedule)
}

// The checks of the input's two parts.
fn check_parts(job: &[u8], schedule: &[u8]) -> Check
    ensures { result ≡ check_job job.now ⨾ check_schedule job.now schedule.now }
{
    checks::check_job(job)?;
    schedule::check_schedule(&Job::of_accepted(job), schedule)
}
