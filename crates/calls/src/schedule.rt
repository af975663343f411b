// The schedule of a run: its check, and its turns, one after the other. The contracts cite `run_table` and `run_kinds` of the turn's specs, and
// `check_schedule` and `tally` of specs/Calls.
ghost use Rattle.std.specs.Prelude.{◌≡◌, ◌≤◌};
ghost use Rattle.job.specs.Format.{claims, job_of};
ghost use Rattle.job.specs.Job.{most_claims};
ghost use Rattle.table.specs.Questions.{Listed};
ghost use Rattle.turn.specs.Turn.{run_table, run_kinds};
ghost use Rattle.calls.specs.Calls.{Named, check_schedule, tally as tally_of};
ghost use Rattle.turn.specs.Ready.{Ready};
ghost use Rattle.turn.specs.KeptSet.{SameRoom, Keeps};

use crate::tally;
use job::checks::MOST_CLAIMS;
use job::{Check, ClaimIndex, Job, Refusal};
use table::QuestionIndex;
use turn::HeldSet;
use turn::single::FEW_CLAIMS;

// The turns that the schedule names, and their tally, with room for what is kept from turn to turn.
fn run_in(
    job: &Job,
    index: &ClaimIndex,
    asked: &QuestionIndex,
    table: &mut [u32],
    schedule: &[u8],
    set: &mut HeldSet<'_, '_>,
) -> [u64; 8]
    requires ready { Ready job.now index.now table.old × Listed (job_of job.now) asked.now }
    requires named { Named job.now schedule.now }
    requires keeps { Keeps (job_of job.now) table.old set.old.kept set.old.place.now set.old.members.now }
    ensures value { result ≡ tally_of (run_kinds (job_of job.now) table.old schedule.now) }
    ensures table_after { table.new ≡ run_table (job_of job.now) table.old schedule.now }
    ensures same_room { SameRoom set.old set.new }
{
    let mut counts = [0u64; 8];
    for &worker in schedule {
        let w = usize::from(worker);
        let kind = turn::take_turn(job, index, asked, table, w, set);
        let next = tally::counted(counts, kind);
        counts = next;
    }
    counts
}

// The turns of a run on a job of at most ROOM claims.
fn run_sized<const ROOM: usize>(
    job: &Job,
    index: &ClaimIndex,
    asked: &QuestionIndex,
    table: &mut [u32],
    schedule: &[u8],
) -> [u64; 8]
    requires ready { Ready job.now index.now table.old × Listed (job_of job.now) asked.now }
    requires named { Named job.now schedule.now }
    requires fits { (claims job.now ≤ ROOM) × (ROOM ≤ most_claims) }
    ensures value { result ≡ tally_of (run_kinds (job_of job.now) table.old schedule.now) }
    ensures table_after { table.new ≡ run_table (job_of job.now) table.old schedule.now }
{
    let claims = job.claim_count();
    let mut place = [0u16; ROOM];
    let mut members = [0u16; ROOM];
    let mut set = HeldSet::new(&mut place[..claims], &mut members[..claims]);
    run_in(job, index, asked, table, schedule, &mut set)
}

// The turns that the schedule names, and their tally.
pub fn run_turns(
    job: &Job,
    index: &ClaimIndex,
    asked: &QuestionIndex,
    table: &mut [u32],
    schedule: &[u8],
) -> [u64; 8]
    requires ready { Ready job.now index.now table.old }
    requires listed { Listed (job_of job.now) asked.now }
    requires named { Named job.now schedule.now }
    ensures value { result ≡ tally_of (run_kinds (job_of job.now) table.old schedule.now) }
    ensures table_after { table.new ≡ run_table (job_of job.now) table.old schedule.now }
{
    if job.claim_count() <= FEW_CLAIMS {
        return run_sized::<FEW_CLAIMS>(job, index, asked, table, schedule);
    }
    run_sized::<MOST_CLAIMS>(job, index, asked, table, schedule)
}

// Row 11 of a run: every worker that the schedule names is one of the job's.
pub fn check_schedule(job: &Job, schedule: &[u8]) -> Check
    ensures { result ≡ check_schedule job.now schedule.now }
{
    let workers = job.worker_count();
    match schedule
        .iter()
        .position(|&worker| workers <= usize::from(worker))
    {
        Some(place) => Err(Refusal { number: 11, place }),
        None => Ok(()),
    }
}
