// A turn by itself, with nothing kept from a turn before: room is taken by the job's size, since it is cleared in each call. The contracts cite specs/Turn.
ghost use Rattle.std.specs.Prelude.{◌≤◌, ◌<◌};
ghost use Rattle.job.specs.Job.{most_claims};
ghost use Rattle.job.specs.Format.{claims, workers as workers_of, job_of};
ghost use Rattle.table.specs.Questions.{Listed};
ghost use Rattle.turn.specs.Turn.{turn};
ghost use Rattle.turn.specs.Ready.{Ready, Made};

use crate::{HeldSet, Kind, take_turn};
use job::checks::MOST_CLAIMS;
use job::{ClaimIndex, Job};
use table::QuestionIndex;

// A job of at most so many claims is a small one.
pub const FEW_CLAIMS: usize = 64;

// A turn on a job of at most ROOM claims.
fn take_sized<const ROOM: usize>(
    job: &Job,
    index: &ClaimIndex,
    asked: &QuestionIndex,
    table: &mut [u32],
    w: usize,
) -> Kind
    requires ready { Ready job.now index.now table.old × Listed (job_of job.now) asked.now × (w < workers_of job.now) }
    requires fits { (claims job.now ≤ ROOM) × (ROOM ≤ most_claims) }
    ensures { Made (turn (job_of job.now) table.old w) result table.new }
{
    let claims = job.claim_count();
    let mut place = [0u16; ROOM];
    let mut members = [0u16; ROOM];
    let mut set = HeldSet::new(&mut place[..claims], &mut members[..claims]);
    take_turn(job, index, asked, table, w, &mut set)
}

// A turn of worker w.
pub fn take_single(
    job: &Job,
    index: &ClaimIndex,
    asked: &QuestionIndex,
    table: &mut [u32],
    w: usize,
) -> Kind
    requires { Ready job.now index.now table.old × Listed (job_of job.now) asked.now × (w < workers_of job.now) }
    ensures { Made (turn (job_of job.now) table.old w) result table.new }
{
    if job.claim_count() <= FEW_CLAIMS {
        return take_sized::<FEW_CLAIMS>(job, index, asked, table, w);
    }
    take_sized::<MOST_CLAIMS>(job, index, asked, table, w)
}
