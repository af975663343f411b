// The pairs of a record, gone through on a table. The contracts cite specs/Following.
ghost use Rattle.std.specs.Prelude.{◌≤◌};
ghost use Rattle.job.specs.Format.{claims, job_of};
ghost use Rattle.job.specs.Job.{most_claims};
ghost use Rattle.table.specs.Questions.{Listed};
ghost use Rattle.turn.specs.Ready.{Ready};
ghost use Rattle.turn.specs.KeptSet.{SameRoom, Keeps};
ghost use Rattle.recording.specs.Following.{FollowedTo};

use crate::Followed;
use calls::tally;
use job::checks::MOST_CLAIMS;
use job::{ClaimIndex, Job};
use table::QuestionIndex;
use turn::HeldSet;
use turn::single::FEW_CLAIMS;

// The pairs up to the first false one, each turn taken and then compared, with room for what is kept from turn to turn.
fn follow_in(
    job: &Job,
    index: &ClaimIndex,
    asked: &QuestionIndex,
    table: &mut [u32],
    log: &[u8],
    set: &mut HeldSet<'_, '_>,
) -> Followed
    requires ready { Ready job.now index.now table.old × Listed (job_of job.now) asked.now }
    requires keeps { Keeps (job_of job.now) table.old set.old.kept set.old.place.now set.old.members.now }
    ensures followed { FollowedTo job.now table.old log.now result table.new }
    ensures same_room { SameRoom set.old set.new }
{
    let workers = job.worker_count();
    let pairs = log.len() / 2;
    let mut counts = [0u64; 8];
    // By index: tried over `chunks_exact(2).enumerate()`, the proof didn't close.
    for i in 0..pairs {
        let w = usize::from(log[2 * i]);
        if workers <= w {
            return Followed {
                held: i,
                tally: counts,
            };
        }
        let kind = turn::take_turn(job, index, asked, table, w, set);
        if tally::kind_number(kind) != usize::from(log[2 * i + 1]) {
            return Followed {
                held: i,
                tally: counts,
            };
        }
        let next = tally::counted(counts, kind);
        counts = next;
    }
    Followed {
        held: pairs,
        tally: counts,
    }
}

// The same on a job of at most ROOM claims.
fn follow_sized<const ROOM: usize>(
    job: &Job,
    index: &ClaimIndex,
    asked: &QuestionIndex,
    table: &mut [u32],
    log: &[u8],
) -> Followed
    requires ready { Ready job.now index.now table.old × Listed (job_of job.now) asked.now }
    requires room { (claims job.now ≤ ROOM) × (ROOM ≤ most_claims) }
    ensures { FollowedTo job.now table.old log.now result table.new }
{
    let claims = job.claim_count();
    let mut place = [0u16; ROOM];
    let mut members = [0u16; ROOM];
    let mut set = HeldSet::new(&mut place[..claims], &mut members[..claims]);
    follow_in(job, index, asked, table, log, &mut set)
}

// The pairs up to the first false one.
pub fn follow(
    job: &Job,
    index: &ClaimIndex,
    asked: &QuestionIndex,
    table: &mut [u32],
    log: &[u8],
) -> Followed
    requires { Ready job.now index.now table.old × Listed (job_of job.now) asked.now }
    ensures { FollowedTo job.now table.old log.now result table.new }
{
    if job.claim_count() <= FEW_CLAIMS {
        return follow_sized::<FEW_CLAIMS>(job, index, asked, table, log);
    }
    follow_sized::<MOST_CLAIMS>(job, index, asked, table, log)
}
