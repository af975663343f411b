// The third bullet of a turn: what is reached from w's newest claim becomes complete, or one claim of it moves on.
// The contracts cite `work_turn` of specs/Turn, and specs/KeptSet.
ghost use Rattle.std.specs.Prelude.{◌≡◌, ◌+◌, ◌≤◌, ◌<◌, length, take};
ghost use Rattle.job.specs.Format.{claims, workers, job_of};
ghost use Rattle.parts.specs.Part.{Alone};
ghost use Rattle.parts.specs.Written.{Lent};
ghost use Rattle.table.specs.Newest.{sought};
ghost use Rattle.turn.specs.Turn.{completed_mark, keeping, work_turn};
ghost use Rattle.turn.specs.Ready.{Ready};
ghost use Rattle.turn.specs.KeptSet.{SameRoom, Member, Marked, Keeps, Completes, Done};

use crate::{Chosen, HeldSet, Kind, marks, passing, remaining};
use job::checks::MOST_CLAIMS;
use job::{ClaimIndex, Job};
use parts::evaluate;
use table::newest;

// Every member becomes complete, with room for their values: these are those of the part of the job that they make.
fn complete_in(
    job: &Job,
    index: &ClaimIndex,
    table: &mut [u32],
    place: &[u16],
    members: &[u16],
    values: &mut [u8],
)
    requires lent { Lent job.now index.now table.old place.now members.now × Alone (job_of job.now) table.old place.now }
    requires values_len { length values.old ≡ length members.now }
    ensures { Marked (completed_mark (job_of job.now) table.old) (Member members.now (length members.now)) table.old table.new }
{
    evaluate::evaluate_part(job, index, table, place, members, values);
    marks::complete_members(members, values, table);
}

// Every member of the set becomes complete: its value is that of the model in which each claim complete before has its rules exchanged. The newest claim of
// worker w, whose they were, is sought.
fn complete(job: &Job, index: &ClaimIndex, table: &mut [u32], w: usize, set: &HeldSet<'_, '_>)
    requires lent { Lent job.now index.now table.old set.now.place.now (take set.now.kept.count set.now.members.now) × Alone (job_of job.now) table.old set.now.place.now }
    requires fits { set.now.kept.count ≤ length set.now.members.now }
    requires w_bound { w < workers job.now }
    ensures { Completes (job_of job.now) table.old w (take set.now.kept.count set.now.members.now) table.new }
{
    let n = set.kept.count;
    let mut values = [0u8; MOST_CLAIMS];
    complete_in(
        job,
        index,
        table,
        set.place,
        &set.members[..n],
        &mut values[..n],
    );
    newest::seek_newest(table, job.claim_count(), w);
}

// The turn of a worker whose newest open claim is n. Where n has a literal left, it is n that moves on, and nothing is gathered.
pub fn work_turn(
    job: &Job,
    index: &ClaimIndex,
    table: &mut [u32],
    w: usize,
    n: usize,
    set: &mut HeldSet<'_, '_>,
) -> Kind
    requires ready { Ready job.now index.now table.old }
    requires n_bound { (n < claims job.now) × (w < workers job.now) × (n + 1 ≡ sought (claims job.now) table.old w) }
    requires keeps { Keeps (job_of job.now) table.old set.old.kept set.old.place.now set.old.members.now }
    ensures done { Done (job_of job.now) (keeping (job_of job.now) (work_turn (job_of job.now) table.old w n)) result set.new.kept table.new set.new.place.now set.new.members.now }
    ensures same_room { SameRoom set.old set.new }
{
    if !remaining::passed_all(index, table, n) {
        return passing::pass_turn(job, index, table, w, n, set);
    }
    set.reach(job, index, table, n);
    if let Some(claim) = remaining::chosen(index, table, set, w) {
        set.kept.chosen = Some(Chosen { worker: w, claim });
        return passing::pass_turn(job, index, table, w, claim, set);
    }
    if set.all_owned(table, w) {
        complete(job, index, table, w, set);
        set.clear();
        return Kind::Completed;
    }
    Kind::Idle
}
