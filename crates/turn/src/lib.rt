// One turn of a worker over the words of a shared table: the parts of a turn, and `take_turn`, the whole of it.
// The contracts cite specs/: Turn (what a turn does), Ready (what the functions are lent), Gather (its queue of claims), KeptSet (what is
// kept from turn to turn).
#![tactic(auto)]

ghost use Rattle.std.specs.Prelude.{◌≡◌, ◌+◌, List, ℕ, ◌<◌};
ghost use Rattle.job.specs.Format.{workers as workers_of, job_of};
ghost use Rattle.table.specs.Layout.{awaited as awaited_of};
ghost use Rattle.table.specs.Newest.{NewestKept};
ghost use Rattle.table.specs.Questions.{Listed};
ghost use Rattle.table.specs.Ranges.{InRange};
ghost use Rattle.turn.specs.Turn.{turn};
ghost use Rattle.turn.specs.Ready.{Ready};
ghost use Rattle.turn.specs.KeptSet.{SameRoom, Keeps, Done};

mod asking;
mod failing;
mod gather;
mod kept_set;
mod marks;
mod owners;
mod passing;
mod remaining;
pub mod single;
mod working;

use job::{ClaimIndex, Job};
use table::{QuestionIndex, stores, words};

// The kind of a turn.
#[derive(Clone, Copy, Debug, PartialEq, Eq)]
pub enum Kind {
    Idle,
    Woke,
    Opened,
    Waits,
    Took,
    Passed,
    Completed,
    Answered,
}

// A claim that was to move on, and the worker for whom.
#[derive(Clone, Copy)]
pub struct Chosen {
    pub worker: usize,
    pub claim: usize,
}

// The set that a run keeps from turn to turn (kept_set.rt). `from`: the claim whose reached claims are kept, if any are; `count`: how many they are.
// `chosen`: the claim of them that was to move on when that was last looked for, if it is known.
#[derive(Clone, Copy)]
pub struct Kept {
    pub from: Option<usize>,
    pub count: usize,
    pub chosen: Option<Chosen>,
}

// What is kept, with the room for its members and their places. A lifetime each: with one for both, a proof forgets what the arrays hold once the set is gone.
#[derive(Drop)]
pub struct HeldSet<'a, 'b> {
    pub kept: Kept,
    pub place: &'a mut [u16],
    pub members: &'b mut [u16],
}

// The turn of worker w, which awaits this claim.
fn wait_turn(job: &Job, table: &mut [u32], w: usize, claim: usize) -> Kind
    requires in_range { InRange (job_of job.now) table.old × (w < workers_of job.now) × NewestKept (job_of job.now) table.old }
    requires awaits { claim + 1 ≡ awaited_of (job_of job.now) table.old w }
    ensures { (kept : Kept) (place members : List ℕ) → Keeps (job_of job.now) table.old kept place members → Done (job_of job.now) (turn (job_of job.now) table.old w) result kept table.new place members }
{
    let claims = job.claim_count();
    if words::is_complete(words::mark_at(table, claim)) {
        stores::set_awaited(table, claims, w, 0);
        return Kind::Woke;
    }
    Kind::Idle
}

// A turn of worker w, with the job's indexes of claims and questions, and the set that was kept from the turn before.
pub fn take_turn(
    job: &Job,
    index: &ClaimIndex,
    asked: &QuestionIndex,
    table: &mut [u32],
    w: usize,
    set: &mut HeldSet<'_, '_>,
) -> Kind
    requires ready { Ready job.now index.now table.old }
    requires listed { Listed (job_of job.now) asked.now }
    requires w_bound { w < workers_of job.now }
    requires keeps { Keeps (job_of job.now) table.old set.old.kept set.old.place.now set.old.members.now }
    ensures done { Done (job_of job.now) (turn (job_of job.now) table.old w) result set.new.kept table.new set.new.place.now set.new.members.now }
    ensures same_room { SameRoom set.old set.new }
{
    let claims = job.claim_count();
    // a word of the table holds a claim + 1, or 0 for none
    if let Some(claim) = words::awaited_at(table, claims, w).checked_sub(1) {
        return wait_turn(job, table, w, claim);
    }
    let Some(n) = words::newest_at(table, claims, w).checked_sub(1) else {
        return asking::ask_turn(job, asked, table, w, set);
    };
    working::work_turn(job, index, table, w, n, set)
}
