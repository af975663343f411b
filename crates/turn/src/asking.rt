// The turn of a worker that owns nothing open: its next question. The contracts cite `ask_turn` of specs/Turn.
ghost use Rattle.std.specs.Prelude.{◌≡◌, ◌<◌, length, get_or};
ghost use Rattle.job.specs.Format.{workers as workers_of, job_of};
ghost use Rattle.table.specs.Layout.{answered as answered_of};
ghost use Rattle.table.specs.Questions.{asked_by, Listed};
ghost use Rattle.table.specs.Ranges.{InRange};
ghost use Rattle.table.specs.Newest.{NewestKept};
ghost use Rattle.turn.specs.Turn.{keeping, ask_turn};
ghost use Rattle.turn.specs.KeptSet.{SameRoom, Keeps, Done};

use crate::{HeldSet, Kind, marks};
use job::Job;
use table::{QuestionIndex, questions, stores, words};

// Worker w puts its question n, which stands at position k.
fn ask(
    job: &Job,
    table: &mut [u32],
    w: usize,
    n: usize,
    k: usize,
    set: &mut HeldSet<'_, '_>,
) -> Kind
    requires in_range { InRange (job_of job.now) table.old × (w < workers_of job.now) × NewestKept (job_of job.now) table.old }
    requires n_value { (n ≡ answered_of (job_of job.now) table.old w) × (n < length (asked_by (job_of job.now) w)) × (k ≡ get_or (asked_by (job_of job.now) w) n 0) }
    requires keeps { Keeps (job_of job.now) table.old set.old.kept set.old.place.now set.old.members.now }
    ensures done { Done (job_of job.now) (keeping (job_of job.now) (ask_turn (job_of job.now) table.old w)) result set.new.kept table.new set.new.place.now set.new.members.now }
    ensures same_room { SameRoom set.old set.new }
{
    let claims = job.claim_count();
    let question = job.question_at(k);
    let claim = question.claim;
    let mark = words::mark_at(table, claim);
    if words::is_complete(mark) {
        let workers = job.worker_count();
        stores::set_answer(table, claims, workers, k, words::value_of(mark));
        stores::set_answered(table, claims, w, n + 1);
        return Kind::Answered;
    }
    if mark == 0 {
        marks::open_newest(table, claims, w, claim);
        set.kept.chosen = None;
        return Kind::Opened;
    }
    stores::set_awaited(table, claims, w, claim + 1);
    Kind::Waits
}

// The turn of worker w, which awaits nothing and owns nothing open.
pub fn ask_turn(
    job: &Job,
    asked: &QuestionIndex,
    table: &mut [u32],
    w: usize,
    set: &mut HeldSet<'_, '_>,
) -> Kind
    requires listed { Listed (job_of job.now) asked.now }
    requires in_range { InRange (job_of job.now) table.old × (w < workers_of job.now) × NewestKept (job_of job.now) table.old }
    requires keeps { Keeps (job_of job.now) table.old set.old.kept set.old.place.now set.old.members.now }
    ensures done { Done (job_of job.now) (keeping (job_of job.now) (ask_turn (job_of job.now) table.old w)) result set.new.kept table.new set.new.place.now set.new.members.now }
    ensures same_room { SameRoom set.old set.new }
{
    let claims = job.claim_count();
    let n = words::answered_at(table, claims, w);
    if questions::asked_count(asked, w) <= n {
        return Kind::Idle;
    }
    ask(job, table, w, n, questions::asked_at(asked, w, n), set)
}
