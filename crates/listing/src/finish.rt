// The turns after the schedule: workers 0 to T - 1 over and over, none once all is answered.
// The contracts cite specs/Finish, and `run_table`, `run_kinds` and `counted` of the turns' specs.
ghost use Rattle.std.specs.Prelude.{◌≡◌, ℕ, ◌<◌, get_or};
ghost use Rattle.base.specs.Number.{Number};
ghost use Rattle.job.specs.Format.{workers as workers_of, job_of};
ghost use Rattle.table.specs.Questions.{Listed};
ghost use Rattle.table.specs.Ranges.{InRange};
ghost use Rattle.turn.specs.Turn.{run_table, run_kinds};
ghost use Rattle.calls.specs.Calls.{counted as counted_of};
ghost use Rattle.turn.specs.Ready.{Ready};
ghost use Rattle.turn.specs.KeptSet.{SameRoom, Keeps};
ghost use Rattle.listing.specs.Finish.{answered_all, next_worker, finish_turns, most};

use calls::tally;
use job::checks::MOST_CLAIMS;
use job::{ClaimIndex, Job};
use table::{QuestionIndex, questions, words};
use turn::HeldSet;

// Whether each worker has answered all its questions.
fn all_answered(job: &Job, asked: &QuestionIndex, table: &[u32]) -> bool
    requires in_range { InRange (job_of job.now) table.now }
    requires listed { Listed (job_of job.now) asked.now }
    ensures { result ≡ answered_all (job_of job.now) table.now }
{
    let claims = job.claim_count();
    (0..job.worker_count()).all(|w| questions::asked_count(asked, w)
        <= words::answered_at(table, claims, w))
}

// The worker after w: 0 after the last.
fn next_worker(job: &Job, w: usize) -> usize
    requires w_bound { w < workers_of job.now }
    ensures { (result ≡ next_worker (job_of job.now) w) × (result < workers_of job.now) }
{
    let workers = job.worker_count();
    if w + 1 == workers {
        return 0;
    }
    w + 1
}

// As many turns as 2L + A + 3Q rounds have.
fn most_turns(job: &Job) -> usize
    ensures { Number result (most (job_of job.now)) 4294967296 }
{
    let rounds = 2 * job.literal_count() + job.claim_count() + 3 * job.question_count();
    rounds * job.worker_count()
}

// The turns that answer what is left, counted onto the tally, with room for what is kept from turn to turn.
fn finish_in(
    job: &Job,
    index: &ClaimIndex,
    asked: &QuestionIndex,
    table: &mut [u32],
    counts: [u64; 8],
    set: &mut HeldSet<'_, '_>,
) -> [u64; 8]
    requires ready { Ready job.now index.now table.old }
    requires listed { Listed (job_of job.now) asked.now }
    requires small { (k : ℕ) → get_or counts k 0 < 4294967296 }
    requires keeps { Keeps (job_of job.now) table.old set.old.kept set.old.place.now set.old.members.now }
    ensures value { result ≡ counted_of counts (run_kinds (job_of job.now) table.old (finish_turns (most (job_of job.now)) (job_of job.now) table.old 0)) }
    ensures table_after { table.new ≡ run_table (job_of job.now) table.old (finish_turns (most (job_of job.now)) (job_of job.now) table.old 0) }
    ensures same_room { SameRoom set.old set.new }
{
    let mut so_far = counts;
    let mut w = 0;
    for _ in 0..most_turns(job) {
        if all_answered(job, asked, table) {
            break;
        }
        let kind = turn::take_turn(job, index, asked, table, w, set);
        let next = tally::counted(so_far, kind);
        so_far = next;
        w = next_worker(job, w);
    }
    so_far
}

// The turns that answer what is left, counted onto the tally.
pub fn finish(
    job: &Job,
    index: &ClaimIndex,
    asked: &QuestionIndex,
    table: &mut [u32],
    counts: [u64; 8],
) -> [u64; 8]
    requires ready { Ready job.now index.now table.old }
    requires listed { Listed (job_of job.now) asked.now }
    requires small { (k : ℕ) → get_or counts k 0 < 4294967296 }
    ensures value { result ≡ counted_of counts (run_kinds (job_of job.now) table.old (finish_turns (most (job_of job.now)) (job_of job.now) table.old 0)) }
    ensures table_after { table.new ≡ run_table (job_of job.now) table.old (finish_turns (most (job_of job.now)) (job_of job.now) table.old 0) }
{
    let claims = job.claim_count();
    let mut place = [0u16; MOST_CLAIMS];
    let mut members = [0u16; MOST_CLAIMS];
    let mut set = HeldSet::new(&mut place[..claims], &mut members[..claims]);
    finish_in(job, index, asked, table, counts, &mut set)
}
