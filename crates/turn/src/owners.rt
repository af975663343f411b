// Following the owners of awaited claims. The contract cites `meets` of specs/Turn.
ghost use Rattle.std.specs.Prelude.{◌≡◌, ◌<◌};
ghost use Rattle.job.specs.Format.{workers as workers_of, job_of};
ghost use Rattle.table.specs.Ranges.{InRange};
ghost use Rattle.turn.specs.Turn.{meets};

use job::Job;
use table::words;

// Whether worker w is met from worker v, going from a worker to the owner of the claim it awaits, open ones only, at most T moves.
pub fn meets_worker(job: &Job, table: &[u32], w: usize, v: usize) -> bool
    requires { InRange (job_of job.now) table.now × (v < workers_of job.now) }
    ensures { result ≡ meets (workers_of job.now) (job_of job.now) table.now w v }
{
    let claims = job.claim_count();
    let workers = job.worker_count();
    let mut at = v;
    for _ in 0..workers {
        if at == w {
            return true;
        }
        let awaited = words::awaited_at(table, claims, at);
        if awaited == 0 {
            return false;
        }
        let mark = words::mark_at(table, awaited - 1);
        if mark == 0 {
            return false;
        }
        if words::is_complete(mark) {
            return false;
        }
        at = mark - 1;
    }
    at == w
}
