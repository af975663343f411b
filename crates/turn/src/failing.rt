// Literals that stand behind a complete false one of their rule (02, order 5). The contracts cite specs/Gather and `clear` of specs/Turn.
ghost use Rattle.std.specs.Prelude.{◌≡◌, not, ◌≤◌, ◌<◌, length};
ghost use Rattle.job.specs.Job.{claim_of, most_literals};
ghost use Rattle.job.specs.Format.{claims as claims_of, job_of};
ghost use Rattle.table.specs.Layout.{mark_word};
ghost use Rattle.turn.specs.Turn.{lits, clear};
ghost use Rattle.turn.specs.Ready.{Ready};
ghost use Rattle.turn.specs.Gather.{onward};

use job::{ClaimIndex, Cursor, Job, Literal, claims, format};
use table::literals;

// The cursor past this literal, its current one, or past its rule where the literal is complete and false: what stands behind leads nowhere.
pub fn moved_on(index: &ClaimIndex, table: &[u32], literal: Literal, cursor: Cursor) -> Cursor
    requires { (mark_word (claim_of literal) < length table.now) × (cursor.at < cursor.end) × (cursor.end ≤ most_literals) }
    ensures { result ≡ onward index.now table.now literal cursor }
{
    if literals::failed(table, literal) {
        return cursor.past_rule(index);
    }
    cursor.advanced()
}

// Whether an earlier literal of the rule of claim c's next literal is complete and false. It looks back from the next literal to where its
// rule starts, and no further.
pub fn rule_failed(job: &Job, index: &ClaimIndex, table: &[u32], c: usize, passed: usize) -> bool
    requires ready { Ready job.now index.now table.now }
    requires within { (c < claims_of job.now) × (passed < length (lits (job_of job.now) c)) }
    ensures { result ≡ not (clear (job_of job.now) table.now c passed) }
{
    let start = Cursor::over(index, c, 0).at;
    for at in (start..start + passed).rev() {
        if claims::bounded(index, at + 1) {
            return false;
        }
        if literals::failed(table, job.literal_at(at)) {
            return true;
        }
    }
    false
}
