// The fourth bullet of a turn: a claim passes its next literal, or skips the rest of a rule that has failed. The contracts cite `pass_turn` of specs/Turn, and
// specs/KeptSet.
ghost use Rattle.std.specs.Prelude.{◌≡◌, true, not, ℕ, ◌+◌, ◌-◌, ◌≤◌, ◌<◌, length, get_or, set};
ghost use Rattle.base.specs.Lists.{keep};
ghost use Rattle.job.specs.Job.{most_claims, claim_of};
ghost use Rattle.job.specs.Format.{claims, workers, rules, literals, literal_at, job_of};
ghost use Rattle.table.specs.Layout.{cursor_word, cursor, fresh, owned};
ghost use Rattle.table.specs.Newest.{with_newest};
ghost use Rattle.turn.specs.Turn.{lits, clear, reached, mark_all, keeping, pass_turn};
ghost use Rattle.turn.specs.Ready.{Ready};
ghost use Rattle.turn.specs.KeptSet.{SameRoom, Keeps, Done};

use crate::{HeldSet, Kind, failing, marks, owners};
use job::{ClaimIndex, Cursor, Job, format};
use table::{newest, stores, words};

// The claim of the cursor's current literal.
fn next_claim(job: &Job, cursor: Cursor) -> usize
    requires { cursor.at < literals job.now }
    ensures { (result ≡ claim_of (literal_at job.now (rules job.now) cursor.at)) × (result < claims job.now) }
{
    format::claim_of(job.current(cursor))
}

// Claim c has passed as many literals as the cursor over them.
fn move_to(index: &ClaimIndex, table: &mut [u32], c: usize, cursor: Cursor)
    requires c_lt_most_claims { (c < most_claims) × (cursor_word c < length table.old) }
    requires c_bound { (get_or index.now c 0 ≤ cursor.at) × (cursor.at < 4294967296) }
    ensures { table.new ≡ set table.old (cursor_word c) (cursor.at - get_or index.now c 0) }
{
    stores::set_cursor(table, c, cursor.passed(index, c));
}

// Every open claim reached from c becomes w's, and one search serves the newest claims of all workers.
fn take_over(
    job: &Job,
    index: &ClaimIndex,
    table: &mut [u32],
    w: usize,
    c: usize,
    set: &mut HeldSet<'_, '_>,
)
    requires ready { Ready job.now index.now table.old }
    requires within { (c < claims job.now) × (w < workers job.now) × (owned table.old w c ≡ true) }
    requires keeps { Keeps (job_of job.now) table.old set.old.kept set.old.place.now set.old.members.now }
    ensures taken { table.new ≡ with_newest (claims job.now) (workers job.now) (mark_all (λ (d : ℕ). w + 1) (keep (λ (d : ℕ). not (fresh table.old d)) (reached (job_of job.now) table.old c)) table.old) }
    ensures keeps { Keeps (job_of job.now) table.new set.new.kept set.new.place.now set.new.members.now }
    ensures same_room { SameRoom set.old set.new }
{
    set.reach(job, index, table, c);
    set.take(table, w);
    newest::keep_newest(table, job.claim_count(), job.worker_count());
    set.kept.chosen = None;
}

// Claim c, which is w's and has a literal left, passes it: no earlier literal of its rule is complete and false.
fn pass_clear(
    job: &Job,
    index: &ClaimIndex,
    table: &mut [u32],
    w: usize,
    c: usize,
    set: &mut HeldSet<'_, '_>,
) -> Kind
    requires ready { Ready job.now index.now table.old }
    requires c_bound { (c < claims job.now) × (w < workers job.now) }
    requires c_value { (owned table.old w c ≡ true) × (cursor table.old c < length (lits (job_of job.now) c)) }
    requires c_value_2 { clear (job_of job.now) table.old c (cursor table.old c) ≡ true }
    requires keeps { Keeps (job_of job.now) table.old set.old.kept set.old.place.now set.old.members.now }
    ensures done { Done (job_of job.now) (keeping (job_of job.now) (pass_turn (job_of job.now) table.old w c)) result set.new.kept table.new set.new.place.now set.new.members.now }
    ensures same_room { SameRoom set.old set.new }
{
    let cursor = Cursor::over(index, c, words::cursor_at(table, c));
    let b = next_claim(job, cursor);
    let mark = words::mark_at(table, b);
    move_to(index, table, c, cursor.advanced());
    if words::is_complete(mark) {
        return Kind::Passed;
    }
    set.extend(job, index, table, c, b);
    if mark == w + 1 {
        return Kind::Passed;
    }
    let claims = job.claim_count();
    if mark == 0 {
        marks::open_newest(table, claims, w, b);
        set.kept.chosen = None;
        return Kind::Opened;
    }
    if owners::meets_worker(job, table, w, mark - 1) {
        take_over(job, index, table, w, c, set);
        return Kind::Took;
    }
    stores::set_awaited(table, claims, w, b + 1);
    Kind::Waits
}

// Claim c, which is w's and has a literal left, passes it, or skips the rest of its rule.
pub fn pass_turn(
    job: &Job,
    index: &ClaimIndex,
    table: &mut [u32],
    w: usize,
    c: usize,
    set: &mut HeldSet<'_, '_>,
) -> Kind
    requires ready { Ready job.now index.now table.old }
    requires c_bound { (c < claims job.now) × (w < workers job.now) }
    requires c_value { (owned table.old w c ≡ true) × (cursor table.old c < length (lits (job_of job.now) c)) }
    requires keeps { Keeps (job_of job.now) table.old set.old.kept set.old.place.now set.old.members.now }
    ensures done { Done (job_of job.now) (keeping (job_of job.now) (pass_turn (job_of job.now) table.old w c)) result set.new.kept table.new set.new.place.now set.new.members.now }
    ensures same_room { SameRoom set.old set.new }
{
    let passed = words::cursor_at(table, c);
    if failing::rule_failed(job, index, table, c, passed) {
        let cursor = Cursor::over(index, c, passed);
        move_to(index, table, c, cursor.past_rule(index));
        return Kind::Passed;
    }
    pass_clear(job, index, table, w, c, set)
}
