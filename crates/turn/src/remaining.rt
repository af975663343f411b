// What is left to pass: whether a claim has passed all its literals, and of the members of a set the newest that hasn't. The contracts cite specs/Ready and
// specs/KeptSet.
ghost use Rattle.std.specs.Prelude.{◌≡◌, ℕ, ◌+◌, ◌≤◌, ◌<◌, T, length};
ghost use Rattle.job.specs.Job.{most_claims, most_workers};
ghost use Rattle.table.specs.Layout.{workers_from};
ghost use Rattle.table.specs.Newest.{NewestOf};
ghost use Rattle.turn.specs.Ready.{passed_in};
ghost use Rattle.turn.specs.KeptSet.{Member, free, word_of, FoundBy, Places, OwnsAll};

use crate::HeldSet;
use job::{ClaimIndex, Cursor};
use table::newest::newer;
use table::words;

// Whether claim c has passed all its literals.
pub fn passed_all(index: &ClaimIndex, table: &[u32], c: usize) -> bool
    requires { (c < most_claims) × (workers_from (c + 1) ≤ length table.now) }
    ensures { result ≡ passed_in index.now table.now c }
{
    Cursor::over(index, c, words::cursor_at(table, c)).at_end()
}

// Whether claim c is w's and has a literal left.
fn left_to_pass(index: &ClaimIndex, table: &[u32], w: usize, c: usize) -> bool
    requires { (c < most_claims) × (workers_from (c + 1) ≤ length table.now) × (w < most_workers) }
    ensures { result ≡ free index.now table.now w c }
{
    words::mark_at(table, c) == w + 1 && !passed_all(index, table, c)
}

// The newest of the members that is w's and has a literal left.
fn newest_left(index: &ClaimIndex, table: &[u32], members: &[u16], w: usize) -> Option<usize>
    requires { Places table.now members.now (length members.now) × (w < most_workers) }
    ensures { NewestOf table.now (λ (d : ℕ). Member members.now (length members.now) d × T (free index.now table.now w d)) (word_of result) }
{
    // as a table's words have it: the newest so far + 1, or 0
    let mut best: usize = 0;
    for &member in members {
        let c = usize::from(member);
        if left_to_pass(index, table, w, c) {
            best = newer(table, c, best);
        }
    }
    best.checked_sub(1)
}

// The same, where the claim that was found last is it still: it is while it is w's and has a literal left.
pub fn chosen(index: &ClaimIndex, table: &[u32], set: &HeldSet<'_, '_>, w: usize) -> Option<usize>
    requires { Places table.now set.now.members.now set.now.kept.count × (w < most_workers) × FoundBy index.now table.now set.now.kept set.now.members.now }
    ensures { NewestOf table.now (λ (d : ℕ). Member set.now.members.now set.now.kept.count d × T (free index.now table.now w d)) (word_of result) }
{
    if let Some(last) = set.kept.chosen {
        if last.worker == w && left_to_pass(index, table, w, last.claim) {
            return Some(last.claim);
        }
    }
    newest_left(index, table, &set.members[..set.kept.count], w)
}

// Whether the members are all w's.
pub fn all_owned(table: &[u32], members: &[u16], w: usize) -> bool
    requires { Places table.now members.now (length members.now) × (w < most_workers) }
    ensures { OwnsAll table.now w members.now (length members.now) result }
{
    members.iter().all(|&member| words::mark_at(table, usize::from(member)) == w + 1)
}
