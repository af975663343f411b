// The marks of claims: opening one, taking and completing the members of a set. The contracts cite specs/Turn and specs/KeptSet.
ghost use Rattle.std.specs.Prelude.{◌≡◌, not, ℕ, ◌+◌, ◌≤◌, ◌<◌, T, length, get_or, set};
ghost use Rattle.job.specs.Job.{most_claims, most_workers};
ghost use Rattle.table.specs.Layout.{workers_from, newest_at, opened, fresh, mark_of_value};
ghost use Rattle.table.specs.Newest.{newer};
ghost use Rattle.turn.specs.Turn.{open_claim};
ghost use Rattle.turn.specs.KeptSet.{Member, Places, Marked};

use table::{newest, stores, words};

// Claim c, fresh before, becomes open to w.
fn open_claim(table: &mut [u32], w: usize, c: usize)
    requires { (c < most_claims) × (workers_from (c + 1) ≤ length table.old) × (w < most_workers) × (opened table.old < most_claims) }
    ensures { table.new ≡ open_claim table.old w c }
{
    let n = words::opened_in(table) + 1;
    stores::set_opened(table, n);
    stores::set_mark(table, c, w + 1);
    stores::set_cursor(table, c, 0);
    stores::set_number(table, c, n);
}

// Claim c, fresh before, becomes open to w, whose newest claim is then the newer of c and the one it had.
pub fn open_newest(table: &mut [u32], claims: usize, w: usize, c: usize)
    requires c_lt_claims { (c < claims) × (claims ≤ most_claims) × (newest_at claims w < length table.old) × (w < most_workers) }
    requires table_bound { (opened table.old < most_claims) × (get_or table.old (newest_at claims w) 0 ≤ claims) }
    ensures { table.new ≡ set (open_claim table.old w c) (newest_at claims w) (newer (open_claim table.old w c) c (get_or table.old (newest_at claims w) 0)) }
{
    let best = words::newest_at(table, claims, w);
    open_claim(table, w, c);
    let found = newest::newer(table, c, best);
    stores::set_newest(table, claims, w, found);
}

// Every member that is not fresh becomes w's.
pub fn take_members(members: &[u16], table: &mut [u32], w: usize)
    requires { Places table.old members.now (length members.now) × (w < most_workers) }
    ensures { Marked (λ (d : ℕ). w + 1) (λ (d : ℕ). Member members.now (length members.now) d × T (not (fresh table.old d))) table.old table.new }
{
    for &member in members {
        let c = usize::from(member);
        if words::mark_at(table, c) != 0 {
            stores::set_mark(table, c, w + 1);
        }
    }
}

// Every member becomes complete, with the value given for it.
pub fn complete_members(members: &[u16], values: &[u8], table: &mut [u32])
    requires { Places table.old members.now (length members.now) × (length values.now ≡ length members.now) }
    ensures { (f : ℕ → ℕ) → ((i : ℕ) → i < length members.now → f (get_or members.now i 0) ≡ mark_of_value (get_or values.now i 0)) → Marked f (Member members.now (length members.now)) table.old table.new }
{
    for (&member, &value) in members.iter().zip(values) {
        let mark = words::mark_of_value(usize::from(value));
        stores::set_mark(table, usize::from(member), mark);
    }
}
