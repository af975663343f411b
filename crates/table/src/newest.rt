// A worker's newest open claim, as a search finds it: highest opening number, then highest claim. The contracts cite specs/Newest.
ghost use Rattle.std.specs.Prelude.{◌≡◌, ◌+◌, ◌≤◌, ◌<◌, length, set};
ghost use Rattle.job.specs.Job.{most_claims, most_workers};
ghost use Rattle.table.specs.Layout.{workers_from, newest_at, answers_from};
ghost use Rattle.table.specs.Newest.{is_newer, newer as newer_of, sought, Searched, with_newest};

use crate::{stores, words};
use job::checks::MOST_WORKERS;

// Whether claim c is newer than claim d.
fn is_newer(table: &[u32], c: usize, d: usize) -> bool
    requires { (c < most_claims) × (workers_from (c + 1) ≤ length table.now) × (d < most_claims) × (workers_from (d + 1) ≤ length table.now) }
    ensures { result ≡ is_newer table.now c d }
{
    (words::number_at(table, d), d) < (words::number_at(table, c), c)
}

// Claim c + 1, or best where that is newer; best is a claim + 1, or 0 for none. No Option: a worker's third word holds it so, and the layout
// of the words is fixed for C.
pub fn newer(table: &[u32], c: usize, best: usize) -> usize
    requires { (c < most_claims) × (workers_from (c + 1) ≤ length table.now) × (best ≤ most_claims) × (workers_from best ≤ length table.now) }
    ensures { result ≡ newer_of table.now c best }
{
    if best == 0 || is_newer(table, c, best - 1) {
        return c + 1;
    }
    best
}

// What a search over the claims finds for worker w: its newest open claim + 1, or 0 where it owns none.
pub fn newest_owned(table: &[u32], claims: usize, w: usize) -> usize
    requires { (claims ≤ most_claims) × (workers_from claims ≤ length table.now) × (w < most_workers) }
    ensures { (result ≡ sought claims table.now w) × (result ≤ claims) }
{
    let mut best: usize = 0;
    for c in (0..claims).rev() {
        if words::mark_at(table, c) == w + 1 {
            best = newer(table, c, best);
        }
    }
    best
}

// The third word of worker w becomes what a search finds.
pub fn seek_newest(table: &mut [u32], claims: usize, w: usize)
    requires { (claims ≤ most_claims) × (newest_at claims w < length table.old) × (w < most_workers) }
    ensures { table.new ≡ set table.old (newest_at claims w) (sought claims table.old w) }
{
    let found = newest_owned(table, claims, w);
    stores::set_newest(table, claims, w, found);
}

// What a search finds for each worker: one pass over the claims.
pub fn newest_claims(table: &[u32], claims: usize) -> [u32; MOST_WORKERS]
    requires { (claims ≤ most_claims) × (workers_from claims ≤ length table.now) }
    ensures { Searched claims table.now result }
{
    let mut found = [0u32; MOST_WORKERS];
    for c in (0..claims).rev() {
        let mark = words::mark_at(table, c);
        if 0 < mark && mark <= MOST_WORKERS {
            let best = newer(table, c, found[mark - 1] as usize);
            found[mark - 1] = best as u32;
        }
    }
    found
}

// The third word of each worker becomes what a search finds.
pub fn keep_newest(table: &mut [u32], claims: usize, workers: usize)
    requires { (claims ≤ most_claims) × (workers ≤ most_workers) × (answers_from claims workers ≤ length table.old) }
    ensures { table.new ≡ with_newest claims workers table.old }
{
    let found = newest_claims(table, claims);
    for w in 0..workers {
        stores::set_newest(table, claims, w, found[w] as usize);
    }
}
