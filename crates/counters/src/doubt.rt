// U shrinks where K has grown: a claim of U is doubted if a rule held it up which fails now, and if it is not in K. A doubted claim is
// outside U until it is found again (recover.rt). The contracts cite specs/Doubts.
ghost use Rattle.std.specs.Prelude.{◌≡◌, false, ◌+◌, ◌*◌, ◌<◌, ◌≤◌, length, get_or};
ghost use Rattle.base.specs.Sets.{set_of};
ghost use Rattle.job.specs.Format.{claims, rules, literals, head_at};
ghost use Rattle.counters.specs.Positions.{owners};
ghost use Rattle.counters.specs.Queues.{SameRoom};
ghost use Rattle.counters.specs.Doubts.{stays, Left, Owed, Falling, Sunk, Negations};

use crate::key_queue::KeyQueue;
use crate::tables::Tables;
use job::Job;

// Claim c leaves u for the list, unless it is outside u or in k.
#[tactic(auto, unfolding(base::specs::Sets::set_of, crate::specs::Doubts::stays))]
fn leave(k: &[u8], u: &mut [u8], list: &mut KeyQueue<'_>, c: usize)
    requires claim { (c < length k.now) × (c < length u.old) × (c < 32768) }
    requires room { stays k.now u.old c ≡ false → list.old.len < length list.old.keys.now }
    ensures left_u { Left k.now c u.old list.old.keys.now list.old.len u.new list.new.keys.now list.new.len }
    ensures same_room { SameRoom list.old list.new }
{
    if u[c] != 0 && k[c] == 0 {
        u[c] = 0;
        list.push((2 * c) as u16);
    }
}

// A position of rule r fails, since its literal does: the rule counts one more, and its head is doubted if it counted none.
fn owe(job: &Job, k: &[u8], fail: &mut [u16], u: &mut [u8], list: &mut KeyQueue<'_>, r: usize)
    requires rule { (r < rules job.now) × (length k.now ≡ claims job.now) × (length u.old ≡ claims job.now) × (rules job.now ≤ length fail.old) × (get_or fail.old r 0 < 65535) }
    requires room { stays k.now u.old (head_at job.now r) ≡ false → list.old.len < length list.old.keys.now }
    ensures owed { Owed job.now k.now fail.old u.old list.old.keys.now r list.old.len fail.new u.new list.new.keys.now list.new.len }
    ensures same_room { SameRoom list.old list.new }
{
    let x = fail[r];
    fail[r] = x + 1;
    if x == 0 {
        leave(k, u, list, job.head_at(r));
    }
}

// The key at place i of the list fails: all positions that have it do.
fn fall(
    tables: &Tables<'_>,
    k: &[u8],
    fail: &mut [u16],
    u: &mut [u8],
    list: &mut KeyQueue<'_>,
    i: usize,
)
    requires taken { (length k.now ≡ claims tables.now.job.now) × (i < list.old.len) }
    requires falling { Falling tables.now.job.now (set_of k.now) (owners tables.now.job.now) fail.old u.old list.old.keys.now i (literals tables.now.job.now) list.old.len }
    ensures sunk { (i < list.new.len) × (Sunk tables.now.job.now k.now (owners tables.now.job.now) fail.old u.old list.old.keys.now list.old.len fail.new u.new list.new.keys.now (i + 1) (literals tables.now.job.now) list.new.len) }
    ensures same_room { SameRoom list.old list.new }
{
    let key = usize::from(list.keys[i]);
    for &rule in tables.rules_of(key) {
        owe(tables.job, k, fail, u, list, usize::from(rule));
    }
}

// All keys of the list fail, and those of the claims that are doubted by that.
pub fn sink(tables: &Tables<'_>, k: &[u8], fail: &mut [u16], u: &mut [u8], list: &mut KeyQueue<'_>)
    requires size { length k.now ≡ claims tables.now.job.now }
    requires falling { Falling tables.now.job.now (set_of k.now) (owners tables.now.job.now) fail.old u.old list.old.keys.now 0 (literals tables.now.job.now) list.old.len }
    ensures sunk { Sunk tables.now.job.now k.now (owners tables.now.job.now) fail.old u.old list.old.keys.now list.old.len fail.new u.new list.new.keys.now list.new.len (literals tables.now.job.now) list.new.len }
    ensures same_room { SameRoom list.old list.new }
{
    let mut i = 0;
    while i < list.len {
        fall(tables, k, fail, u, list, i);
        i += 1;
    }
}

// The negations of the claims on the queue, now the list: they fail from now on.
pub fn negate(queue: &KeyQueue<'_>, list: &mut KeyQueue<'_>)
    requires { (queue.now.len ≤ length queue.now.keys.now) × (queue.now.len ≤ length list.old.keys.now) }
    ensures negations { Negations queue.now.keys.now queue.now.len list.new.keys.now list.new.len }
    ensures room { length list.new.keys.now ≡ length list.old.keys.now }
    ensures same_room { SameRoom list.old list.new }
{
    list.len = 0;
    for &key in &queue.keys[..queue.len] {
        if key % 2 == 0 {
            list.push(key + 1);
        }
    }
}
