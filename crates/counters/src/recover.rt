// What becomes of the doubted claims: those that a rule still holds up come back into U, the others are lost. The contracts cite specs/Doubts.
ghost use Rattle.std.specs.Prelude.{◌≡◌, true, false, ℕ, ◌+◌, ◌*◌, ◌<◌, ◌≤◌, T, length};
ghost use Rattle.job.specs.Format.{claims, rules};
ghost use Rattle.counters.specs.Positions.{keys, Ends};
ghost use Rattle.counters.specs.Queues.{seen, Queue, SameRoom};
ghost use Rattle.counters.specs.Counters.{Idle};
ghost use Rattle.counters.specs.Doubts.{Doubted, Lost, Recovered};

use crate::derive;
use crate::key_queue::KeyQueue;
use job::Job;

// Whether one of the rules of claim c counts nothing.
fn standing(job: &Job, tail: &[u16], fail: &[u16], c: usize) -> bool
    requires ends { Ends job.now tail.now }
    requires claim { (c < claims job.now) × (rules job.now ≤ length fail.now) }
    ensures { ((result ≡ true → Idle job.now fail.now c)) × ((result ≡ false → Idle job.now fail.now c → ⊥)) }
{
    prove!(c < job.claim_count());
    let end = usize::from(tail[c]);
    for r in (0..end).rev() {
        if job.head_at(r) != c {
            return false;
        }
        if fail[r] == 0 {
            return true;
        }
    }
    false
}

// Doubted claims that a rule holds up join u and a new queue: those of the list from one place on.
pub fn recover(
    job: &Job,
    tail: &[u16],
    fail: &[u16],
    list: &KeyQueue<'_>,
    from: usize,
    u: &mut [u8],
    queue: &mut KeyQueue<'_>,
)
    requires ends { Ends job.now tail.now }
    requires doubted { (rules job.now ≤ length fail.now) × (Doubted (claims job.now) list.now.keys.now from list.now.len) }
    requires sizes { (length u.old ≡ claims job.now) × (keys job.now ≤ length queue.old.keys.now) }
    ensures recovered { Recovered job.now fail.now list.now.keys.now list.now.len u.old queue.old.keys.now u.new queue.new.keys.now queue.new.len }
    ensures same_room { SameRoom queue.old queue.new }
{
    queue.len = 0;
    for &key in &list.keys[from..list.len] {
        let c = usize::from(key) / 2;
        if standing(job, tail, fail, c) {
            derive::join(u, queue, c);
        }
    }
}

// The negations of the doubted claims that are still outside u, onto the queue after those that it has.
pub fn lose(u: &[u8], list: &KeyQueue<'_>, from: usize, queue: &mut KeyQueue<'_>)
    requires doubted { (Doubted (length u.now) list.now.keys.now from list.now.len) × (Queue (2 * length u.now) queue.old.keys.now queue.old.len) × (length u.now ≤ 32768) }
    requires no_negated { (c : ℕ) → seen queue.old.keys.now queue.old.len (2 * c + 1) ≡ false }
    ensures lost { Lost u.now list.now.keys.now list.now.len queue.old.keys.now queue.old.len queue.new.keys.now queue.new.len }
    ensures same_room { SameRoom queue.old queue.new }
{
    for &key in &list.keys[from..list.len] {
        if u[usize::from(key) / 2] == 0 {
            queue.push(key + 1);
        }
    }
}

// The list is of all claims.
pub fn list_all(claims: usize, list: &mut KeyQueue<'_>)
    requires { (claims ≤ 32768) × (2 * claims ≤ length list.old.keys.now) }
    ensures listed { (list.new.len ≡ claims) × (Doubted claims list.new.keys.now 0 claims) × ((c : ℕ) → c < claims → T (seen list.new.keys.now claims (2 * c))) }
    ensures same_room { SameRoom list.old list.new }
{
    list.len = 0;
    for c in 0..claims {
        list.push((2 * c) as u16);
    }
}
