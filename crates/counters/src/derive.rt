// D(S) grows in w by counters: each rule counts the positions of its body whose literal does not hold yet. A key on the queue is taken
// once: the rules of the positions that have it count one less, and where a rule comes to 0, its head joins w and the queue.
// The contracts cite specs/Queues and specs/Counters.
ghost use Rattle.std.specs.Prelude.{◌≡◌, false, ◌+◌, ◌*◌, ◌<◌, ◌≤◌, eqb, length, get_or};
ghost use Rattle.base.specs.Sets.{set_of};
ghost use Rattle.job.specs.Format.{claims, rules, literals, head_at};
ghost use Rattle.counters.specs.Positions.{owners};
ghost use Rattle.counters.specs.Queues.{SameRoom, Joined, JoinedIf};
ghost use Rattle.counters.specs.Counters.{Aim, Growing, Ready, Paid, Raised, Begun};

use crate::key_queue::KeyQueue;
use crate::tables::Tables;
use job::Job;

// Claim c joins w and the queue, unless it is in w.
#[tactic(auto, unfolding(base::specs::Sets::set_of))]
pub fn join(w: &mut [u8], queue: &mut KeyQueue<'_>, c: usize)
    requires claim { (c < length w.old) × (c < 32768) }
    requires room { set_of w.old c ≡ false → queue.old.len < length queue.old.keys.now }
    ensures joined { Joined c w.old queue.old.keys.now queue.old.len w.new queue.new.keys.now queue.new.len }
    ensures same_room { SameRoom queue.old queue.new }
{
    if w[c] == 0 {
        w[c] = 1;
        queue.push((2 * c) as u16);
    }
}

// A position of rule r is done, since its literal holds: the rule counts one less, and at 0 its head joins.
fn pay(job: &Job, count: &mut [u16], w: &mut [u8], queue: &mut KeyQueue<'_>, r: usize)
    requires rule { (r < rules job.now) × (length w.old ≡ claims job.now) × (rules job.now ≤ length count.old) × (1 ≤ get_or count.old r 0) }
    requires room { set_of w.old (head_at job.now r) ≡ false → queue.old.len < length queue.old.keys.now }
    ensures paid { Paid job.now count.old w.old queue.old.keys.now r queue.old.len count.new w.new queue.new.keys.now queue.new.len }
    ensures same_room { SameRoom queue.old queue.new }
{
    let x = count[r];
    count[r] = x - 1;
    if x == 1 {
        join(w, queue, job.head_at(r));
    }
}

// The key at place i of the queue is taken: all positions that have it are done.
fn hold(tables: &Tables<'_>, count: &mut [u16], w: &mut [u8], queue: &mut KeyQueue<'_>, i: usize)
    requires taken { i < queue.old.len }
    requires ready { ((a : Aim) × Growing tables.now.job.now a (owners tables.now.job.now) count.old w.old queue.old.keys.now i (literals tables.now.job.now) queue.old.len) × (Ready tables.now.job.now count.old w.old (rules tables.now.job.now)) }
    ensures raised { (i < queue.new.len) × (Raised tables.now.job.now (owners tables.now.job.now) count.old w.old queue.old.keys.now i queue.old.len count.new w.new queue.new.keys.now (i + 1) (literals tables.now.job.now) queue.new.len) }
    ensures same_room { SameRoom queue.old queue.new }
{
    let key = usize::from(queue.keys[i]);
    for &rule in tables.rules_of(key) {
        pay(tables.job, count, w, queue, usize::from(rule));
    }
}

// All keys of the queue are taken, and those that join by that.
pub fn rise(tables: &Tables<'_>, count: &mut [u16], w: &mut [u8], queue: &mut KeyQueue<'_>)
    requires ready { ((a : Aim) × Growing tables.now.job.now a (owners tables.now.job.now) count.old w.old queue.old.keys.now 0 (literals tables.now.job.now) queue.old.len) × (Ready tables.now.job.now count.old w.old (rules tables.now.job.now)) }
    ensures raised { Raised tables.now.job.now (owners tables.now.job.now) count.old w.old queue.old.keys.now 0 queue.old.len count.new w.new queue.new.keys.now queue.new.len (literals tables.now.job.now) queue.new.len }
    ensures same_room { SameRoom queue.old queue.new }
{
    let mut i = 0;
    while i < queue.len {
        hold(tables, count, w, queue, i);
        i += 1;
    }
}

// The head of rule r joins if the rule counts nothing.
fn fact(job: &Job, count: &[u16], w: &mut [u8], queue: &mut KeyQueue<'_>, r: usize)
    requires rule { (r < rules job.now) × (rules job.now ≤ length count.now) × (length w.old ≡ claims job.now) }
    requires room { set_of w.old (head_at job.now r) ≡ false → queue.old.len < length queue.old.keys.now }
    ensures joined { JoinedIf (eqb (get_or count.now r 0) 0) (head_at job.now r) w.old queue.old.keys.now queue.old.len w.new queue.new.keys.now queue.new.len }
    ensures same_room { SameRoom queue.old queue.new }
{
    if count[r] == 0 {
        join(w, queue, job.head_at(r));
    }
}

// The start of a D: the heads of all rules that count nothing join.
pub fn begin(job: &Job, count: &[u16], w: &mut [u8], queue: &mut KeyQueue<'_>)
    requires sizes { (length w.old ≡ claims job.now) × (2 * claims job.now ≤ length queue.old.keys.now) × (rules job.now ≤ length count.now) }
    ensures begun { Begun job.now count.now w.old queue.old.keys.now w.new queue.new.keys.now queue.new.len }
    ensures same_room { SameRoom queue.old queue.new }
{
    let rules = job.rule_count();
    queue.len = 0;
    for r in 0..rules {
        fact(job, count, w, queue, r);
    }
}
