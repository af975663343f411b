// The alternating fixpoint: from round to round K rises and U shrinks, and the counters of their rules are carried along. The contracts
// cite specs/Rounds.
ghost use Rattle.std.specs.Prelude.{◌≡◌, ℕ, ◌≤◌, length, List};
ghost use Rattle.base.specs.Sets.{Claims, nothing, set_of};
ghost use Rattle.job.specs.Format.{job_of};
ghost use Rattle.semantics.specs.Model.{program_of, K, U};
ghost use Rattle.counters.specs.Positions.{keys, Ends};
ghost use Rattle.counters.specs.Queues.{SameRoom};
ghost use Rattle.model.specs.Rounds.{Upper, Poised, Risen, Fell, Regained, Shrunk, BlankU, BlankK};

use counters::key_queue::KeyQueue;
use counters::tables::Tables;
use counters::{derive, doubt, recover};

// Doubted claims that a rule holds up come back, and those that they hold up: u is D(K) again.
fn regain(
    tables: &Tables<'_>,
    tail: &[u16],
    fail: &mut [u16],
    u: &mut [u8],
    queue: &mut KeyQueue<'_>,
    list: &KeyQueue<'_>,
    from: usize,
)
    requires ends { Ends tables.now.job.now tail.now }
    requires room { keys tables.now.job.now ≤ length queue.old.keys.now }
    requires fell { (K : Claims) × Fell tables.now.job.now K fail.old u.old list.now.keys.now from list.now.len }
    ensures regained { Regained tables.now.job.now fail.old u.old list.now.keys.now from list.now.len fail.new u.new }
    ensures room { keys tables.now.job.now ≤ length queue.new.keys.now }
    ensures same_room { SameRoom queue.old queue.new }
{
    recover::recover(tables.job, tail, fail, list, from, u, queue);
    derive::rise(tables, fail, u, queue);
}

// U shrinks to D(K), where the queue has what K has besides the one that U is D of. Then the queue has the negations of the claims that
// U has lost.
fn shrink(
    tables: &Tables<'_>,
    tail: &[u16],
    k: &[u8],
    fail: &mut [u16],
    u: &mut [u8],
    queue: &mut KeyQueue<'_>,
    list: &mut KeyQueue<'_>,
)
    requires ends { Ends tables.now.job.now tail.now }
    requires room { keys tables.now.job.now ≤ length list.old.keys.now }
    requires risen { (K₀ : Claims) × Risen tables.now.job.now K₀ fail.old k.now u.old queue.old.keys.now queue.old.len }
    ensures shrunk { (K₀ : Claims) → Risen tables.now.job.now K₀ fail.old k.now u.old queue.old.keys.now queue.old.len → Shrunk tables.now.job.now k.now u.old fail.new u.new queue.new.keys.now queue.new.len }
    ensures room { keys tables.now.job.now ≤ length list.new.keys.now }
    ensures same_queue { SameRoom queue.old queue.new }
    ensures same_list { SameRoom list.old list.new }
{
    doubt::negate(queue, list);
    let from = list.len;
    doubt::sink(tables, k, fail, u, list);
    regain(tables, tail, fail, u, queue, list, from);
    queue.len = 0;
    recover::lose(u, list, from, queue);
}

// U = D of nothing, from empty sets.
fn first_u(tables: &Tables<'_>, fail: &mut [u16], u: &mut [u8], queue: &mut KeyQueue<'_>)
    requires blank_u { BlankU tables.now.job.now fail.old u.old queue.old.keys.now }
    ensures upper { Upper tables.now.job.now nothing fail.new u.new }
    ensures room { keys tables.now.job.now ≤ length queue.new.keys.now }
    ensures same_room { SameRoom queue.old queue.new }
{
    derive::begin(tables.job, fail, u, queue);
    derive::rise(tables, fail, u, queue);
}

// K before its first D, where U is D of nothing.
fn first_k(
    tables: &Tables<'_>,
    need: &[u16],
    k: &mut [u8],
    u: &[u8],
    queue: &mut KeyQueue<'_>,
    list: &mut KeyQueue<'_>,
)
    requires blank_k { BlankK tables.now.job.now need.now k.old u.now queue.old.keys.now list.old.keys.now }
    ensures poised { (fail : List ℕ) → Upper tables.now.job.now nothing fail u.now → Poised tables.now.job.now nothing need.now fail k.new u.now queue.new.keys.now queue.new.len }
    ensures room { keys tables.now.job.now ≤ length list.new.keys.now }
    ensures same_queue { SameRoom queue.old queue.new }
    ensures same_list { SameRoom list.old list.new }
{
    derive::begin(tables.job, need, k, queue);
    recover::list_all(u.len(), list);
    recover::lose(u, list, 0, queue);
}

// K in k and U in u, from empty sets and counters at the start.
pub fn alternate(
    tables: &Tables<'_>,
    tail: &[u16],
    need: &mut [u16],
    fail: &mut [u16],
    k: &mut [u8],
    u: &mut [u8],
    queue: &mut KeyQueue<'_>,
    list: &mut KeyQueue<'_>,
)
    requires ends { Ends tables.now.job.now tail.now }
    requires blank { (BlankU tables.now.job.now fail.old u.old queue.old.keys.now) × (BlankK tables.now.job.now need.old k.old u.old queue.old.keys.now list.old.keys.now) }
    ensures k_after { set_of k.new ≡ K (program_of (job_of tables.now.job.now)) }
    ensures u_after { set_of u.new ≡ U (program_of (job_of tables.now.job.now)) }
    ensures same_queue { SameRoom queue.old queue.new }
    ensures same_list { SameRoom list.old list.new }
{
    first_u(tables, fail, u, queue);
    first_k(tables, need, k, u, queue, list);
    loop {
        derive::rise(tables, need, k, queue);
        shrink(tables, tail, k, fail, u, queue, list);
        if queue.len == 0 {
            return;
        }
    }
}
