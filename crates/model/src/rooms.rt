// Room for the evaluation, by the size of the job: the arrays are cleared in each call, so a small job takes small ones. The contracts
// cite specs/Output.
ghost use Rattle.std.specs.Prelude.{◌≡◌, true, ◌*◌, ◌<◌, ◌≤◌, length};
ghost use Rattle.job.specs.Accepted.{WellFormed};
ghost use Rattle.job.specs.Format.{claims};
ghost use Rattle.job.specs.Check.{Accepted};
ghost use Rattle.model.specs.Output.{output_of};
ghost use Rattle.model.specs.Rooms.{Within};
ghost use Rattle.model.specs.Rounds.{Unused};

use crate::{alternate, verdicts};
use counters::key_queue::KeyQueue;
use counters::occurrences;
use counters::tables::Tables;
use job::{Job, checks};

// The rooms: at most so many claims, rules and positions (literals), and one more than there are keys.
const TINY_CLAIMS: usize = 16;

const TINY_RULES: usize = 24;

const TINY_POSITIONS: usize = 64;

const TINY_KEYS: usize = 33;

const MIDDLE_CLAIMS: usize = 1024;

const MIDDLE_RULES: usize = 1536;

const MIDDLE_POSITIONS: usize = 4096;

const MIDDLE_KEYS: usize = 2049;

const LARGE_CLAIMS: usize = checks::MOST_CLAIMS;

const LARGE_RULES: usize = checks::MOST_RULES;

const LARGE_POSITIONS: usize = checks::MOST_LITERALS;

const LARGE_KEYS: usize = 8193;

// The evaluation, in tables that nothing was done with yet.
fn evaluate_in(
    job: &Job,
    start: &mut [u16],
    occ: &mut [u16],
    tail: &mut [u16],
    need: &mut [u16],
    fail: &mut [u16],
    k: &mut [u8],
    u: &mut [u8],
    queue_keys: &mut [u16],
    list_keys: &mut [u16],
    out: &mut [u8],
)
    requires unused { Unused job.now start.old occ.old tail.old need.old fail.old k.old u.old queue_keys.old list_keys.old }
    requires room { claims job.now ≤ length out.old }
    ensures { out.new ≡ output_of Accepted job.now out.old }
{
    let claims = job.claim_count();
    prove!(k.len() == claims);
    // Values of its own, which no store into an array can reach: what the loops read of them stays in registers.
    let own = Job::of_accepted(job.bytes());
    let mut queue = KeyQueue {
        keys: queue_keys,
        len: 0,
    };
    let mut list = KeyQueue {
        keys: list_keys,
        len: 0,
    };
    occurrences::prepare(&own, start, occ, tail, need, fail);
    let tables = Tables {
        job: &own,
        start,
        occ,
    };
    alternate::alternate(&tables, tail, need, fail, k, u, &mut queue, &mut list);
    verdicts::write(k, u, out);
}

// The evaluation of a job with at most so many claims, rules and positions, in arrays for so many.
fn evaluate_sized<
    const CLAIMS: usize,
    const RULES: usize,
    const POSITIONS: usize,
    const KEYS: usize,
>(job: &Job, out: &mut [u8])
    requires within { (Within job.now CLAIMS RULES POSITIONS) × (claims job.now ≤ length out.old) }
    requires enough { (CLAIMS ≤ RULES) × (2 * CLAIMS < KEYS) }
    requires small { (RULES < 65536) × (POSITIONS < 65536) × (KEYS < 65536) }
    ensures { out.new ≡ output_of Accepted job.now out.old }
{
    let n = job.claim_count();
    let mut start = [0u16; KEYS];
    let mut occ = [0u16; POSITIONS];
    let mut tail = [0u16; RULES];
    let mut need = [0u16; RULES];
    let mut fail = [0u16; RULES];
    let mut k = [0u8; CLAIMS];
    let mut u = [0u8; CLAIMS];
    let mut queue_keys = [0u16; KEYS];
    let mut list_keys = [0u16; KEYS];
    evaluate_in(
        job,
        &mut start,
        &mut occ,
        &mut tail,
        &mut need,
        &mut fail,
        &mut k[..n],
        &mut u[..n],
        &mut queue_keys,
        &mut list_keys,
        out,
    );
}

// Whether a job has at most so many claims, rules and literals.
fn fits(job: &Job, claims: usize, rules: usize, literals: usize) -> bool
    ensures within { result ≡ true → Within job.now claims rules literals }
    ensures accepted { WellFormed job.now }
{
    job.claim_count() <= claims && job.rule_count() <= rules && job.literal_count() <= literals
}

// The evaluation of a job that is not tiny. It stays a function of its own, with a frame of its own: so a tiny job doesn't touch the
// pages of a large one.
#[inline(never)]
fn evaluate_wide(job: &Job, out: &mut [u8])
    requires room { claims job.now ≤ length out.old }
    ensures { out.new ≡ output_of Accepted job.now out.old }
{
    if fits(job, MIDDLE_CLAIMS, MIDDLE_RULES, MIDDLE_POSITIONS) {
        evaluate_sized::<MIDDLE_CLAIMS, MIDDLE_RULES, MIDDLE_POSITIONS, MIDDLE_KEYS>(job, out);
    } else {
        evaluate_sized::<LARGE_CLAIMS, LARGE_RULES, LARGE_POSITIONS, LARGE_KEYS>(job, out);
    }
}

pub fn evaluate(job: &Job, out: &mut [u8])
    requires room { claims job.now ≤ length out.old }
    ensures { out.new ≡ output_of Accepted job.now out.old }
{
    if fits(job, TINY_CLAIMS, TINY_RULES, TINY_POSITIONS) {
        evaluate_sized::<TINY_CLAIMS, TINY_RULES, TINY_POSITIONS, TINY_KEYS>(job, out);
    } else {
        evaluate_wide(job, out);
    }
}
