// The numbers so far, and with one more set. The contracts cite specs/Meeting.
ghost use Rattle.std.specs.Prelude.{◌≡◌, ◌<◌, ◌≤◌};
ghost use Rattle.semantics.specs.Model.{byte_of};
ghost use Rattle.rulesets.specs.Sets.{set_count, set_no};
ghost use Rattle.rulesets.specs.Census.{first_verdict, turns_for};
ghost use Rattle.counting.specs.Meeting.{met as met_by, tallied as tallied_by};
ghost use Rattle.counting.specs.Verdicts.{meant};

use crate::needed::{self, Verdict};
use crate::write;
use job::Job;
use rulesets::Counts;

// The numbers with one more set that gives claim 0 this verdict.
#[tactic(auto, unfolding(crate::specs::Meeting::tallied, base::specs::Choose::pick))]
fn tallied(counts: Counts, verdict: Verdict) -> Counts
    requires { (counts.trues < 21952) × (counts.falses < 21952) × (counts.undefineds < 21952) }
    ensures { result ≡ tallied_by counts (byte_of (meant verdict)) }
{
    match verdict {
        Verdict::True => Counts {
            trues: counts.trues + 1,
            ..counts
        },
        Verdict::False => Counts {
            falses: counts.falses + 1,
            ..counts
        },
        Verdict::Undefined => Counts {
            undefineds: counts.undefineds + 1,
            ..counts
        },
    }
}

// The numbers with one more set, at place k: claim 0's verdict in it, and the turns that it needs.
#[tactic(auto, using(base::proofs::Choose::pick_true), unfolding(crate::specs::Meeting::tallied, crate::specs::Meeting::met, rulesets::specs::Census::better, base::specs::Compare::under, base::specs::Choose::pick))]
fn met(counts: Counts, k: usize, verdict: Verdict, turns: u64) -> Counts
    requires { (counts.trues ≤ k) × (counts.falses ≤ k) × (counts.undefineds ≤ k) × (k < 21952) }
    ensures { result ≡ met_by counts k (byte_of (meant verdict)) turns }
{
    let next = tallied(counts, verdict);
    if next.turns < turns {
        return Counts {
            place: k as u64,
            turns,
            ..next
        };
    }
    next
}

// The numbers with set k.
pub fn met_set(counts: Counts, size: usize, k: usize) -> Counts
    requires { (1 ≤ size) × (size ≤ 3) × (k < set_count size) × (counts.trues ≤ k) × (counts.falses ≤ k) × (counts.undefineds ≤ k) }
    ensures { result ≡ met_by counts k (byte_of (first_verdict (set_no size k))) (turns_for (set_no size k)) }
{
    let mut bytes = [0u8; write::MOST_JOB];
    let n = write::put_set(&mut bytes, size, k);
    let job = Job::of_accepted(&bytes[..n]);
    let verdict = needed::first_verdict(&job);
    let turns = needed::turns_needed(&job);
    met(counts, k, verdict, turns)
}
