// The index of claims, and the cursor over one claim's literals. The contracts cite specs/Claims.
ghost use Rattle.std.specs.Prelude.{◌≡◌, ◌&&◌, ◌+◌, ◌-◌, ◌^◌, ◌<◌, ◌≤◌, leb, length, get_or, replicate};
ghost use Rattle.std.specs.Int.Bits.{bit_or};
ghost use Rattle.base.specs.Compare.{under};
ghost use Rattle.job.specs.Accepted.{WellFormed};
ghost use Rattle.job.specs.Job.{most_claims, most_literals};
ghost use Rattle.job.specs.Format.{rule_byte, literal_byte, head_at, literal_at};
ghost use Rattle.job.specs.Claims.{index_entries, Index, bound_at, end_in, moved, past_rule};

use crate::checks::{MOST_CLAIMS, MOST_LITERALS};
use crate::{ClaimIndex, Cursor, Literal, format};

// The index has a field for each claim and one more, and then a bit for each literal and one more, 16 to a field.
const BOUNDS_AT: usize = MOST_CLAIMS + 1;

pub const INDEX_ENTRIES: usize = BOUNDS_AT + (MOST_LITERALS / 16 + 1);

// Whether there is a rule i and its head is below the claim.
fn head_below(job: &[u8], rules: usize, i: usize, claim: usize) -> bool
    requires { rule_byte rules ≤ length job.now }
    ensures { result ≡ (under i rules && under (head_at job.now i) claim) }
{
    i < rules && format::head_at(job, i) < claim
}

// A field with one more bit set.
fn with_bit(bits: u16, i: usize) -> u16
    requires { i < 16 }
    ensures { result ≡ bit_or bits (2 ^ i) }
{
    bits | (1u16 << i)
}

// The index of claims, into an array of zeros: where each claim's literals start among the job's, past the last claim where they end, and before which
// literals a rule ends. One pass over rules and claims together.
pub fn fill_index(job: &[u8], index: &mut ClaimIndex)
    requires accepted { WellFormed job.now }
    requires zeros { index.old ≡ replicate index_entries 0 }
    ensures { Index job.now index.new }
{
    let claims = format::claim_count(job);
    let rules = format::rule_count(job);
    let mut i: usize = 0;
    let mut claim: usize = 0;
    let mut passed: usize = 0;
    while claim <= claims {
        if head_below(job, rules, i, claim) {
            passed += format::body_length_at(job, i);
            let field = BOUNDS_AT + passed / 16;
            index[field] = with_bit(index[field], passed % 16);
            i += 1;
        } else {
            index[claim] = passed as u16;
            claim += 1;
        }
    }
}

// The index of claims of an accepted job's bytes.
pub fn index_claims(job: &[u8]) -> ClaimIndex
    requires { WellFormed job.now }
    ensures { Index job.now result }
{
    let mut index = [0u16; INDEX_ENTRIES];
    fill_index(job, &mut index);
    index
}

// Whether a rule ends before this literal.
pub fn bounded(index: &ClaimIndex, at: usize) -> bool
    requires { at ≤ most_literals }
    ensures { result ≡ bound_at index.now at }
{
    (index[BOUNDS_AT + at / 16] >> (at % 16)) % 2 != 0
}

// Where the rule of a literal ends.
pub fn rule_end(index: &ClaimIndex, at: usize) -> usize
    requires { at < most_literals }
    ensures { (result ≡ end_in index.now at) × (result ≤ most_literals + 1) }
{
    for end in at + 1..MOST_LITERALS + 1 {
        if bounded(index, end) {
            return end;
        }
    }
    MOST_LITERALS + 1
}

impl Cursor {
    // The cursor over a claim's literals that has passed some of them.
    pub fn over(index: &ClaimIndex, claim: usize, passed: usize) -> Cursor
        requires { (claim < most_claims) × (passed < 4294967296) }
        ensures { result ≡ record { at = get_or index.now claim 0 + passed; end = get_or index.now (claim + 1) 0 } }
    {
        Cursor {
            at: usize::from(index[claim]) + passed,
            end: usize::from(index[claim + 1]),
        }
    }

    // How many of the claim's literals it has passed.
    pub fn passed(self, index: &ClaimIndex, claim: usize) -> usize
        requires { (claim < most_claims) × (get_or index.now claim 0 ≤ self.at) }
        ensures { result ≡ self.at - get_or index.now claim 0 }
    {
        self.at - usize::from(index[claim])
    }

    // Whether no literal is left.
    pub fn at_end(self) -> bool
        ensures { result ≡ leb self.end self.at }
    {
        self.end <= self.at
    }

    // The current literal, of a job with this many rules.
    pub fn current(self, job: &[u8], rules: usize) -> Literal
        requires { literal_byte rules self.at + 2 ≤ length job.now }
        ensures { result ≡ literal_at job.now rules self.at }
    {
        let at = self.at;
        format::literal_at(job, rules, at)
    }

    // The cursor past the current literal's rule.
    pub fn past_rule(self, index: &ClaimIndex) -> Cursor
        requires { self.at < most_literals }
        ensures { result ≡ past_rule index.now self }
    {
        let at = self.at;
        Cursor {
            at: rule_end(index, at),
            end: self.end,
        }
    }

    // The cursor past the current literal.
    pub fn advanced(self) -> Cursor
        requires { self.at < self.end }
        ensures { result ≡ moved self }
    {
        Cursor {
            at: self.at + 1,
            end: self.end,
        }
    }
}
