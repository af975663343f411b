// How often small rule sets stay undefined (02, order 12): the rule sets of a size, one after the other, each written as a job that is evaluated and worked on
// by one worker. What the sets, their jobs and the five numbers are, and what the call promises, stands in the crate `rulesets`.
#![tactic(auto)]

ghost use Rattle.std.specs.Prelude.{◌≡◌, ◌≤◌};
ghost use Rattle.rulesets.specs.Census.{census_of, census_answer};
ghost use Rattle.rulesets.specs.Laws.{Laws};

mod digits;
mod needed;
mod sums;
mod write;

use job::Refusal;
use rulesets::{CensusAnswer, Counts};

// The five numbers of a size from 1 to 3.
fn count_sets(size: usize) -> Counts
    requires { (1 ≤ size) × (size ≤ 3) }
    ensures { result ≡ census_of size }
{
    let mut counts = Counts::default();
    for k in 0..digits::set_count(size) {
        counts = sums::met_set(counts, size, k);
    }
    counts
}

// How many of the rule sets of a size make claim 0 true, false and undefined, and which of them needs most turns. Row 26.
pub fn census(size: usize) -> CensusAnswer
    ensures value { result ≡ census_answer size }
    ensures laws { Laws size result }
{
    if !(1..=digits::MOST_SIZE).contains(&size) {
        return Err(Refusal {
            number: 26,
            place: size,
        });
    }
    Ok(count_sets(size))
}
