// The calls on forms for programs in other languages, so that tests can hold them to a program of other authorship.
// Thin over the crate canon: each answer becomes one number (specs/Numbers).
#![tactic(auto)]

ghost use Rattle.form_calls.specs.Numbers.{FormAnswered, OrderAnswered};

use canon::{canonical, compare};
use std::cmp::Ordering;

// The form's length, or 2^63 + number · 2^56 + place for a refusal.
#[unsafe(no_mangle)]
pub extern "C" fn form_job(job: &[u8], out: &mut [u8]) -> u64
    ensures { FormAnswered job.now out.old out.new result }
{
    codes::of_written(canonical::canonical(job, out))
}

// 0 where s comes earlier, 1 where they are equal, 2 where s comes later.
#[unsafe(no_mangle)]
pub extern "C" fn form_compare(s: &[u8], t: &[u8]) -> u64
    ensures { OrderAnswered s.now t.now result }
{
    match compare::compare(s, t) {
        Ordering::Less => 0,
        Ordering::Equal => 1,
        Ordering::Greater => 2,
    }
}
