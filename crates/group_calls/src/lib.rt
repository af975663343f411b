// The call that admits a job for programs in other languages, so that tests can hold it to a program of other authorship.
// Thin over the crate groups: its answer becomes one number (specs/Numbers).
#![tactic(auto)]

ghost use Rattle.group_calls.specs.Numbers.{Admitted};

// 0 where the job is admitted, or 2^63 + number · 2^56 + place for a refusal.
#[unsafe(no_mangle)]
pub extern "C" fn group_admit(job: &[u8], groups: &[u8], workers: &[u8]) -> u64
    ensures { Admitted job.now groups.now workers.now result }
{
    match groups::admit(job, groups, workers) {
        Ok(()) => 0,
        Err(refusal) => codes::of_refusal(refusal),
    }
}
