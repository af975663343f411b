// The call on typed lines for programs in other languages, so that tests can hold it to a reader of other authorship.
// Thin over the crate lines: the answer becomes one number (specs/Numbers).
#![tactic(auto)]

ghost use Rattle.line_calls.specs.Numbers.{Answered};

#[unsafe(no_mangle)]
pub extern "C" fn lines_job(text: &[u8], out: &mut [u8]) -> u64
    ensures { Answered text.now out.old out.new result }
{
    codes::of_written(lines::typed::job_of_lines(text, out))
}
