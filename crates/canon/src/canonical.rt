// The call: from a job to the bytes of its form. The contracts cite specs/Answers.
ghost use Rattle.std.specs.Prelude.{◌≡◌, ◌≤◌, IfOk, length};
ghost use Rattle.writing.specs.Written.{Put};
ghost use Rattle.forms.specs.Form.{form_bytes};
ghost use Rattle.canon.specs.Answers.{check_form, Canonical};

use crate::rooms;
use job::{Check, Job, Refusal, checks};
use writing::Writer;

// Rows 1 to 8 of the check table, then 19, for an output of `room` bytes.
fn check_form(job: &[u8], room: usize) -> Check
    ensures { result ≡ check_form job.now room }
{
    checks::check_job(job)?;
    if room < job.len() {
        return Err(Refusal {
            number: 19,
            place: job.len(),
        });
    }
    Ok(())
}

// The form of an accepted job, at the start of `out`; its length.
fn write_form(job: &Job, out: &mut [u8]) -> usize
    requires { length (form_bytes job.now) ≤ length out.old }
    ensures { Put out.old 0 (form_bytes job.now) out.new result }
{
    let mut form = Writer::new(out);
    rooms::put_canonical(job, &mut form);
    form.at
}

// Writes the form of the job at the start of `out`, and nothing past it; how many bytes it has. Refused, nothing is written.
pub fn canonical(job: &[u8], out: &mut [u8]) -> Result<usize, Refusal>
    ensures canonical { Canonical job.now out.old result out.new }
    ensures within { IfOk result (λ n. n ≤ length out.new) }
{
    check_form(job, out.len())?;
    let job = Job::of_accepted(job);
    Ok(write_form(&job, out))
}
