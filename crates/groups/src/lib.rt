// Partners with unpublished claims (02, order 8): the call that admits a job, `admit`. The contracts cite specs/: Groups (rows 20 and 21), Admission (what
// users may rely on).
#![tactic(auto)]

ghost use Rattle.std.specs.Prelude.{◌≡◌, length};
ghost use Rattle.base.specs.Compare.{differs};
ghost use Rattle.job.specs.Rows.{row};
ghost use Rattle.job.specs.Claims.{Index};
ghost use Rattle.job.specs.Format.{claims, workers as workers_of};
ghost use Rattle.groups.specs.Groups.{check_partners, admit_check};
ghost use Rattle.groups.specs.Admission.{Admission};

mod search;

use job::checks::MOST_CLAIMS;
use job::{Check, ClaimIndex, Job, Refusal, checks, claims};

// Row 21, of an accepted job and lists of the right length.
fn check_partners(job: &Job, index: &ClaimIndex, groups: &[u8], workers: &[u8]) -> Check
    requires indexed { Index job.now index.now }
    requires lengths { (length groups.now ≡ claims job.now) × (length workers.now ≡ workers_of job.now) }
    ensures { result ≡ check_partners job.now groups.now workers.now }
{
    let rules = job.rule_count();
    let literals = job.literal_count();
    let questions = job.question_count();
    let mut scopes = [0u16; MOST_CLAIMS];
    let mut queue = [0u16; MOST_CLAIMS];
    for q in 0..questions {
        if search::leads_abroad(job, index, groups, workers, q, &mut scopes, &mut queue) {
            return Err(Refusal {
                number: 21,
                place: 36 + 4 * rules + 2 * literals + 4 * q,
            });
        }
    }
    Ok(())
}

// Row 20, of one of the lists, which is to have so many bytes.
fn check_length(list: &[u8], count: usize) -> Check
    ensures { result ≡ row (differs (length list.now) count) 20 (length list.now) }
{
    if list.len() != count {
        return Err(Refusal {
            number: 20,
            place: list.len(),
        });
    }
    Ok(())
}

// Admits a job with unpublished claims: one byte a claim, 0 public, else its group; one byte a worker, its group. Rows 1 to 8, then 20 and 21.
pub fn admit(job: &[u8], groups: &[u8], workers: &[u8]) -> Check
    ensures value { result ≡ admit_check job.now groups.now workers.now }
    ensures admission { Admission job.now groups.now workers.now }
{
    checks::check_job(job)?;
    let accepted = Job::of_accepted(job);
    check_length(groups, accepted.claim_count())?;
    check_length(workers, accepted.worker_count())?;
    let mut index = [0u16; claims::INDEX_ENTRIES];
    accepted.fill_index(&mut index);
    check_partners(&accepted, &index, groups, workers)
}
