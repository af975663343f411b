// What a part is made from. The facts cite specs/Part, and specs of crates job and table.
ghost use Rattle.std.specs.Prelude.{◌≡◌, ◌≤◌, length};
ghost use Rattle.job.specs.Accepted.{WellFormed};
ghost use Rattle.job.specs.Claims.{Index};
ghost use Rattle.job.specs.Format.{claims, job_of};
ghost use Rattle.table.specs.Layout.{used};
ghost use Rattle.parts.specs.Part.{Numbered};

use job::{ClaimIndex, Job};

// Some claims of a job, its `members`, whose rules make a part: `place` has where each stands among them, and the table what is known of
// the others.
#[derive(Clone, Copy)]
pub struct Component<'a> {
    pub job: &'a Job<'a>,
    pub index: &'a ClaimIndex,
    pub table: &'a [u32],
    pub place: &'a [u16],
    pub members: &'a [u16],
    ghost accepted: { WellFormed job.now },
    ghost indexed: { Index job.now index.now },
    ghost words: { used (job_of job.now) ≤ length table.now },
    ghost placed: { length place.now ≡ claims job.now },
    ghost numbered: { Numbered place.now members.now },
}
