// The part written and evaluated, in room by the size of the job: the arrays are cleared in each call, so a small job takes a small one. The
// contracts cite specs/Part and specs/Written.
ghost use Rattle.std.specs.Prelude.{◌≡◌, ◌<◌, ◌≤◌, length};
ghost use Rattle.job.specs.Format.{job_of};
ghost use Rattle.table.specs.Ranges.{InRange};
ghost use Rattle.parts.specs.Part.{Alone, PartValues};
ghost use Rattle.parts.specs.Written.{Lent};

use crate::component::Component;
use crate::write;
use job::{ClaimIndex, Job, checks};
use model::evaluate;

// The rooms: at most so many bytes of a job.
const SMALL_BYTES: usize = 512;

const MIDDLE_BYTES: usize = 2048;

const WIDE_BYTES: usize = 8192;

const BROAD_BYTES: usize = 32768;

const LARGE_BYTES: usize = checks::MOST_BYTES;

// The most members of a small part.
const SMALL_MEMBERS: usize = 16;

// The values of the members, by the part written into this room.
fn evaluate_in(part: &Component, values: &mut [u8], room: &mut [u8])
    requires alone { InRange (job_of part.now.job.now) part.now.table.now × Alone (job_of part.now.job.now) part.now.table.now part.now.place.now }
    requires room { (length values.old ≡ length part.now.members.now) × (length part.now.job.now ≤ length room.old) }
    ensures { PartValues (job_of part.now.job.now) part.now.table.now part.now.members.now values.new }
{
    let n = write::put_part(part, room);
    let written = Job::of_accepted(&room[..n]);
    evaluate::evaluate_accepted(&written, values);
}

// The same in room for a job of this size.
fn evaluate_sized<const BYTES: usize>(part: &Component, values: &mut [u8])
    requires alone { InRange (job_of part.now.job.now) part.now.table.now × Alone (job_of part.now.job.now) part.now.table.now part.now.place.now }
    requires room { (length values.old ≡ length part.now.members.now) × (length part.now.job.now ≤ BYTES) × (BYTES < 65536) }
    ensures { PartValues (job_of part.now.job.now) part.now.table.now part.now.members.now values.new }
{
    let mut room = [0u8; BYTES];
    evaluate_in(part, values, &mut room[..]);
}

// What isn't small.
fn evaluate_more(part: &Component, values: &mut [u8])
    requires alone { InRange (job_of part.now.job.now) part.now.table.now × Alone (job_of part.now.job.now) part.now.table.now part.now.place.now }
    requires values_len { length values.old ≡ length part.now.members.now }
    ensures { PartValues (job_of part.now.job.now) part.now.table.now part.now.members.now values.new }
{
    let bytes = part.job.bytes().len();
    if bytes <= MIDDLE_BYTES {
        evaluate_sized::<MIDDLE_BYTES>(part, values);
    } else if bytes <= WIDE_BYTES {
        evaluate_sized::<WIDE_BYTES>(part, values);
    } else if bytes <= BROAD_BYTES {
        evaluate_sized::<BROAD_BYTES>(part, values);
    } else {
        evaluate_sized::<LARGE_BYTES>(part, values);
    }
}

// The values of the members, where their part stands alone: a byte each. What isn't small is left to one function, called from two places: then the
// compiler gives it a frame of its own, and a small part doesn't touch the pages of a large one.
pub fn evaluate_part(
    job: &Job,
    index: &ClaimIndex,
    table: &[u32],
    place: &[u16],
    members: &[u16],
    values: &mut [u8],
)
    requires lent { Lent job.now index.now table.now place.now members.now × Alone (job_of job.now) table.now place.now }
    requires values_len { length values.old ≡ length members.now }
    ensures { PartValues (job_of job.now) table.now members.now values.new }
{
    let part = Component {
        job,
        index,
        table,
        place,
        members,
    };
    if SMALL_MEMBERS < members.len() {
        evaluate_more(&part, values);
        return;
    }
    if SMALL_BYTES < job.bytes().len() {
        evaluate_more(&part, values);
        return;
    }
    evaluate_sized::<SMALL_BYTES>(&part, values);
}
