// The turns of a schedule, taken and noted down: worker and kind of each. The contracts cite `record_of` of the crate `records`.
ghost use Rattle.std.specs.Prelude.{◌≡◌, ◌∷◌, [], ◌++◌, ◌*◌, ◌+◌, ◌≤◌, length, drop};
ghost use Rattle.job.specs.Format.{claims, job_of};
ghost use Rattle.job.specs.Job.{most_claims};
ghost use Rattle.table.specs.Questions.{Listed};
ghost use Rattle.turn.specs.Turn.{kind_number, run_table, run_kinds};
ghost use Rattle.turn.specs.Ready.{Ready};
ghost use Rattle.turn.specs.KeptSet.{SameRoom, Keeps};
ghost use Rattle.calls.specs.Calls.{Named, tally as tally_of};
ghost use Rattle.writing.specs.Writes.{Writes, HasRoom};
ghost use Rattle.records.specs.Record.{record_of};

use calls::tally;
use job::checks::MOST_CLAIMS;
use job::{ClaimIndex, Job};
use table::QuestionIndex;
use turn::single::FEW_CLAIMS;
use turn::{HeldSet, Kind};
use writing::Writer;

// The two bytes of a turn.
fn put_pair(out: &mut Writer, worker: u8, kind: Kind)
    requires { HasRoom out.old 2 }
    ensures { Writes out.old out.new (worker ∷ kind_number kind ∷ []) }
{
    out.put_byte(worker);
    out.put_byte(tally::kind_number(kind) as u8);
}

// The turns that the schedule names, their record and their tally, with room for what is kept from turn to turn.
fn record_in(
    job: &Job,
    index: &ClaimIndex,
    asked: &QuestionIndex,
    table: &mut [u32],
    schedule: &[u8],
    buffer: &mut [u8],
    set: &mut HeldSet<'_, '_>,
) -> [u64; 8]
    requires ready { Ready job.now index.now table.old × Listed (job_of job.now) asked.now }
    requires named { Named job.now schedule.now }
    requires fits { 2 * length schedule.now ≤ length buffer.old }
    requires keeps { Keeps (job_of job.now) table.old set.old.kept set.old.place.now set.old.members.now }
    ensures value { result ≡ tally_of (run_kinds (job_of job.now) table.old schedule.now) }
    ensures table_after { table.new ≡ run_table (job_of job.now) table.old schedule.now }
    ensures buffer_after { buffer.new ≡ record_of (job_of job.now) table.old schedule.now ++ drop (2 * length schedule.now) buffer.old }
    ensures same_room { SameRoom set.old set.new }
{
    let mut counts = [0u64; 8];
    let mut record = Writer::new(buffer);
    for &worker in schedule {
        let w = usize::from(worker);
        let kind = turn::take_turn(job, index, asked, table, w, set);
        put_pair(&mut record, worker, kind);
        let next = tally::counted(counts, kind);
        counts = next;
    }
    counts
}

// The same on a job of at most ROOM claims.
fn record_sized<const ROOM: usize>(
    job: &Job,
    index: &ClaimIndex,
    asked: &QuestionIndex,
    table: &mut [u32],
    schedule: &[u8],
    buffer: &mut [u8],
) -> [u64; 8]
    requires ready { Ready job.now index.now table.old × Listed (job_of job.now) asked.now }
    requires named { Named job.now schedule.now }
    requires fits { 2 * length schedule.now ≤ length buffer.old }
    requires room { (claims job.now ≤ ROOM) × (ROOM ≤ most_claims) }
    ensures value { result ≡ tally_of (run_kinds (job_of job.now) table.old schedule.now) }
    ensures table_after { table.new ≡ run_table (job_of job.now) table.old schedule.now }
    ensures buffer_after { buffer.new ≡ record_of (job_of job.now) table.old schedule.now ++ drop (2 * length schedule.now) buffer.old }
{
    let claims = job.claim_count();
    let mut place = [0u16; ROOM];
    let mut members = [0u16; ROOM];
    let mut set = HeldSet::new(&mut place[..claims], &mut members[..claims]);
    record_in(job, index, asked, table, schedule, buffer, &mut set)
}

// The turns that the schedule names, their record and their tally.
pub fn record_turns(
    job: &Job,
    index: &ClaimIndex,
    asked: &QuestionIndex,
    table: &mut [u32],
    schedule: &[u8],
    buffer: &mut [u8],
) -> [u64; 8]
    requires ready { Ready job.now index.now table.old × Listed (job_of job.now) asked.now }
    requires named { Named job.now schedule.now }
    requires fits { 2 * length schedule.now ≤ length buffer.old }
    ensures value { result ≡ tally_of (run_kinds (job_of job.now) table.old schedule.now) }
    ensures table_after { table.new ≡ run_table (job_of job.now) table.old schedule.now }
    ensures buffer_after { buffer.new ≡ record_of (job_of job.now) table.old schedule.now ++ drop (2 * length schedule.now) buffer.old }
{
    if job.claim_count() <= FEW_CLAIMS {
        return record_sized::<FEW_CLAIMS>(job, index, asked, table, schedule, buffer);
    }
    record_sized::<MOST_CLAIMS>(job, index, asked, table, schedule, buffer)
}
