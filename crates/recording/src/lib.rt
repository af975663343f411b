// The day's turns on record (02, order 11): a run that starts its table and writes worker and kind of each turn, and the replay of such a record. What a record
// is, and what the two calls answer, leave and promise, stands in the crate `records`.
#![tactic(auto)]

ghost use Rattle.std.specs.Prelude.{◌≡◌, ◌*◌, ◌≤◌, length, Ok};
ghost use Rattle.job.specs.Rows.{◌⨾◌};
ghost use Rattle.job.specs.Format.{job_of};
ghost use Rattle.job.specs.Checks.{check_job};
ghost use Rattle.job.specs.Check.{Accepted};
ghost use Rattle.table.specs.Layout.{used};
ghost use Rattle.calls.specs.Calls.{Named, check_schedule};
ghost use Rattle.records.specs.Answers.{check_buffer, record_check, Recorded, replay_rows, Replayed};
ghost use Rattle.records.specs.Laws.{Answered, OnRecord};

pub mod named;
mod noting;
mod replaying;

use calls::schedule;
use job::checks::MOST_CLAIMS;
use job::{Check, Job, Refusal, claims};
use records::Stopped;
use table::{questions, start};

// How far a record was followed: how many pairs hold before the first false one, and the tally of their turns.
#[derive(Clone, Copy, Debug, PartialEq, Eq)]
pub struct Followed {
    pub held: usize,
    pub tally: [u64; 8],
}

// Rows 11 and 25.
fn check_record(job: &Job, schedule: &[u8], buffer: &[u8]) -> Check
    ensures { result ≡ check_schedule job.now schedule.now ⨾ check_buffer schedule.now buffer.now }
{
    schedule::check_schedule(job, schedule)?;
    let needed = 2 * schedule.len();
    if buffer.len() < needed {
        return Err(Refusal {
            number: 25,
            place: needed,
        });
    }
    Ok(())
}

// A recorded run that is accepted.
fn record_accepted(job: &Job, table: &mut [u32], schedule: &[u8], buffer: &mut [u8]) -> [u64; 8]
    requires long { used (job_of job.now) ≤ length table.old }
    requires named { Named job.now schedule.now }
    requires room { 2 * length schedule.now ≤ length buffer.old }
    ensures { Recorded Accepted job.now table.old schedule.now buffer.old (Ok result) table.new buffer.new }
{
    prove!(job.claim_count() <= MOST_CLAIMS);
    let mut index = [0u16; claims::INDEX_ENTRIES];
    job.fill_index(&mut index);
    let counts = questions::count_questions(job);
    let asked = questions::index_questions(job, &counts);
    start::write_start(job, table);
    noting::record_turns(job, &index, &asked, table, schedule, buffer)
}

// A run that first starts its table, and writes worker and kind of each turn into the buffer. Rows 1 to 9, 11, 25.
pub fn record_run(
    job: &[u8],
    table: &mut [u32],
    schedule: &[u8],
    buffer: &mut [u8],
) -> Result<[u64; 8], Refusal>
    ensures recorded { Recorded (record_check job.now table.old schedule.now buffer.old) job.now table.old schedule.now buffer.old result table.new buffer.new }
    ensures answered { Answered job.now }
    ensures on_record { Accepted ≡ check_job job.now → OnRecord job.now }
{
    calls::check_start(job, table)?;
    let accepted = Job::of_accepted(job);
    check_record(&accepted, schedule, buffer)?;
    Ok(record_accepted(&accepted, table, schedule, buffer))
}

// A replay whose rows before any turn have passed: row 24. A kind is known only once its turn is made; so at a false pair the table is started again, and the
// turns of the pairs before it are taken once more.
fn replay_accepted(job: &Job, table: &mut [u32], log: &[u8]) -> Result<[u64; 8], Stopped>
    requires long { used (job_of job.now) ≤ length table.old }
    ensures { Replayed Accepted job.now table.old log.now result table.new }
{
    prove!(job.claim_count() <= MOST_CLAIMS);
    let mut index = [0u16; claims::INDEX_ENTRIES];
    job.fill_index(&mut index);
    let counts = questions::count_questions(job);
    let asked = questions::index_questions(job, &counts);
    start::write_start(job, table);
    let first = replaying::follow(job, &index, &asked, table, log);
    let held = first.held;
    if held == log.len() / 2 {
        let tally = first.tally;
        return Ok(tally);
    }
    start::write_start(job, table);
    let again = replaying::follow(job, &index, &asked, table, &log[..2 * held]);
    let tally = again.tally;
    let refusal = Refusal {
        number: 24,
        place: held,
    };
    Err(Stopped { refusal, tally })
}

// Starts the table and takes the turns of the record, each of which must be of the kind that the record says. Rows 1 to 9, 23, 24.
pub fn replay(job: &[u8], table: &mut [u32], log: &[u8]) -> Result<[u64; 8], Stopped>
    ensures replayed { Replayed (replay_rows job.now table.old log.now) job.now table.old log.now result table.new }
    ensures answered { Answered job.now }
    ensures on_record { Accepted ≡ check_job job.now → OnRecord job.now }
{
    calls::check_start(job, table)?;
    if log.len() % 2 != 0 {
        let odd = Refusal {
            number: 23,
            place: log.len(),
        };
        return Err(odd.into());
    }
    let accepted = Job::of_accepted(job);
    replay_accepted(&accepted, table, log)
}
