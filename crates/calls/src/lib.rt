// The calls that users make over a shared table: start, turn, run, read. Each checks the rows of the check table in its order, refuses
// with number and place and no word altered, and else gives what specs/Calls says. The contract of `start` has the promise on whole lists
// of calls (specs/Promise).
#![tactic(auto)]

ghost use Rattle.std.specs.Prelude.{◌≡◌};
ghost use Rattle.job.specs.Rows.{◌⨾◌};
ghost use Rattle.job.specs.Format.{job_of};
ghost use Rattle.job.specs.Checks.{check_job};
ghost use Rattle.job.specs.Check.{Accepted};
ghost use Rattle.job.specs.Claims.{Index};
ghost use Rattle.table.specs.Questions.{Counted};
ghost use Rattle.table.specs.Ranges.{check_table};
ghost use Rattle.calls.specs.Calls.{start_check, start_table, check_turn_worker, turn_check, turn_answer, turn_table, check_schedule, run_check, run_answer, run_left, Ran, check_claim_read, read_check, read_answer};
ghost use Rattle.calls.specs.Promise.{Promise};
ghost use Rattle.calls.specs.Worked.{Worked};
ghost use Rattle.turn.specs.Ready.{Ready};

pub mod schedule;
pub mod tally;

use job::checks::{MOST_CLAIMS, MOST_WORKERS};
use job::{Check, ClaimIndex, Job, Refusal, claims};
use table::{Reading, questions, words};
use turn::{Kind, single};

// Rows 1 to 9, as starting checks them.
pub fn check_start(job: &[u8], table: &[u32]) -> Check
    ensures { result ≡ start_check job.now table.now }
{
    job::checks::check_job(job)?;
    table::checks::check_room(&Job::of_accepted(job), table)
}

// Starts a table for a job: rows 1 to 9. Of an accepted job every list of calls from a started table keeps demands 2 and 3.
pub fn start(job: &[u8], table: &mut [u32]) -> Check
    ensures value { result ≡ start_check job.now table.old }
    ensures table_after { table.new ≡ start_table (start_check job.now table.old) job.now table.old }
    ensures promise { Accepted ≡ check_job job.now → Promise job.now }
{
    check_start(job, table)?;
    table::start::write_start(&Job::of_accepted(job), table);
    Ok(())
}

// A turn on an accepted job, whose index of claims and counts of questions are lent: rows 9 to 11.
fn turn_accepted(
    job: &Job,
    index: &ClaimIndex,
    counts: &[u32; MOST_WORKERS],
    table: &mut [u32],
    worker: usize,
) -> Result<Kind, Refusal>
    requires { Index job.now index.now × Counted (job_of job.now) counts.now }
    ensures value { result ≡ turn_answer (check_table (job_of job.now) table.old ⨾ check_turn_worker job.now worker) job.now table.old worker }
    ensures table_after { table.new ≡ turn_table (check_table (job_of job.now) table.old ⨾ check_turn_worker job.now worker) job.now table.old worker }
{
    table::checks::check_table(job, index, counts, table)?;
    if job.worker_count() <= worker {
        return Err(Refusal {
            number: 11,
            place: 0,
        });
    }
    let asked = questions::index_questions(job, counts);
    Ok(single::take_single(job, index, &asked, table, worker))
}

// A turn of a worker: rows 1 to 11.
pub fn turn(job: &[u8], table: &mut [u32], worker: usize) -> Result<Kind, Refusal>
    ensures value { result ≡ turn_answer (turn_check job.now table.old worker) job.now table.old worker }
    ensures table_after { table.new ≡ turn_table (turn_check job.now table.old worker) job.now table.old worker }
{
    job::checks::check_job(job)?;
    let accepted = Job::of_accepted(job);
    // An array of its own: an index that a function answers would be copied, 10 KB of stack.
    let mut index = [0u16; claims::INDEX_ENTRIES];
    accepted.fill_index(&mut index);
    let counts = questions::count_questions(&accepted);
    turn_accepted(&accepted, &index, &counts, table, worker)
}

// A run on an accepted job and a table in range: row 11.
fn run_in_range(
    job: &Job,
    index: &ClaimIndex,
    counts: &[u32; MOST_WORKERS],
    table: &mut [u32],
    schedule: &[u8],
) -> Result<[u64; 8], Refusal>
    requires { Ready job.now index.now table.old × Counted (job_of job.now) counts.now }
    ensures { Ran (check_schedule job.now schedule.now) job.now table.old schedule.now result table.new }
{
    schedule::check_schedule(job, schedule)?;
    let asked = questions::index_questions(job, counts);
    Ok(schedule::run_turns(job, index, &asked, table, schedule))
}

// A run on an accepted job, whose index of claims and counts of questions are lent: rows 9 to 11.
fn run_accepted(
    job: &Job,
    index: &ClaimIndex,
    counts: &[u32; MOST_WORKERS],
    table: &mut [u32],
    schedule: &[u8],
) -> Result<[u64; 8], Refusal>
    requires { Index job.now index.now × Counted (job_of job.now) counts.now }
    ensures { Ran (check_table (job_of job.now) table.old ⨾ check_schedule job.now schedule.now) job.now table.old schedule.now result table.new }
{
    table::checks::check_table(job, index, counts, table)?;
    prove!(job.claim_count() <= MOST_CLAIMS);
    run_in_range(job, index, counts, table, schedule)
}

// A run: the turns that the schedule names, a byte a turn, answered by how many were of each kind. Rows 1 to 11.
pub fn run(job: &[u8], table: &mut [u32], schedule: &[u8]) -> Result<[u64; 8], Refusal>
    ensures value { result ≡ run_answer job.now table.old schedule.now }
    ensures table_after { table.new ≡ run_left (run_check job.now table.old schedule.now) job.now table.old schedule.now }
    ensures worked { Worked job.now table.old schedule.now result table.new }
{
    job::checks::check_job(job)?;
    let accepted = Job::of_accepted(job);
    let mut index = [0u16; claims::INDEX_ENTRIES];
    accepted.fill_index(&mut index);
    let counts = questions::count_questions(&accepted);
    run_accepted(&accepted, &index, &counts, table, schedule)
}

// Reads a claim of an accepted job, whose index of claims and counts of questions are lent: rows 9, 10 and 12.
fn read_accepted(
    job: &Job,
    index: &ClaimIndex,
    counts: &[u32; MOST_WORKERS],
    table: &[u32],
    claim: usize,
) -> Result<Reading, Refusal>
    requires { Index job.now index.now × Counted (job_of job.now) counts.now }
    ensures { result ≡ read_answer (check_table (job_of job.now) table.now ⨾ check_claim_read job.now claim) table.now claim }
{
    table::checks::check_table(job, index, counts, table)?;
    if job.claim_count() <= claim {
        return Err(Refusal {
            number: 12,
            place: 0,
        });
    }
    Ok(words::reading_of(words::mark_at(table, claim)))
}

// Reads a claim: rows 1 to 10, then 12.
pub fn read(job: &[u8], table: &[u32], claim: usize) -> Result<Reading, Refusal>
    ensures { result ≡ read_answer (read_check job.now table.now claim) table.now claim }
{
    job::checks::check_job(job)?;
    let accepted = Job::of_accepted(job);
    let mut index = [0u16; claims::INDEX_ENTRIES];
    accepted.fill_index(&mut index);
    let counts = questions::count_questions(&accepted);
    read_accepted(&accepted, &index, &counts, table, claim)
}
