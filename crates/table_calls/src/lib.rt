// The table's calls for programs in other languages, so that tests can hold them to an evaluator of other authorship.
// Thin over the crate calls: each answer becomes one number (specs/Numbers).
#![tactic(auto)]

ghost use Rattle.std.specs.Prelude.{◌≡◌};
ghost use Rattle.calls.specs.Calls.{start_check, start_table, turn_check, turn_answer, turn_table, run_check, run_tally, run_left, read_check, read_answer};
ghost use Rattle.turn.specs.Turn.{kind_number};
ghost use Rattle.codes.specs.Numbers.{of_written};
ghost use Rattle.records.specs.Answers.{record_check, record_table, record_tally, record_bytes, replay_rows, replay_check, replay_table, replay_tally};
ghost use Rattle.table_calls.specs.Numbers.{of_check, of_turn, of_reading, of_read, copied};

use table::Reading;
use turn::Kind;

fn of_kind(kind: Kind) -> u64
    ensures { result ≡ kind_number kind }
{
    kind as u64
}

// Numbers of the C interface, in another order than the type has.
fn of_reading(reading: Reading) -> u64
    ensures { result ≡ of_reading reading }
{
    match reading {
        Reading::Fresh => 0,
        Reading::True => 1,
        Reading::False => 2,
        Reading::Undefined => 3,
        Reading::Open => 4,
    }
}

// The counts into the first eight places of a tally that has as many.
fn copy_counts(counts: &[u64; 8], tally: &mut [u64])
    ensures { tally.new ≡ copied counts.now tally.old }
{
    if tally.len() < 8 {
        return;
    }
    tally[..8].copy_from_slice(counts);
}

#[unsafe(no_mangle)]
pub extern "C" fn table_start(job: &[u8], table: &mut [u32]) -> u64
    ensures value { result ≡ of_check (start_check job.now table.old) }
    ensures table_after { table.new ≡ start_table (start_check job.now table.old) job.now table.old }
{
    match calls::start(job, table) {
        Ok(()) => 0,
        Err(refusal) => codes::in_halves(refusal),
    }
}

#[unsafe(no_mangle)]
pub extern "C" fn table_turn(job: &[u8], table: &mut [u32], worker: usize) -> u64
    ensures value { result ≡ of_turn (turn_answer (turn_check job.now table.old worker) job.now table.old worker) }
    ensures table_after { table.new ≡ turn_table (turn_check job.now table.old worker) job.now table.old worker }
{
    match calls::turn(job, table, worker) {
        Ok(kind) => of_kind(kind),
        Err(refusal) => codes::in_halves(refusal),
    }
}

#[unsafe(no_mangle)]
pub extern "C" fn table_run(
    job: &[u8],
    table: &mut [u32],
    schedule: &[u8],
    tally: &mut [u64],
) -> u64
    ensures value { result ≡ of_check (run_check job.now table.old schedule.now) }
    ensures table_after { table.new ≡ run_left (run_check job.now table.old schedule.now) job.now table.old schedule.now }
    ensures tally_after { tally.new ≡ copied (run_tally (run_check job.now table.old schedule.now) job.now table.old schedule.now) tally.old }
{
    match calls::run(job, table, schedule) {
        Ok(counts) => {
            copy_counts(&counts, tally);
            0
        }
        Err(refusal) => {
            copy_counts(&[0u64; 8], tally);
            codes::in_halves(refusal)
        }
    }
}

#[unsafe(no_mangle)]
pub extern "C" fn table_read(job: &[u8], table: &[u32], claim: usize) -> u64
    ensures { result ≡ of_read (read_answer (read_check job.now table.now claim) table.now claim) }
{
    match calls::read(job, table, claim) {
        Ok(reading) => of_reading(reading),
        Err(refusal) => codes::in_halves(refusal),
    }
}

// Of a recorded run and of a replay: 0, or 2^63 + number · 2^56 + place for a refusal.
#[unsafe(no_mangle)]
pub extern "C" fn table_record(
    job: &[u8],
    table: &mut [u32],
    schedule: &[u8],
    buffer: &mut [u8],
    tally: &mut [u64],
) -> u64
    ensures value { result ≡ of_written (record_check job.now table.old schedule.now buffer.old) 0 }
    ensures table_after { table.new ≡ record_table (record_check job.now table.old schedule.now buffer.old) job.now table.old schedule.now }
    ensures buffer_after { buffer.new ≡ record_bytes (record_check job.now table.old schedule.now buffer.old) job.now table.old schedule.now buffer.old }
    ensures tally_after { tally.new ≡ copied (record_tally (record_check job.now table.old schedule.now buffer.old) job.now table.old schedule.now) tally.old }
{
    match recording::record_run(job, table, schedule, buffer) {
        Ok(counts) => {
            copy_counts(&counts, tally);
            0
        }
        Err(refusal) => {
            copy_counts(&[0u64; 8], tally);
            codes::of_refusal(refusal)
        }
    }
}

#[unsafe(no_mangle)]
pub extern "C" fn table_replay(job: &[u8], table: &mut [u32], log: &[u8], tally: &mut [u64]) -> u64
    ensures value { result ≡ of_written (replay_check job.now table.old log.now) 0 }
    ensures table_after { table.new ≡ replay_table (replay_rows job.now table.old log.now) job.now table.old log.now }
    ensures tally_after { tally.new ≡ copied (replay_tally (replay_rows job.now table.old log.now) job.now table.old log.now) tally.old }
{
    match recording::replay(job, table, log) {
        Ok(counts) => {
            copy_counts(&counts, tally);
            0
        }
        Err(stopped) => {
            copy_counts(&stopped.tally, tally);
            codes::of_refusal(stopped.refusal)
        }
    }
}
