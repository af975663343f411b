// The turns of a listing: those that the schedule names, then those that finish. The contract cites `played` of specs/Listing.
ghost use Rattle.std.specs.Prelude.{◌≡◌, ◌≤◌, length};
ghost use Rattle.job.specs.Format.{job_of};
ghost use Rattle.table.specs.Layout.{used};
ghost use Rattle.table.specs.Start.{start_words};
ghost use Rattle.turn.specs.Turn.{run_table, run_kinds};
ghost use Rattle.calls.specs.Calls.{Named, tally as tally_of};
ghost use Rattle.listing.specs.Listing.{most_input, played};

use crate::finish;
use calls::schedule;
use job::checks::MOST_CLAIMS;
use job::{Job, claims};
use table::{questions, start};

// Starts the table, takes the turns, and gives their tally.
pub fn play(job: &Job, named: &[u8], table: &mut [u32]) -> [u64; 8]
    requires named { Named job.now named.now }
    requires named_len_bound { length named.now ≤ most_input }
    requires job_in_bounds { used (job_of job.now) ≤ length table.old }
    ensures value { result ≡ tally_of (run_kinds (job_of job.now) (start_words (job_of job.now) table.old) (played (job_of job.now) (start_words (job_of job.now) table.old) named.now)) }
    ensures table_after { table.new ≡ run_table (job_of job.now) (start_words (job_of job.now) table.old) (played (job_of job.now) (start_words (job_of job.now) table.old) named.now) }
{
    prove!(job.claim_count() <= MOST_CLAIMS);
    let mut index = [0u16; claims::INDEX_ENTRIES];
    job.fill_index(&mut index);
    let counts = questions::count_questions(job);
    let asked = questions::index_questions(job, &counts);
    start::write_start(job, table);
    let tally = schedule::run_turns(job, &index, &asked, table, named);
    finish::finish(job, &index, &asked, table, tally)
}
