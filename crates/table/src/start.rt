// Starting a table. The contract cites specs/Start.
ghost use Rattle.std.specs.Prelude.{◌≡◌, ◌≤◌, length};
ghost use Rattle.job.specs.Format.{job_of};
ghost use Rattle.table.specs.Layout.{used as used_words};
ghost use Rattle.table.specs.Start.{start_words};

use crate::words;
use job::Job;

// Starts the table: the header and zeros; words past those used stay as they are.
pub fn write_start(job: &Job, table: &mut [u32])
    requires room { used_words (job_of job.now) ≤ length table.old }
    ensures { table.new ≡ start_words (job_of job.now) table.old }
{
    let header = words::header_words(job);
    let used = words::used_words(job);
    table[..words::FIXED_WORDS].copy_from_slice(&header);
    table[words::FIXED_WORDS..used].fill(0);
}
