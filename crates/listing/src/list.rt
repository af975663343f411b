// The whole listing, into a buffer that the caller lends. The contracts cite specs/Listing.
ghost use Rattle.std.specs.Prelude.{◌≡◌, ◌≤◌, length, replicate};
ghost use Rattle.writing.specs.Written.{Put};
ghost use Rattle.writing.specs.Writes.{Writes, HasRoom};
ghost use Rattle.job.specs.Format.{job_of};
ghost use Rattle.table.specs.Layout.{most_words, used};
ghost use Rattle.calls.specs.Calls.{Named};
ghost use Rattle.listing.specs.Listing.{most_input, most_text, listed, listing_check, listing_if, list_check, room_length, room_bytes};
ghost use Rattle.listing.specs.Told.{Told};

use crate::{Listed, input, lines, play};
use job::checks::MOST_CLAIMS;
use job::{Check, Job, Refusal};
use table::words;
use writing::Writer;

// Enough for the text of every input.
pub const MOST_TEXT: usize = 196608;

// The text of an accepted job, by way of a table of zeros.
fn list_on(job: &Job, named: &[u8], table: &mut [u32], out: &mut Writer)
    requires named { Named job.now named.now }
    requires short { length named.now ≤ most_input }
    requires zeros { table.old ≡ replicate (used (job_of job.now)) 0 }
    requires fits { HasRoom out.old most_text }
    ensures { Writes out.old out.new (listed (job_of job.now) named.now) }
{
    let counts = play::play(job, named, table);
    lines::put_text(out, job, table, &counts);
}

// The text of an accepted job and schedule.
fn list_accepted(job: &Job, named: &[u8], out: &mut Writer)
    requires named { Named job.now named.now }
    requires short { length named.now ≤ most_input }
    requires fits { HasRoom out.old most_text }
    ensures { Writes out.old out.new (listed (job_of job.now) named.now) }
{
    prove!(job.claim_count() <= MOST_CLAIMS);
    let mut table = [0u32; words::MOST_WORDS];
    let used = words::used_words(job);
    list_on(job, named, &mut table[..used], out);
}

// The text of an input whose check is made.
fn list_checked(input: &[u8], check: Check, out: &mut Writer)
    requires checked { check ≡ listing_check input.now }
    requires fits { HasRoom out.old most_text }
    ensures { Writes out.old out.new (listing_if check input.now) }
{
    match check {
        Err(Refusal { number, place }) => lines::put_refusal(out, number, place),
        Ok(()) => {
            let (job, schedule) = input.split_at(input::job_end(input));
            let job = Job::of_accepted(job);
            list_accepted(&job, schedule, out);
        }
    }
}

// That text at the start of `out`; its length.
fn write_text(input: &[u8], check: Check, out: &mut [u8]) -> usize
    requires checked { check ≡ listing_check input.now }
    requires fits { most_text ≤ length out.old }
    ensures { Put out.old 0 (listing_if check input.now) out.new result }
{
    let mut text = Writer::new(out);
    list_checked(input, check, &mut text);
    text.at
}

// Lists the input at the start of `out`; where that has under MOST_TEXT bytes it is refused, nothing is written, and the length is 0.
pub fn list(input: &[u8], out: &mut [u8]) -> Listed
    ensures check_value { result.check ≡ list_check input.now (length out.old) }
    ensures length_value { result.length ≡ room_length input.now out.old }
    ensures out_after { out.new ≡ room_bytes input.now out.old }
    ensures length_in_bounds { result.length ≤ length out.new }
    ensures told { Told input.now }
{
    let check = input::check_input(input);
    if out.len() < MOST_TEXT {
        let short = Refusal {
            number: 16,
            place: MOST_TEXT,
        };
        return Listed {
            check: check.and(Err(short)),
            length: 0,
        };
    }
    Listed {
        check,
        length: write_text(input, check, out),
    }
}
