// The lines of a listing, behind what a writer has written. The contracts cite specs/Listing.
ghost use Rattle.std.specs.Prelude.{◌+◌, ◌*◌, ◌<◌, ◌≤◌, length};
ghost use mathlib.Core.List.{flat_map};
ghost use Rattle.base.specs.Lists.{upto};
ghost use Rattle.writing.specs.Writes.{Writes, HasRoom};
ghost use Rattle.job.specs.Format.{job_of, questions};
ghost use Rattle.job.specs.Job.{most_claims};
ghost use Rattle.table.specs.Layout.{used, mark_word};
ghost use Rattle.listing.specs.Listing.{refusal_line, claim_line, count_text, tally_line, answer_line, line_of, question_lines, heading, most_text, text_of};

use crate::text;
use job::Job;
use table::{Reading, words};
use writing::Writer;

pub fn put_refusal(out: &mut Writer, number: u32, place: usize)
    requires { HasRoom out.old 60 }
    ensures { Writes out.old out.new (refusal_line number place) }
{
    out.put_bytes(b"refused ");
    out.put_number(number as u64);
    out.put_byte(b' ');
    out.put_number(place as u64);
    out.put_byte(b'\n');
}

pub fn put_claim(out: &mut Writer, table: &[u32], c: usize)
    requires marked { mark_word c < length table.now }
    requires fits { HasRoom out.old 31 }
    ensures { Writes out.old out.new (claim_line table.now c) }
{
    out.put_number(c as u64);
    out.put_byte(b' ');
    let reading = words::reading_of(words::mark_at(table, c));
    out.put_bytes(text::name_of(reading));
    out.put_byte(b'\n');
}

pub fn put_claim_lines(out: &mut Writer, table: &[u32], claims: usize)
    requires marked { mark_word claims ≤ length table.now }
    requires few { claims ≤ most_claims }
    requires fits { HasRoom out.old (31 * claims) }
    ensures { Writes out.old out.new (flat_map (claim_line table.now) (upto claims)) × (out.new.at ≤ out.old.at + 31 * claims) }
{
    for c in 0..claims {
        put_claim(out, table, c);
    }
}

// A count of a tally.
fn put_count(out: &mut Writer, n: u64)
    requires { HasRoom out.old 21 }
    ensures { Writes out.old out.new (count_text n) × (out.new.at ≤ out.old.at + 21) }
{
    out.put_byte(b' ');
    out.put_number(n);
}

pub fn put_tally_line(out: &mut Writer, counts: &[u64; 8])
    requires { HasRoom out.old 200 }
    ensures { Writes out.old out.new (tally_line counts.now) }
{
    out.put_bytes(b"tally");
    for &n in counts {
        put_count(out, n);
    }
    out.put_byte(b'\n');
}

// The line of a question that this worker asked of this claim, and whose answer reads so.
fn put_answer(out: &mut Writer, worker: usize, claim: usize, reading: Reading)
    requires { HasRoom out.old 52 }
    ensures { Writes out.old out.new (answer_line worker claim reading) }
{
    out.put_number(worker as u64);
    out.put_byte(b' ');
    out.put_number(claim as u64);
    out.put_byte(b' ');
    out.put_bytes(text::name_of(reading));
    out.put_byte(b'\n');
}

// The line of question k.
fn put_question(out: &mut Writer, job: &Job, table: &[u32], k: usize)
    requires room { used (job_of job.now) ≤ length table.now }
    requires k_bound { k < questions job.now }
    requires fits { HasRoom out.old 52 }
    ensures { Writes out.old out.new (line_of job.now table.now k) }
{
    let q = job.question_at(k);
    let claims = job.claim_count();
    let workers = job.worker_count();
    let value = words::answer_at(table, claims, workers, k);
    let reading = words::reading_of(words::mark_of_value(value));
    put_answer(out, q.worker, q.claim, reading);
}

pub fn put_question_lines(out: &mut Writer, job: &Job, table: &[u32])
    requires room { used (job_of job.now) ≤ length table.now }
    requires fits { HasRoom out.old (52 * questions job.now) }
    ensures { Writes out.old out.new (question_lines (job_of job.now) table.now 0 (job_of job.now).questions) × (out.new.at ≤ out.old.at + 52 * questions job.now) }
{
    for k in 0..job.question_count() {
        put_question(out, job, table, k);
    }
}

// A heading: its word, and how many lines stand below it.
fn put_heading(out: &mut Writer, word: &[u8], count: usize)
    requires few { length word.now ≤ 10 }
    requires fits { HasRoom out.old 31 }
    ensures { Writes out.old out.new (heading word.now count) × (out.new.at ≤ out.old.at + 31) }
{
    out.put_bytes(word);
    out.put_number(count as u64);
    out.put_byte(b'\n');
}

// The whole text of an accepted job, from its table and tally at the end.
pub fn put_text(out: &mut Writer, job: &Job, table: &[u32], counts: &[u64; 8])
    requires room { used (job_of job.now) ≤ length table.now }
    requires fits { HasRoom out.old most_text }
    ensures { Writes out.old out.new (text_of (job_of job.now) table.now counts.now) }
{
    let claims = job.claim_count();
    put_heading(out, b"claims ", claims);
    put_claim_lines(out, table, claims);
    put_heading(out, b"questions ", job.question_count());
    put_question_lines(out, job, table);
    put_tally_line(out, counts);
}
