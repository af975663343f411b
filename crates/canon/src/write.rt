// The form written: header, rule records, literals, questions. The contracts cite specs/Kept, specs/Sizes and job/specs/Encoding.
ghost use Rattle.std.specs.Prelude.{◌≡◌, ◌+◌, ◌*◌, ◌<◌, ◌≤◌, length};
ghost use mathlib.Core.List.{flat_map};
ghost use Rattle.writing.specs.Writes.{Writes, HasRoom};
ghost use Rattle.job.specs.Format.{rules, job_of};
ghost use Rattle.job.specs.Encoding.{half_bytes, header_bytes, length_of, rule_bytes, question_bytes, encode};
ghost use Rattle.forms.specs.Form.{form};
ghost use Rattle.base.specs.Lists.{Within};
ghost use Rattle.canon.specs.Kept.{line_at, Bodies, InOrder};
ghost use Rattle.canon.specs.Sizes.{Sizes, sizes_of, Held, HeldAll, kept_bytes};

use crate::ranks;
use fields::header::{self, Counts};
use fields::little_endian;
use job::{Job, format};
use writing::Writer;

// How many literals the rules of `order` have.
fn count_literals(sizes: &[u16], order: &[u16]) -> usize
    requires { Within order.now (length sizes.now) × (sizes_of sizes.now order.now < 18446744073709551616) }
    ensures { result ≡ sizes_of sizes.now order.now }
{
    let mut n: usize = 0;
    for &i in order {
        n += usize::from(sizes[usize::from(i)]);
    }
    n
}

// The header: the counts of claims, workers and questions are the job's.
fn put_counts(out: &mut Writer, job: &Job, sizes: &[u16], order: &[u16])
    requires sizes { Sizes job.now sizes.now × InOrder job.now order.now }
    requires room { HasRoom out.old (length (encode (form (job_of job.now)))) }
    ensures { Writes out.old out.new (header_bytes (form (job_of job.now))) }
{
    let counts = Counts {
        claims: job.claim_count(),
        rules: order.len(),
        literals: count_literals(sizes, order),
        workers: job.worker_count(),
        questions: job.question_count(),
    };
    header::put_header(out, counts);
}

// The body length of rule i, as it is written.
fn length_field(job: &Job, sizes: &[u16], i: usize) -> usize
    requires { Sizes job.now sizes.now × (i < rules job.now) }
    ensures { result ≡ length_of (line_at job.now i) }
{
    if job.missing_at(i) {
        return format::MISSING;
    }
    usize::from(sizes[i])
}

// A rule's record: head and body length.
fn put_record(out: &mut Writer, job: &Job, sizes: &[u16], i: usize)
    requires sizes { Sizes job.now sizes.now × (i < rules job.now) }
    requires room { HasRoom out.old 4 }
    ensures { Writes out.old out.new (rule_bytes (line_at job.now i)) }
{
    little_endian::put_half(out, job.head_at(i));
    little_endian::put_half(out, length_field(job, sizes, i));
}

fn put_records(out: &mut Writer, job: &Job, sizes: &[u16], order: &[u16])
    requires sizes { Sizes job.now sizes.now × Within order.now (rules job.now) }
    requires room { HasRoom out.old (4 * length order.now) }
    ensures { Writes out.old out.new (flat_map (λ i. rule_bytes (line_at job.now i)) order.now) }
{
    for &i in order {
        put_record(out, job, sizes, usize::from(i));
    }
}

// Literals, one after the other.
fn put_literals(out: &mut Writer, s: &[u16])
    requires { HasRoom out.old (2 * length s.now) }
    ensures { Writes out.old out.new (flat_map (λ x. half_bytes x) s.now) }
{
    for &x in s {
        little_endian::put_half(out, usize::from(x));
    }
}

// The literals kept of rule i.
fn put_body(out: &mut Writer, s: &[u16], starts: &[u16], sizes: &[u16], i: usize)
    requires held { Held s.now starts.now sizes.now i }
    requires room { HasRoom out.old (length (kept_bytes s.now starts.now sizes.now i)) }
    ensures { Writes out.old out.new (kept_bytes s.now starts.now sizes.now i) }
{
    put_literals(out, ranks::kept(s, starts, sizes, i));
}

fn put_bodies(out: &mut Writer, s: &[u16], starts: &[u16], sizes: &[u16], order: &[u16])
    requires held_all { HeldAll s.now starts.now sizes.now order.now }
    requires room { HasRoom out.old (length (flat_map (kept_bytes s.now starts.now sizes.now) order.now)) }
    ensures { Writes out.old out.new (flat_map (kept_bytes s.now starts.now sizes.now) order.now) }
{
    for &i in order {
        put_body(out, s, starts, sizes, usize::from(i));
    }
}

// The job's questions, as they stand there.
fn put_questions(out: &mut Writer, job: &Job)
    requires { HasRoom out.old (length (flat_map question_bytes (job_of job.now).questions)) }
    ensures { Writes out.old out.new (flat_map question_bytes (job_of job.now).questions) }
{
    out.put_bytes(job.question_bytes());
}

// The form of a job whose bodies are sorted in s, and whose rules stand in order.
pub fn put_form(
    job: &Job,
    s: &[u16],
    starts: &[u16],
    sizes: &[u16],
    order: &[u16],
    out: &mut Writer,
)
    requires bodies { Bodies job.now s.now starts.now sizes.now × InOrder job.now order.now }
    requires room { HasRoom out.old (length (encode (form (job_of job.now)))) }
    ensures { Writes out.old out.new (encode (form (job_of job.now))) }
{
    // A writer of its own, so that buffer and place need not be stored and read again for each byte.
    let mut form = Writer {
        buf: out.buf,
        at: out.at,
    };
    put_counts(&mut form, job, sizes, order);
    put_records(&mut form, job, sizes, order);
    put_bodies(&mut form, s, starts, sizes, order);
    put_questions(&mut form, job);
    out.at = form.at;
}
