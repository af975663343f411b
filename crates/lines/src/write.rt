// The job from its notes: header, rule records and literals by head, questions. The contracts cite specs/Placing.
ghost use Rattle.std.specs.Prelude.{◌≡◌, ℕ, ◌+◌, ◌*◌, ◌<◌, ◌≤◌, length, slice_index};
ghost use mathlib.Core.List.{flat_map};
ghost use Rattle.base.specs.Lists.{Within};
ghost use Rattle.writing.specs.Written.{Put};
ghost use Rattle.writing.specs.Writes.{Writes, HasRoom};
ghost use Rattle.job.specs.Encoding.{half_bytes, encode};
ghost use Rattle.lines.specs.Lines.{Lines, text_of, job_from};
ghost use Rattle.lines.specs.Room.{Readable};
ghost use Rattle.lines.specs.Noting.{head_mark};
ghost use Rattle.lines.specs.Placing.{BodyLength, Placeable, placed, record_at, body_at, job_bytes, Parted, parted_bytes};

use crate::{Tally, note, place};
use fields::header::{self, Counts};
use fields::little_endian;
use job::checks;
use writing::Writer;

// How many notes stand before the first head.
fn before_head(notes: &[u32]) -> usize
    ensures fits { result ≤ length notes.now }
    ensures before { (k : ℕ) → k < result → slice_index notes.now k < head_mark }
    ensures found { result < length notes.now → head_mark ≤ slice_index notes.now result }
{
    notes
        .iter()
        .position(|&note| note::HEAD <= note)
        .unwrap_or(notes.len())
}

// How many literals the rule at place p has: notes up to the next head.
fn body_length(notes: &[u32], p: usize) -> usize
    requires { p < length notes.now }
    ensures { BodyLength notes.now p result }
{
    before_head(&notes[p + 1..])
}

// A rule's record: head and body length.
fn put_record(out: &mut Writer, notes: &[u32], p: usize)
    requires { (p < length notes.now) × HasRoom out.old 4 }
    ensures { Writes out.old out.new (record_at notes.now p) }
{
    little_endian::put_half(out, (notes[p] % note::HEAD) as usize);
    little_endian::put_half(out, body_length(notes, p));
}

// A record for each rule. Beside `put_bodies`, a loop over a closure that is passed would be no shorter than the two.
fn put_records(out: &mut Writer, notes: &[u32], order: &[u16])
    requires { Within order.now (length notes.now) × HasRoom out.old (4 * length order.now) }
    ensures { Writes out.old out.new (flat_map (record_at notes.now) order.now) }
{
    for &p in order {
        put_record(out, notes, usize::from(p));
    }
}

// Notes as fields, one after the other.
fn put_fields(out: &mut Writer, notes: &[u32])
    requires { HasRoom out.old (2 * length notes.now) }
    ensures { Writes out.old out.new (flat_map (λ x. half_bytes x) notes.now) }
{
    for &note in notes {
        little_endian::put_half(out, note as usize);
    }
}

// A rule's literals.
fn put_body(out: &mut Writer, notes: &[u32], p: usize)
    requires { (p < length notes.now) × HasRoom out.old (length (body_at notes.now p)) }
    ensures { Writes out.old out.new (body_at notes.now p) }
{
    let from = p + 1;
    let end = from + body_length(notes, p);
    put_fields(out, &notes[from..end]);
}

fn put_bodies(out: &mut Writer, notes: &[u32], order: &[u16])
    requires { Within order.now (length notes.now) × HasRoom out.old (length (flat_map (body_at notes.now) order.now)) }
    ensures { Writes out.old out.new (flat_map (body_at notes.now) order.now) }
{
    for &p in order {
        put_body(out, notes, usize::from(p));
    }
}

// The job with these counts: header, the rules in their order, the questions. Nothing is written yet.
fn put_placed(out: &mut Writer, t: Tally, rules: &[u32], order: &[u16], questions: &[u32])
    requires placeable { Placeable t rules.now questions.now (length out.old.buf.now) × (out.old.at ≡ 0) }
    requires order { order.now ≡ placed t.claims rules.now }
    ensures { Writes out.old out.new (job_bytes t rules.now questions.now) }
{
    let counts = Counts {
        claims: t.claims,
        rules: t.rules,
        literals: t.literals,
        workers: t.workers,
        questions: t.questions,
    };
    header::put_header(out, counts);
    put_records(out, rules, order);
    put_bodies(out, rules, order);
    put_fields(out, questions);
}

// The job with these counts, from the notes of its rules and those of its questions.
fn put_noted(out: &mut [u8], t: Tally, rules: &[u32], questions: &[u32]) -> usize
    requires { Placeable t rules.now questions.now (length out.old) }
    ensures { Put out.old 0 (job_bytes t rules.now questions.now) out.new result }
{
    let mut order = [0u16; checks::MOST_RULES];
    let m = place::place_rules(rules, t.claims, &mut order);
    let mut job = Writer::new(out);
    put_placed(&mut job, t, rules, &order[..m], questions);
    job.at
}

// The notes of the rules come first, then those of the questions.
fn put_parts(out: &mut [u8], t: Tally, notes: &[u32]) -> usize
    requires { Parted t notes.now (length out.old) }
    ensures { Put out.old 0 (parted_bytes t notes.now) out.new result }
{
    let from = t.rules + t.literals;
    put_noted(out, t, &notes[..from], &notes[from..])
}

// The job of a text that every row accepts, from the numbers of its lines.
pub fn put_job(out: &mut [u8], text: &[u8], t: Tally) -> usize
    requires { Readable text.now t (length out.old) }
    ensures { (l : Lines) → text.now ≡ text_of l → Put out.old 0 (encode (job_from l)) out.new result }
{
    let mut notes = [0u32; note::MOST_NOTES];
    let n = note::note_numbers(text, &mut notes);
    put_parts(out, t, &notes[..n])
}
