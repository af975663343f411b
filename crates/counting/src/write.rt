// The job of a set, written from the set's number. The contracts cite specs/Sets and specs/Jobs.
ghost use Rattle.std.specs.Prelude.{◌≡◌, ◌+◌, ◌*◌, ◌^◌, ◌<◌, ◌≤◌, length, get_or};
ghost use mathlib.Core.List.{flat_map};
ghost use Rattle.base.specs.Number.{Number};
ghost use Rattle.job.specs.Job.{body_count};
ghost use Rattle.job.specs.Encoding.{rule_bytes, body_bytes, question_bytes, encode};
ghost use Rattle.writing.specs.Written.{Put};
ghost use Rattle.writing.specs.Writes.{Writes, HasRoom};
ghost use Rattle.rulesets.specs.Sets.{absent, choice_count, set_count, signs, body_no, choice_no, set_no};
ghost use Rattle.rulesets.specs.Jobs.{signed, body_literals, chosen_rule, chosen_literals, set_rules, every_claim, job_of_set};
ghost use Rattle.counting.specs.Written.{literal_half};

use crate::digits;
use fields::header::{self, Counts};
use fields::little_endian;
use job::format;
use writing::Writer;

// The most bytes that a job of a set has.
pub const MOST_JOB: usize = 78;

// How many literals body x has.
fn body_length(size: usize, x: usize) -> usize
    requires { (size ≤ 3) × (x < 3 ^ size) }
    ensures { Number result (length (body_literals (body_no size x))) 4 }
{
    let mut n: usize = 0;
    for c in 0..size {
        n += usize::from(digits::sign_of(size, x, c) != 0);
    }
    n
}

// How many rules set k has.
fn rule_count(size: usize, k: usize) -> usize
    requires { (size ≤ 3) × (k < set_count size) }
    ensures { Number result (length (set_rules (set_no size k))) 4 }
{
    let mut n: usize = 0;
    for c in 0..size {
        n += usize::from(digits::choice_of(size, k, c) != 0);
    }
    n
}

// How many literals choice v has.
fn choice_length(size: usize, v: usize) -> usize
    requires { (size ≤ 3) × (v < choice_count size) }
    ensures { Number result (length (chosen_literals (choice_no size v))) 4 }
{
    if v == 0 {
        return 0;
    }
    body_length(size, v - 1)
}

// How many literals set k has.
fn literal_count(size: usize, k: usize) -> usize
    requires { (size ≤ 3) × (k < set_count size) }
    ensures { Number result (body_count (set_rules (set_no size k))) 10 }
{
    let mut n: usize = 0;
    for c in 0..size {
        n += choice_length(size, digits::choice_of(size, k, c));
    }
    n
}

// The literal of claim c whose sign in a body is p.
fn put_literal(out: &mut Writer, c: usize, p: usize)
    requires sign { (p < 3) × (c < 3) }
    requires room { HasRoom out.old (length (flat_map literal_half (signed c (get_or signs p absent)))) }
    ensures { Writes out.old out.new (flat_map literal_half (signed c (get_or signs p absent))) }
{
    if p == 0 {
        return;
    }
    little_endian::put_half(out, (p - 1) * format::NEGATED + c);
}

// The literals of body x.
fn put_body(out: &mut Writer, size: usize, x: usize)
    requires body { (size ≤ 3) × (x < 3 ^ size) }
    requires room { HasRoom out.old (length (flat_map literal_half (body_literals (body_no size x)))) }
    ensures { Writes out.old out.new (flat_map literal_half (body_literals (body_no size x))) }
{
    for c in 0..size {
        put_literal(out, c, digits::sign_of(size, x, c));
    }
}

// The record of claim c's rule, if its choice v is one.
fn put_record(out: &mut Writer, size: usize, c: usize, v: usize)
    requires choice { (size ≤ 3) × (v < choice_count size) }
    requires room { HasRoom out.old (length (flat_map rule_bytes (chosen_rule c (choice_no size v)))) }
    ensures { Writes out.old out.new (flat_map rule_bytes (chosen_rule c (choice_no size v))) }
{
    if v == 0 {
        return;
    }
    little_endian::put_half(out, c);
    little_endian::put_half(out, body_length(size, v - 1));
}

// The rules' records of set k.
fn put_records(out: &mut Writer, size: usize, k: usize)
    requires set { (size ≤ 3) × (k < set_count size) }
    requires room { HasRoom out.old (length (flat_map rule_bytes (set_rules (set_no size k)))) }
    ensures { Writes out.old out.new (flat_map rule_bytes (set_rules (set_no size k))) }
{
    for c in 0..size {
        put_record(out, size, c, digits::choice_of(size, k, c));
    }
}

// The literals of choice v.
fn put_choice(out: &mut Writer, size: usize, v: usize)
    requires choice { (size ≤ 3) × (v < choice_count size) }
    requires room { HasRoom out.old (length (flat_map literal_half (chosen_literals (choice_no size v)))) }
    ensures { Writes out.old out.new (flat_map literal_half (chosen_literals (choice_no size v))) }
{
    if v == 0 {
        return;
    }
    put_body(out, size, v - 1);
}

// The rules' literals of set k.
fn put_bodies(out: &mut Writer, size: usize, k: usize)
    requires set { (size ≤ 3) × (k < set_count size) }
    requires room { HasRoom out.old (length (flat_map body_bytes (set_rules (set_no size k)))) }
    ensures { Writes out.old out.new (flat_map body_bytes (set_rules (set_no size k))) }
{
    for c in 0..size {
        put_choice(out, size, digits::choice_of(size, k, c));
    }
}

// Worker 0's questions, every claim.
fn put_questions(out: &mut Writer, size: usize)
    requires size { size ≤ 3 }
    requires room { HasRoom out.old (length (flat_map question_bytes (every_claim size))) }
    ensures { Writes out.old out.new (flat_map question_bytes (every_claim size)) }
{
    for c in 0..size {
        little_endian::put_half(out, 0);
        little_endian::put_half(out, c);
    }
}

// The parts of the job of set k.
fn put_parts(out: &mut Writer, size: usize, k: usize)
    requires set { (size ≤ 3) × (k < set_count size) }
    requires room { HasRoom out.old 78 }
    ensures { Writes out.old out.new (encode (job_of_set (set_no size k))) }
{
    let counts = Counts {
        claims: size,
        rules: rule_count(size, k),
        literals: literal_count(size, k),
        workers: 1,
        questions: size,
    };
    header::put_header(out, counts);
    put_records(out, size, k);
    put_bodies(out, size, k);
    put_questions(out, size);
}

// The job of set k.
pub fn put_set(out: &mut [u8], size: usize, k: usize) -> usize
    requires { (size ≤ 3) × (k < set_count size) × (78 ≤ length out.old) }
    ensures { Put out.old 0 (encode (job_of_set (set_no size k))) out.new result }
{
    let mut job = Writer::new(out);
    put_parts(&mut job, size, k);
    job.at
}
