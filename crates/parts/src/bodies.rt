// The body of a rule of the part: the literals from one place of the job up to another. The contracts cite specs/Part and specs/Written.
ghost use Rattle.std.specs.Prelude.{◌≡◌, ◌∷◌, [], ◌<◌, ◌≤◌, length, IfSome};
ghost use Rattle.job.specs.Job.{claim_of};
ghost use Rattle.job.specs.Format.{literals};
ghost use Rattle.table.specs.Layout.{mark_word};
ghost use Rattle.writing.specs.Writes.{Writes, HasRoom};
ghost use Rattle.parts.specs.Part.{within, part_literals};
ghost use Rattle.parts.specs.Written.{literals_in, lowered as lowered_by, status_of, literal_bytes, with_own};

use crate::component::Component;
use fields::little_endian;
use job::{Literal, format};
use table::{literals, words as marks};
use writing::Writer;

// What a body is: one with a failing literal, one that stands with an undecided literal, one that stands with none.
#[derive(Clone, Copy, Debug, PartialEq, Eq)]
pub enum Status {
    Failed,
    Undecided,
    Decided,
}

// Whether the claim of a literal is in the part.
fn inside(place: &[u16], literal: Literal) -> bool
    requires { claim_of literal < length place.now }
    ensures { result ≡ within place.now literal }
{
    place[format::claim_of(literal)] != 0
}

// What a body is that was `state` before it met this literal.
fn lowered(table: &[u32], place: &[u16], literal: Literal, state: Status) -> Status
    requires { (claim_of literal < length place.now) × (mark_word (claim_of literal) < length table.now) }
    ensures { result ≡ lowered_by table.now place.now literal state }
{
    if inside(place, literal) {
        return state;
    }
    if literals::failed(table, literal) {
        return Status::Failed;
    }
    if marks::mark_at(table, format::claim_of(literal)) == marks::UNDEFINED_MARK {
        return Status::Undecided;
    }
    state
}

// What a body is.
pub fn status_of(part: &Component, from: usize, end: usize) -> Status
    requires { end ≤ literals part.now.job.now }
    ensures { result ≡ status_of part.now.table.now part.now.place.now (literals_in part.now.job.now from end) }
{
    let mut state = Status::Decided;
    for k in from..end {
        state = lowered(part.table, part.place, part.job.literal_at(k), state);
        if state == Status::Failed {
            return Status::Failed;
        }
    }
    state
}

// How many literals of a body are of claims in the part. A loop: in a filter's closure, what reading a literal requires is not proved.
pub fn count_within(part: &Component, from: usize, end: usize) -> usize
    requires { end ≤ literals part.now.job.now }
    ensures { (result ≡ length (part_literals part.now.place.now (literals_in part.now.job.now from end))) × (result ≤ literals part.now.job.now) }
{
    let mut n: usize = 0;
    for k in from..end {
        if inside(part.place, part.job.literal_at(k)) {
            n += 1;
        }
    }
    n
}

// A literal of a claim in the part, by its number there; nothing for another.
fn put_inside(place: &[u16], literal: Literal, out: &mut Writer)
    requires placed { claim_of literal < length place.now }
    requires room { HasRoom out.old (length (literal_bytes (part_literals place.now (literal ∷ [])))) }
    ensures { Writes out.old out.new (literal_bytes (part_literals place.now (literal ∷ []))) }
{
    let Some(number) = usize::from(place[format::claim_of(literal)]).checked_sub(1) else {
        return;
    };
    match literal {
        Literal::Plain(_) => little_endian::put_half(out, number),
        Literal::Negated(_) => little_endian::put_half(out, format::NEGATED + number),
    }
}

// The literals of a body that are of claims in the part.
fn put_within(part: &Component, from: usize, end: usize, out: &mut Writer)
    requires end { end ≤ literals part.now.job.now }
    requires room { HasRoom out.old (length (literal_bytes (part_literals part.now.place.now (literals_in part.now.job.now from end)))) }
    ensures { Writes out.old out.new (literal_bytes (part_literals part.now.place.now (literals_in part.now.job.now from end))) }
{
    for k in from..end {
        put_inside(part.place, part.job.literal_at(k), out);
    }
}

// These, and the negation of the part's claim `own`, if one is wanted.
pub fn put_body(part: &Component, own: Option<usize>, from: usize, end: usize, out: &mut Writer)
    requires fits { (end ≤ literals part.now.job.now) × IfSome own (λ i. i < 65536) }
    requires room { HasRoom out.old (length (literal_bytes (with_own own (part_literals part.now.place.now (literals_in part.now.job.now from end))))) }
    ensures { Writes out.old out.new (literal_bytes (with_own own (part_literals part.now.place.now (literals_in part.now.job.now from end)))) }
{
    put_within(part, from, end, out);
    if let Some(i) = own {
        little_endian::put_half(out, format::NEGATED + i);
    }
}
