// The rules of one claim of the part, in one walk over those of the job: their records, or else their literals. The contracts cite specs/Part
// and specs/Written.
ghost use Rattle.std.specs.Prelude.{◌≡◌, ◌++◌, ◌<◌, length};
ghost use Rattle.job.specs.Encoding.{half_bytes};
ghost use Rattle.job.specs.Format.{claims as claims_of, rules as rules_of, body_start, rule_at, job_of};
ghost use Rattle.writing.specs.Writes.{Writes, HasRoom};
ghost use Rattle.parts.specs.Part.{part_rule, claim_rules};
ghost use Rattle.parts.specs.Written.{texts_of, First};

use crate::bodies::{self, Status};
use crate::component::Component;
use fields::little_endian;
use job::{Job, format};
use writing::Writer;

// What a walk over the rules writes: their records, or their literals.
#[derive(Clone, Copy, Debug, PartialEq, Eq)]
pub enum Section {
    Records,
    Literals,
}

// The first rule whose head is not below the claim: heads never fall.
fn first_rule(job: &Job, claim: usize) -> usize
    ensures { First job.now claim result }
{
    let mut low: usize = 0;
    let mut high = job.rule_count();
    while low < high {
        let middle = (low + high) / 2;
        if job.head_at(middle) < claim {
            low = middle + 1;
        } else {
            high = middle;
        }
    }
    low
}

// A rule's record: head and body length.
fn put_record(out: &mut Writer, head: usize, size: usize)
    requires { HasRoom out.old 4 }
    ensures { Writes out.old out.new (half_bytes head ++ half_bytes size) }
{
    little_endian::put_half(out, head);
    little_endian::put_half(out, size);
}

// Rule r of the job, whose literals start at `from`, as one of the part's claim i: its record, or else its literals; nothing where it has failed.
fn put_rule(part: &Component, i: usize, r: usize, from: usize, section: Section, out: &mut Writer)
    requires counts { (r < rules_of part.now.job.now) × (from ≡ body_start part.now.job.now r) × (i < 65536) }
    requires room { HasRoom out.old (length (texts_of section (part_rule part.now.table.now part.now.place.now i (rule_at part.now.job.now (rules_of part.now.job.now) r)))) }
    ensures { Writes out.old out.new (texts_of section (part_rule part.now.table.now part.now.place.now i (rule_at part.now.job.now (rules_of part.now.job.now) r))) }
{
    if part.job.missing_at(r) {
        match section {
            Section::Records => put_record(out, i, format::MISSING),
            Section::Literals => {}
        }
        return;
    }
    let end = from + part.job.body_length_at(r);
    let own = match bodies::status_of(part, from, end) {
        Status::Failed => return,
        Status::Undecided => Some(i),
        Status::Decided => None,
    };
    match section {
        Section::Records => {
            let n = bodies::count_within(part, from, end);
            put_record(out, i, n + usize::from(own.is_some()));
        }
        Section::Literals => bodies::put_body(part, own, from, end, out),
    }
}

// All rules of the part's claim i, which is this claim in the job.
pub fn put_claim(part: &Component, i: usize, claim: usize, section: Section, out: &mut Writer)
    requires counts { (claim < claims_of part.now.job.now) × (i < 65536) }
    requires room { HasRoom out.old (length (texts_of section (claim_rules part.now.table.now part.now.place.now i claim (job_of part.now.job.now).rules))) }
    ensures { Writes out.old out.new (texts_of section (claim_rules part.now.table.now part.now.place.now i claim (job_of part.now.job.now).rules)) }
{
    let job = part.job;
    let mut from = job.cursor(part.index, claim, 0).at;
    let rules = job.rule_count();
    for r in first_rule(job, claim)..rules {
        if job.head_at(r) != claim {
            return;
        }
        put_rule(part, i, r, from, section, out);
        from += job.body_length_at(r);
    }
}
