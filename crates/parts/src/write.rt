// The part written: header, rule records, literals. The contracts cite specs/Part and specs/Written.
ghost use Rattle.std.specs.Prelude.{◌≤◌, length};
ghost use Rattle.job.specs.Encoding.{encode};
ghost use Rattle.writing.specs.Written.{Put};
ghost use Rattle.writing.specs.Writes.{Writes, HasRoom};
ghost use Rattle.parts.specs.Written.{part_of, part_texts};

use crate::claim::Section::{Literals, Records};
use crate::claim::{self, Section};
use crate::component::Component;
use fields::header::{self, Counts};
use job::Job;
use writing::Writer;

// Where the rule records stand.
const RECORDS_AT: usize = 36;

// The rules of all members: their records, or else their literals.
fn put_claims(part: &Component, section: Section, out: &mut Writer)
    requires { HasRoom out.old (length (part_texts section part.now.job.now part.now.table.now part.now.place.now part.now.members.now)) }
    ensures { Writes out.old out.new (part_texts section part.now.job.now part.now.table.now part.now.place.now part.now.members.now) }
{
    // A job, a part and a writer of its own, so that their fields need not be read again for each literal.
    let job = Job::of_accepted(part.job.bytes());
    let part = Component {
        job: &job,
        index: part.index,
        table: part.table,
        place: part.place,
        members: part.members,
    };
    let mut texts = Writer {
        buf: out.buf,
        at: out.at,
    };
    for (i, &member) in part.members.iter().enumerate() {
        claim::put_claim(&part, i, usize::from(member), section, &mut texts);
    }
    out.at = texts.at;
}

// The part, of one worker and no questions; its length. The counts of rules and literals are known once these are written.
pub fn put_part(part: &Component, out: &mut [u8]) -> usize
    requires { length (encode (part_of part.now.job.now part.now.table.now part.now.place.now part.now.members.now)) ≤ length out.old }
    ensures { Put out.old 0 (encode (part_of part.now.job.now part.now.table.now part.now.place.now part.now.members.now)) out.new result }
{
    let mut rules = Writer {
        buf: out,
        at: RECORDS_AT,
    };
    put_claims(part, Records, &mut rules);
    let literals_at = rules.at;
    put_claims(part, Literals, &mut rules);
    let end = rules.at;
    let counts = Counts {
        claims: part.members.len(),
        rules: (literals_at - RECORDS_AT) / 4,
        literals: (end - literals_at) / 2,
        workers: 1,
        questions: 0,
    };
    header::put_header(&mut Writer::new(out), counts);
    end
}
