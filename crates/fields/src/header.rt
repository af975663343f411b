// The header of a job. The contract cites specs/Header.
ghost use Rattle.std.specs.Prelude.{◌<◌};
ghost use Rattle.job.specs.Format.{question_byte};
ghost use Rattle.writing.specs.Writes.{Writes, HasRoom};
ghost use Rattle.fields.specs.Header.{header_of};

use crate::little_endian;
use writing::Writer;

// The counts of a job: claims, rules, literals, workers, questions.
#[derive(Clone, Copy, Debug, PartialEq, Eq)]
pub struct Counts {
    pub claims: usize,
    pub rules: usize,
    pub literals: usize,
    pub workers: usize,
    pub questions: usize,
}

// The nine words of a job with these counts.
pub fn put_header(out: &mut Writer, counts: Counts)
    requires size { question_byte counts.rules counts.literals counts.questions < 18446744073709551616 }
    requires room { HasRoom out.old 36 }
    ensures { Writes out.old out.new (header_of counts.claims counts.rules counts.literals counts.workers counts.questions) }
{
    let literals_at = 36 + 4 * counts.rules;
    let questions_at = literals_at + 2 * counts.literals;
    let total = questions_at + 4 * counts.questions;
    little_endian::put_words(out, total, counts.claims, counts.rules);
    little_endian::put_words(out, counts.literals, counts.workers, counts.questions);
    little_endian::put_words(out, 36, literals_at, questions_at);
}
