// What checks 1 to 8 found wrong with a job, in words. The contracts cite specs/Faults.
ghost use Rattle.std.specs.Prelude.{◌≡◌, ◌≤◌, length};
ghost use Rattle.console.specs.Counts.{IsPrefixLen};
ghost use Rattle.writing.specs.Written.{Put};
ghost use Rattle.console.specs.Faults.{fault_words, most_fault};

use crate::front;

// No words are longer.
pub const MOST_FAULT: usize = 80;

// The words of check `number`, of 1 to 8, up to the place.
#[tactic(auto, unfolding(crate::specs::Faults::fault_words, base::specs::Choose::pick))]
fn fault_words(number: u32) -> &'static [u8]
    ensures value { result.now ≡ fault_words number }
    ensures fits { length result.now ≤ most_fault }
{
    match number {
        1 => b"the job has under 36 or over 61,476 bytes; its length: ",
        2 => b"the first word is not the length of the job, which was cut or padded; byte ",
        3 => b"a count of the header is over its limit, or there are no workers; byte ",
        4 => b"an offset of the header, or its total, is not the sum of the counts; byte ",
        5 => b"the head of a rule is no claim of the job, or is below the head before it; byte ",
        6 => b"the bodies of the rules have more literals than the header says, or fewer; byte ",
        7 => b"a literal names no claim of the job; byte ",
        _ => b"a question names no worker or no claim of the job; byte ",
    }
}

// The words of check `number`, of 1 to 8, up to the place, at the start of the buffer; how many bytes they have.
pub fn put_fault(buf: &mut [u8], number: u32) -> usize
    requires { most_fault ≤ length buf.old }
    ensures put { Put buf.old 0 (fault_words number) buf.new result }
    ensures prefix_len { IsPrefixLen result buf.new }
{
    front::put_front(buf, fault_words(number))
}
