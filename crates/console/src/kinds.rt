// The kind of a turn, in a word. The contracts cite specs/Kinds. A kind has its number here, since a byte of a record may be the number of none.
ghost use Rattle.std.specs.Prelude.{◌≡◌, ◌≤◌, length};
ghost use Rattle.console.specs.Counts.{IsPrefixLen};
ghost use Rattle.writing.specs.Written.{Put};
ghost use Rattle.console.specs.Kinds.{kind_word, most_kind};

use crate::front;

// No word is longer.
pub const MOST_KIND: usize = 9;

// The word of the kind with this number.
#[tactic(auto, unfolding(crate::specs::Kinds::kind_word, base::specs::Choose::pick))]
fn kind_word(number: usize) -> &'static [u8]
    ensures value { result.now ≡ kind_word number }
    ensures fits { length result.now ≤ most_kind }
{
    match number {
        0 => b"idle",
        1 => b"woke",
        2 => b"opened",
        3 => b"waits",
        4 => b"took",
        5 => b"passed",
        6 => b"completed",
        7 => b"answered",
        _ => b"no kind",
    }
}

// The word of the kind with this number, at the start of the buffer; how many bytes it has.
pub fn put_kind(buf: &mut [u8], number: usize) -> usize
    requires { most_kind ≤ length buf.old }
    ensures put { Put buf.old 0 (kind_word number) buf.new result }
    ensures prefix_len { IsPrefixLen result buf.new }
{
    front::put_front(buf, kind_word(number))
}
