// Words at the start of a buffer.
ghost use Rattle.std.specs.Prelude.{◌≤◌, length};
ghost use Rattle.console.specs.Counts.{IsPrefixLen};
ghost use Rattle.writing.specs.Written.{Put};

use writing::put;

pub(crate) fn put_front(buf: &mut [u8], words: &[u8]) -> usize
    requires { length words.now ≤ length buf.old }
    ensures put { Put buf.old 0 words.now buf.new result }
    ensures prefix_len { IsPrefixLen result buf.new }
{
    put::put_bytes(buf, 0, words)
}
