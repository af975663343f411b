// Fields of 16 and 32 bits. The contracts cite job/specs/Encoding.
ghost use Rattle.std.specs.Prelude.{◌++◌};
ghost use Rattle.job.specs.Encoding.{half_bytes, word_bytes};
ghost use Rattle.writing.specs.Writes.{Writes, HasRoom};

use writing::Writer;

// 16 bits, little-endian.
pub fn put_half(out: &mut Writer, x: usize)
    requires { HasRoom out.old 2 }
    ensures { Writes out.old out.new (half_bytes x) }
{
    out.put_byte((x % 256) as u8);
    out.put_byte((x / 256 % 256) as u8);
}

// 32 bits, little-endian.
pub fn put_word(out: &mut Writer, x: usize)
    requires { HasRoom out.old 4 }
    ensures { Writes out.old out.new (word_bytes x) }
{
    put_half(out, x);
    put_half(out, x / 65536);
}

pub fn put_words(out: &mut Writer, x: usize, y: usize, z: usize)
    requires { HasRoom out.old 12 }
    ensures { Writes out.old out.new (word_bytes x ++ word_bytes y ++ word_bytes z) }
{
    put_word(out, x);
    put_word(out, y);
    put_word(out, z);
}
