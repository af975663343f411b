// A buffer that the caller lends, and the place behind what is written into it. The contracts cite specs/Writes, and specs/Decimal for numbers.
ghost use Rattle.std.specs.Prelude.{◌≡◌, ◌∷◌, [], length};
ghost use Rattle.writing.specs.Decimal.{decimal};

use crate::{number, put};

#[derive(Drop)]
pub struct Writer<'a> {
    pub buf: &'a mut [u8],
    pub at: usize,
}

impl<'a> Writer<'a> {
    ghost use Rattle.writing.specs.Writes.{Writes, HasRoom};

    // Nothing is written yet.
    pub fn new(buf: &'a mut [u8]) -> Writer<'a>
        ensures same_buffer { result.buf.ghost_name ≡ buf.entry.ghost_name }
        ensures bytes { result.buf.now ≡ buf.old }
        ensures at { result.at ≡ 0 }
    {
        Writer { buf, at: 0 }
    }

    pub fn put_byte(&mut self, b: u8)
        requires { HasRoom self.old 1 }
        ensures { Writes self.old self.new (b ∷ []) }
    {
        self.at = put::put_byte(self.buf, self.at, b);
    }

    pub fn put_bytes(&mut self, s: &[u8])
        requires { HasRoom self.old (length s.now) }
        ensures { Writes self.old self.new s.now }
    {
        self.at = put::put_bytes(self.buf, self.at, s);
    }

    // In decimal.
    pub fn put_number(&mut self, n: u64)
        requires { HasRoom self.old (length (decimal n)) }
        ensures { Writes self.old self.new (decimal n) }
    {
        self.at = number::put_number(self.buf, self.at, n);
    }
}
