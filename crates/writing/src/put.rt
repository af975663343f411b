// Bytes. The contracts cite specs/Written.
ghost use Rattle.std.specs.Prelude.{◌∷◌, [], ◌+◌, ◌<◌, ◌≤◌, length};
ghost use Rattle.writing.specs.Written.{Put};

pub fn put_byte(buf: &mut [u8], at: usize, b: u8) -> usize
    requires { at < length buf.old }
    ensures { Put buf.old at (b ∷ []) buf.new result }
{
    buf[at] = b;
    at + 1
}

pub fn put_bytes(buf: &mut [u8], at: usize, s: &[u8]) -> usize
    requires { at + length s.now ≤ length buf.old }
    ensures { Put buf.old at s.now buf.new result }
{
    // No copy_from_slice: for the few bytes of most texts a call of memmove costs more than the loop.
    for (k, &b) in s.iter().enumerate() {
        buf[at + k] = b;
    }
    at + s.len()
}
