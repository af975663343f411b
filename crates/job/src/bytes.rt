// Little-endian numbers in a slice of bytes. The contracts cite specs/Bytes.
ghost use Rattle.std.specs.Prelude.{◌+◌, ◌≤◌, length};
ghost use Rattle.base.specs.Number.{Number};
ghost use Rattle.job.specs.Bytes.{half as half_of, word as word_of};

// The 16 bits at a byte.
pub fn half(s: &[u8], at: usize) -> usize
    requires { at + 2 ≤ length s.now }
    ensures { Number result (half_of s.now at) 65536 }
{
    usize::from(s[at]) + 256 * usize::from(s[at + 1])
}

// The 32 bits at a byte.
pub fn word(s: &[u8], at: usize) -> usize
    requires { at + 4 ≤ length s.now }
    ensures { Number result (word_of s.now at) 4294967296 }
{
    half(s, at) + 65536 * half(s, at + 2)
}
