// The bytes of verdicts, by the sets K and U. The contracts cite specs/Output and specs/Judged.
ghost use Rattle.std.specs.Prelude.{◌≡◌, ◌≤◌, length};
ghost use Rattle.base.specs.Sets.{set_of};
ghost use Rattle.semantics.specs.Model.{judge, byte_of};
ghost use Rattle.model.specs.Output.{judged_output};
ghost use Rattle.model.specs.Judged.{judged};

use base::byte_sets;

// A claim's verdict. Its number is its byte (semantics/specs/Model: byte_of).
#[derive(Clone, Copy, Debug, PartialEq, Eq)]
enum Verdict {
    True = 1,
    False = 2,
    Undefined = 3,
}

impl From<Verdict> for u8 {
    ghost from_gives = { λ verdict byte. byte ≡ byte_of (judged verdict) };

    fn from(verdict: Verdict) -> u8 {
        verdict as u8
    }
}

// The verdict of claim c, by K and U.
fn verdict_of(k: &[u8], u: &[u8], c: usize) -> Verdict
    ensures { judged result ≡ judge (set_of k.now c) (set_of u.now c) }
{
    if byte_sets::member(k, c) {
        Verdict::True
    } else if byte_sets::member(u, c) {
        Verdict::Undefined
    } else {
        Verdict::False
    }
}

// Writes the verdicts that K and U give, a byte a claim, and nothing after them.
pub fn write(k: &[u8], u: &[u8], out: &mut [u8])
    requires { length k.now ≤ length out.old }
    ensures { out.new ≡ judged_output (set_of k.now) (set_of u.now) (length k.now) out.old }
{
    let claims = k.len();
    for (c, byte) in out[..claims].iter_mut().enumerate() {
        *byte = verdict_of(k, u, c).into();
    }
}
