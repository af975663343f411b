// Sets of claims, a byte a claim: a claim is in the set where its byte is not 0. The contracts cite specs/Sets.
ghost use Rattle.std.specs.Prelude.{◌≡◌, ℕ, get_or};
ghost use Rattle.base.specs.Sets.{set_of};

// Whether the set has claim c; a claim past its bytes is not in it.
pub fn member(w: &[u8], c: usize) -> bool
    ensures { result ≡ set_of w.now c }
{
    if c < w.len() { w[c] != 0 } else { false }
}

// Makes the set empty.
pub fn clear(w: &mut [u8])
    ensures { (c : ℕ) → get_or w.new c 0 ≡ 0 }
{
    w.fill(0);
}
