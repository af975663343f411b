// The tally of a run: how many turns were of each kind. The contracts cite `counted` of specs/Calls.
ghost use Rattle.std.specs.Prelude.{◌≡◌, ℕ, ◌+◌, ◌<◌, get_or, set};
ghost use Rattle.turn.specs.Turn.{kind_number};

use turn::Kind;

// The number of a kind. No `From`: neither type is of this crate.
pub fn kind_number(kind: Kind) -> usize
    ensures { (result ≡ kind_number kind) × (result < 8) }
{
    kind as usize
}

// The tally with one more turn of this kind.
pub fn counted(counts: [u64; 8], kind: Kind) -> [u64; 8]
    requires { (i : ℕ) → get_or counts i 0 < 18446744073709551615 }
    ensures { result ≡ set counts (kind_number kind) (get_or counts (kind_number kind) 0 + 1) }
{
    let mut next = counts;
    next[kind_number(kind)] += 1;
    next
}
