// What the record of a run is, what a recorded run and a replay answer and leave, and what they promise (specs/ and proofs/). Of code only why a replay stops.
#![tactic(auto)]

ghost use Rattle.std.specs.Prelude.{◌≡◌, replicate};

use job::Refusal;

// Why a replay stops: its refusal, and how many turns of each kind it made, which are none but at a false pair (row 24): there those before the pair.
#[derive(Clone, Copy, Debug, PartialEq, Eq)]
pub struct Stopped {
    pub refusal: Refusal,
    pub tally: [u64; 8],
}

impl From<Refusal> for Stopped {
    ghost from_gives = { λ refusal stopped. stopped ≡ record { refusal = refusal; tally = replicate 8 0 } };

    fn from(refusal: Refusal) -> Self {
        Stopped {
            refusal,
            tally: [0; 8],
        }
    }
}
