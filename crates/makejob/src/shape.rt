// How far a line fits what may stand there, by the machine that reads a text. The contracts cite specs/Faults.
ghost use Rattle.std.specs.Prelude.{◌≡◌, ◌≤◌, length};
ghost use Rattle.base.specs.Choose.{pick};
ghost use Rattle.makejob.specs.Faults.{reach_of};

use lines::{State, grammar};

// What fits ends before byte `at`; whole where only the line feed is to come. `at` counts either way, so this is no Option.
#[derive(Clone, Copy, Debug, PartialEq, Eq)]
pub struct Reach {
    pub at: usize,
    pub whole: bool,
}

// A line behind a question too starts as any: `sort` tells a rule there.
fn start_of(first: bool) -> State
    ensures { result ≡ pick first State.FirstLine State.AnyLine }
{
    if first {
        State::FirstLine
    } else {
        State::AnyLine
    }
}

pub fn reach_of(line: &[u8], first: bool) -> Reach
    ensures value { result ≡ reach_of first line.now }
    ensures within { result.at ≤ length line.now }
{
    let mut state = start_of(first);
    for (i, &b) in line.iter().enumerate() {
        let next = grammar::step(state, b);
        if grammar::is_bad(next) {
            return Reach {
                at: i,
                whole: false,
            };
        }
        state = next;
    }
    Reach {
        at: line.len(),
        whole: !grammar::is_bad(grammar::step(state, b'\n')),
    }
}
