// Row 15: each number is within its limit or below its count. The contracts cite specs/Numbering.
ghost use Rattle.std.specs.Prelude.{◌≡◌, ◌||◌};
ghost use Rattle.base.specs.Compare.{under, over, not_below};
ghost use Rattle.lines.specs.Numbering.{no_tally, counted_number, counted_with, faulty_number, faulty_with, Small, counted_all};

use crate::{Event, Slot, State, Tally, grammar};
use job::{Refusal, checks};

// The tally with one number more.
fn counted_number(tally: Tally, slot: Slot, number: usize) -> Tally
    requires { Small tally }
    ensures { result ≡ counted_number tally slot number }
{
    let mut t = tally;
    match slot {
        Slot::ClaimCount => t.claims = number,
        Slot::WorkerCount => t.workers = number,
        Slot::Head => t.rules += 1,
        Slot::Body | Slot::NotBody => t.literals += 1,
        Slot::Asker => {}
        Slot::Asked => t.questions += 1,
    }
    t
}

fn counted(tally: Tally, event: Event) -> Tally
    requires { Small tally }
    ensures { result ≡ counted_with tally event }
{
    match event {
        None => tally,
        Some((slot, number)) => counted_number(tally, slot, number),
    }
}

// Whether a count is past its limit, or a number is not below its bound.
fn past(count: usize, limit: usize, number: usize, bound: usize) -> bool
    ensures { result ≡ (over count limit || not_below number bound) }
{
    limit < count || bound <= number
}

fn no_workers(number: usize) -> bool
    ensures { result ≡ (under number 1 || over number 32) }
{
    number < 1 || checks::MOST_WORKERS < number
}

// Whether a number is past its limit or not below its count, or the tally with it is past a limit.
fn faulty_number(t: Tally, slot: Slot, number: usize) -> bool
    ensures { result ≡ faulty_number t slot number }
{
    let claims = t.claims;
    match slot {
        Slot::ClaimCount => checks::MOST_CLAIMS < number,
        Slot::WorkerCount => no_workers(number),
        Slot::Head => past(t.rules, checks::MOST_RULES, number, claims),
        Slot::Body | Slot::NotBody => past(t.literals, checks::MOST_LITERALS, number, claims),
        Slot::Asker => t.workers <= number,
        Slot::Asked => past(t.questions, checks::MOST_QUESTIONS, number, claims),
    }
}

fn faulty(tally: Tally, event: Event) -> bool
    ensures { result ≡ faulty_with tally event }
{
    event.is_some_and(|(slot, number)| faulty_number(tally, slot, number))
}

// The text's numbers in turn, up to the first fault: what they count.
pub fn count_numbers(text: &[u8]) -> Result<Tally, Refusal>
    ensures { result ≡ counted_all text.now }
{
    let mut state = State::FirstLine;
    let mut number: usize = 0;
    let mut tally = Tally::default();
    let mut line: usize = 0;
    for &b in text {
        line += grammar::starts_line(state);
        let event = grammar::event(state, number, b);
        let next = counted(tally, event);
        if faulty(next, event) {
            return Err(Refusal {
                number: 15,
                place: line,
            });
        }
        tally = next;
        number = grammar::with_digit(number, b);
        state = grammar::step(state, b);
    }
    Ok(tally)
}
