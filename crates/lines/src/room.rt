// Rows 14, 15 and 16 together, each over the whole text before the next. The contracts cite specs/Room.
ghost use Rattle.std.specs.Prelude.{◌≡◌, IfOk, Ok};
ghost use Rattle.lines.specs.Answer.{check_of};
ghost use Rattle.lines.specs.Numbering.{Small, counted_all};
ghost use Rattle.lines.specs.Room.{tally_size, room_row, check_counts, check_text};

use crate::{Tally, fits, numbers};
use job::{Check, Refusal};

// The bytes that a job needs.
pub fn job_bytes(t: Tally) -> usize
    requires { Small t }
    ensures { result ≡ tally_size t }
{
    36 + 4 * t.rules + 2 * t.literals + 4 * t.questions
}

fn check_room(room: usize, t: Tally) -> Check
    requires { Small t }
    ensures { result ≡ room_row room t }
{
    let needed = job_bytes(t);
    if room < needed {
        return Err(Refusal {
            number: 16,
            place: needed,
        });
    }
    Ok(())
}

// Rows 15 and 16: what was counted.
fn check_counts(text: &[u8], room: usize) -> Result<Tally, Refusal>
    ensures check { check_of result ≡ check_counts text.now room }
    ensures tally { IfOk result (λ t. counted_all text.now ≡ Ok t) }
{
    let tally = numbers::count_numbers(text)?;
    check_room(room, tally)?;
    Ok(tally)
}

// The checks of a text for an output of `room` bytes: what was counted.
pub fn check_lines(text: &[u8], room: usize) -> Result<Tally, Refusal>
    ensures check { check_of result ≡ check_text text.now room }
    ensures tally { IfOk result (λ t. counted_all text.now ≡ Ok t) }
{
    fits::check_fit(text)?;
    check_counts(text, room)
}
