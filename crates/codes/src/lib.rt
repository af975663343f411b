// The answers of calls as one number each, for programs in other languages (specs/Numbers).
#![tactic(auto)]

ghost use Rattle.std.specs.Prelude.{◌≡◌};
ghost use Rattle.codes.specs.Numbers.{of_refusal, of_answer, in_halves};

use job::Refusal;

// A refusal of a call that writes bytes: 2^63 + number · 2^56 + place.
pub fn of_refusal(refusal: Refusal) -> u64
    ensures { result ≡ of_refusal refusal }
{
    9223372036854775808
        + u64::from(refusal.number % 128) * 72057594037927936
        + (refusal.place % 72057594037927936) as u64
}

// How many bytes were written, or the refusal.
pub fn of_written(answer: Result<usize, Refusal>) -> u64
    ensures { result ≡ of_answer answer }
{
    match answer {
        Ok(length) => length as u64,
        Err(refusal) => of_refusal(refusal),
    }
}

// A refusal of the other calls: 2^63 + place for number 1, whose place is a length, else number · 2^32 + place.
pub fn in_halves(refusal: Refusal) -> u64
    ensures { result ≡ in_halves refusal }
{
    if refusal.number == 1 {
        return 9223372036854775808 + (refusal.place % 9223372036854775808) as u64;
    }
    u64::from(refusal.number % 16) * 4294967296 + (refusal.place % 4294967296) as u64
}
