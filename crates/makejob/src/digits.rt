// The numbers of a line. The contracts cite specs/Pieces.
ghost use Rattle.std.specs.Prelude.{◌≡◌, ◌&&◌, ℕ, ◌<◌, ◌≤◌, true, false, length, slice_index, option_copied};
ghost use Rattle.base.specs.Compare.{under, not_below};
ghost use Rattle.lines.specs.Grammar.{is_digit};
ghost use Rattle.makejob.specs.Pieces.{number_in, behind_number, value_from, first_past};

use lines::grammar;

// How many bytes of a line stand before its first digit.
fn before_digit(line: &[u8]) -> usize
    ensures fits { result ≤ length line.now }
    ensures before { (k : ℕ) → k < result → is_digit (slice_index line.now k) ≡ false }
    ensures found { result < length line.now → is_digit (slice_index line.now result) ≡ true }
{
    line.iter()
        .position(|&b| grammar::is_digit(b))
        .unwrap_or(line.len())
}

// How many digits a line starts with.
fn leading_digits(line: &[u8]) -> usize
    ensures fits { result ≤ length line.now }
    ensures before { (k : ℕ) → k < result → is_digit (slice_index line.now k) ≡ true }
    ensures found { result < length line.now → is_digit (slice_index line.now result) ≡ false }
{
    line.iter()
        .position(|&b| !grammar::is_digit(b))
        .unwrap_or(line.len())
}

// The digits of a line's first number, and what stands behind them; no digits where the line has none.
pub fn next(line: &[u8]) -> (&[u8], &[u8])
    ensures digits { result.0.now ≡ number_in line.now }
    ensures behind { result.1.now ≡ behind_number line.now }
{
    let from = &line[before_digit(line)..];
    from.split_at(leading_digits(from))
}

// 65,536, which is past every limit, stands for what is above it.
pub fn value(digits: &[u8]) -> usize
    ensures value { result ≡ value_from 0 digits.now }
    ensures most { result ≤ 65536 }
{
    let mut value: usize = 0;
    for &b in digits {
        value = grammar::with_digit(value, b);
    }
    value
}

// Whether there are digits, of a number that is not below the bound.
fn is_past(digits: &[u8], bound: usize) -> bool
    ensures { result ≡ (under 0 (length digits.now) && not_below (value_from 0 digits.now) bound) }
{
    !digits.is_empty() && bound <= value(digits)
}

// The digits of the first number that is not below the bound.
pub fn first_past(line: &[u8], bound: usize) -> Option<&[u8]>
    ensures { option_copied result ≡ first_past line.now bound }
{
    let mut rest = line;
    while !rest.is_empty() {
        let (digits, behind) = next(rest);
        if is_past(digits, bound) {
            return Some(digits);
        }
        rest = behind;
    }
    None
}
