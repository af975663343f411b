// What is said on standard error: words, numbers, and parts of the text. No contract can say which bytes a call of the system writes,
// so a function that only writes words has none, here and in the modules above: it is safe, it ends, and a stored test holds its words.
ghost use Rattle.std.specs.Prelude.{◌≡◌};
ghost use Rattle.makejob.specs.Faults.{shown as shown_of};

use std::io::Stderr;

// The most bytes of a part that are shown.
const SHOWN: usize = 60;

// What standard error doesn't take is let go: there is nowhere else to say it.
pub(crate) fn say(err: Stderr, words: &[u8]) {
    let _ = err.write_all(words);
}

pub(crate) fn say_number(err: Stderr, number: usize) {
    let _ = err.print(number);
}

// `?` for a byte that can't be printed.
fn printable(b: u8) -> u8
    ensures { result ≡ shown_of b }
{
    match b {
        b' '..=b'~' => b,
        _ => b'?',
    }
}

// The first bytes of a part, and `..` where there are more.
pub(crate) fn say_part(err: Stderr, part: &[u8]) {
    let n = part.len().min(SHOWN);
    let mut shown = [0u8; SHOWN];
    for (place, &b) in shown.iter_mut().zip(part) {
        *place = printable(b);
    }
    say(err, &shown[..n]);
    if n < part.len() {
        say(err, b"..");
    }
}
