// The lines of a text, numbered from 1. The contracts cite specs/Pieces.
ghost use Rattle.std.specs.Prelude.{◌≡◌, ◌≢◌, ℕ, ◌<◌, ◌≤◌, length, slice_index, get_or};
ghost use Rattle.makejob.specs.Pieces.{behind_feed, from_line, line_of, has_feed};

// How many bytes stand before the first line feed.
fn before_feed(text: &[u8]) -> usize
    ensures fits { result ≤ length text.now }
    ensures before { (k : ℕ) → k < result → slice_index text.now k ≢ 10 }
    ensures found { result < length text.now → slice_index text.now result ≡ 10 }
{
    text.iter().position(|&b| b == b'\n').unwrap_or(text.len())
}

// What stands behind the first line feed; nothing where there is none.
fn behind_feed(text: &[u8]) -> &[u8]
    ensures { result.now ≡ behind_feed text.now }
{
    let end = before_feed(text);
    if end < text.len() {
        &text[end + 1..]
    } else {
        &[]
    }
}

// The text from a line on; nothing where it has fewer lines.
fn from_line(text: &[u8], line: usize) -> &[u8]
    ensures { result.now ≡ from_line text.now line }
{
    let mut rest = text;
    for _ in 1..line {
        rest = behind_feed(rest);
    }
    rest
}

// A line's bytes, without its line feed.
pub fn line_of(text: &[u8], line: usize) -> &[u8]
    ensures { result.now ≡ line_of text.now line }
{
    let from = from_line(text, line);
    &from[..before_feed(from)]
}

pub fn has_line_feed(text: &[u8], line: usize) -> bool
    ensures { result ≡ has_feed text.now line }
{
    from_line(text, line).contains(&b'\n')
}

// 0 where a line has no byte.
pub fn first_byte(line: &[u8]) -> u8
    ensures { result ≡ get_or line.now 0 0 }
{
    line.first().copied().unwrap_or(0)
}
