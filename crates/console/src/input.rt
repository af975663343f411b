// Standard input, read to its end. std's `read_to_end` allocates, and its `read_exact` doesn't tell an end from a read that failed.
ghost use Rattle.std.specs.Prelude.{◌≡◌, ◌<◌, ◌≤◌, ℕ, List, ⊤, length, take, IfOk, OnErr, MatchResult};
ghost use Rattle.std.specs.declared.option.Option.{Option};
ghost use Rattle.std.specs.Io.{ReadsAtMost};
ghost use Rattle.std.specs.Io.KnownBytes.{Consumes, IsAtEnd, ReadConsumes};
ghost use Rattle.console.specs.Counts.{IsPrefixLen};

use std::io::{self, Read};

// The most bytes that a text, or a job with its record, may have.
pub const MOST_BYTES: usize = 1048576;

// One byte more, so that a longer input shows.
pub const ROOM: usize = MOST_BYTES + 1;

// Room for an input, in a function of its own: a main that writes the zeros out gets no proof, since the check runs out of stack.
pub fn room() -> [u8; ROOM]
    ensures { 1048577 ≡ length result }
{
    [0u8; ROOM]
}

// What bytes are read from. Every reader is one; when a read of it fails std doesn't say.
pub trait Source {
    // The bytes still to come, where they are known.
    ghost remaining: { Self → Option (List ℕ) };

    // What holds once a read failed.
    ghost failed: { Self → Type 0 };

    fn read_part(&mut self, part: &mut [u8]) -> io::Result<usize>
        ensures bound { ReadsAtMost result part.new }
        ensures bytes { ReadConsumes (remaining self.old) (remaining self.new) result part.new }
        ensures err { OnErr result (failed self.new) };
}

impl<R: Read> Source for R {
    ghost remaining = { R.remaining };

    ghost failed = { λ _. ⊤ };

    fn read_part(&mut self, part: &mut [u8]) -> io::Result<usize> {
        self.read(part)
    }
}

// A read failed; how many bytes were read before it.
#[derive(Clone, Copy, Debug, PartialEq, Eq)]
pub struct ReadError {
    pub length: usize,
}

// Reads up to the input's end, or the buffer's, or a read that fails. Where the reader's bytes are known, those at the start of the
// buffer are they in order, also before a read that fails, and none is left where no read failed and the buffer is not full.
pub fn read_input<R: Source>(reader: &mut R, buf: &mut [u8]) -> Result<usize, ReadError>
    ensures prefix_len { MatchResult result (λ n. IsPrefixLen n buf.new) (λ e. IsPrefixLen e.length buf.new) }
    ensures bytes { MatchResult result (λ n. Consumes (R.remaining reader.old) (R.remaining reader.new) (take n buf.new)) (λ e. Consumes (R.remaining reader.old) (R.remaining reader.new) (take e.length buf.new)) }
    ensures end { IfOk result (λ n. n < length buf.new → IsAtEnd (R.remaining reader.new)) }
    ensures failed { OnErr result (R.failed reader.new) }
{
    let mut done: usize = 0;
    while done < buf.len() {
        match reader.read_part(&mut buf[done..]) {
            Ok(0) => return Ok(done),
            Ok(count) => done += count,
            Err(_) => return Err(ReadError { length: done }),
        }
    }
    Ok(done)
}
