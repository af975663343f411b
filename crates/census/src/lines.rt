// The lines of the table, written into a buffer. The contracts cite specs/Lines of the crate `rulesets`.
ghost use Rattle.std.specs.Prelude.{◌+◌, ◌≤◌, length};
ghost use Rattle.writing.specs.Written.{Put};
ghost use Rattle.writing.specs.Writes.{Writes, HasRoom};
ghost use Rattle.rulesets.specs.Census.{census_of};
ghost use Rattle.rulesets.specs.Lines.{before, census_line, handbook_table, LinesRight};

use rulesets::Counts;
use writing::Writer;

// Room for three lines.
pub const MOST_TEXT: usize = 315;

// A number with a byte behind it.
fn put_before(out: &mut Writer, b: u8, n: u64)
    requires { HasRoom out.old 21 }
    ensures { Writes out.old out.new (before b n) × (out.new.at ≤ out.old.at + 21) }
{
    out.put_number(n);
    out.put_byte(b);
}

// The line of five numbers.
fn put_line(out: &mut Writer, counts: Counts)
    requires { HasRoom out.old 105 }
    ensures { Writes out.old out.new (census_line counts) × (out.new.at ≤ out.old.at + 105) }
{
    put_before(out, b' ', counts.trues);
    put_before(out, b' ', counts.falses);
    put_before(out, b' ', counts.undefineds);
    put_before(out, b' ', counts.place);
    put_before(out, b'\n', counts.turns);
}

// The line of a size. A size from 1 to 3 is not refused.
fn put_size(out: &mut Writer, size: usize)
    requires size { (1 ≤ size) × (size ≤ 3) }
    requires room { HasRoom out.old 105 }
    ensures { Writes out.old out.new (census_line (census_of size)) × (out.new.at ≤ out.old.at + 105) }
{
    if let Ok(counts) = counting::census(size) {
        put_line(out, counts);
    }
}

// The lines of the sizes 1, 2 and 3.
fn put_lines(out: &mut Writer)
    requires { HasRoom out.old 315 }
    ensures { Writes out.old out.new handbook_table × (out.new.at ≤ out.old.at + 315) }
{
    put_size(out, 1);
    put_size(out, 2);
    put_size(out, 3);
}

// The table.
pub fn put_table(out: &mut [u8]) -> usize
    requires { 315 ≤ length out.old }
    ensures put { Put out.old 0 handbook_table out.new result × (result ≤ 315) }
    ensures lines_right { LinesRight }
{
    let mut table = Writer::new(out);
    put_lines(&mut table);
    table.at
}
