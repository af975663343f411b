// Numbers in decimal. The contracts cite specs/Decimal and specs/Written.
ghost use Rattle.std.specs.Prelude.{◌≡◌, ◌+◌, ◌≤◌, length};
ghost use Rattle.writing.specs.Decimal.{decimal};
ghost use Rattle.writing.specs.Written.{Put};

// How many digits n has in decimal.
fn digits(n: u64) -> usize
    ensures { result ≡ length (decimal n) }
{
    let mut k = 1;
    let mut rest = n;
    while rest >= 10 {
        rest /= 10;
        k += 1;
    }
    k
}

// The digits from the last to the first.
pub fn put_number(buf: &mut [u8], at: usize, n: u64) -> usize
    requires { at + length (decimal n) ≤ length buf.old }
    ensures { Put buf.old at (decimal n) buf.new result }
{
    let end = at + digits(n);
    let mut i = end;
    let mut rest = n;
    while rest >= 10 {
        i -= 1;
        buf[i] = 48 + (rest % 10) as u8;
        rest /= 10;
    }
    buf[at] = 48 + rest as u8;
    end
}
