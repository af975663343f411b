// The names of values in a listing. The contracts cite specs/Text.
ghost use Rattle.std.specs.Prelude.{◌≡◌, ◌≤◌, length};
ghost use Rattle.listing.specs.Text.{name_of};

use table::Reading;

// The name of the value that a reading shows.
pub fn name_of(reading: Reading) -> &'static [u8]
    ensures value { result.now ≡ name_of reading }
    ensures few { length result.now ≤ 9 }
{
    match reading {
        Reading::Fresh | Reading::Open => b"unopened",
        Reading::True => b"true",
        Reading::False => b"false",
        Reading::Undefined => b"undefined",
    }
}
