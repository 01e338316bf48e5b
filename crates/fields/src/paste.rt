// A number written as a field into a lent output.
ghost use Rattle.std.specs.Prelude.{◌≡◌, length};
ghost use Rattle.rules.specs.Line.{digits};
ghost use Rattle.fields.specs.Pasted.{put_field};

use crate::digits::digit_of;
use crate::number::ends_by;

// Fills the places with the last digits of `value`, the highest first.
fn put_digits(places: &mut [u8], value: u64)
    ensures { places.new ≡ digits (length places.old) value }
{
    let mut v = value;
    for i in (0..places.len()).rev() {
        // a remainder below 16, so the cast loses nothing
        places[i] = digit_of((v % 16) as u8);
        v /= 16;
    }
}

// Writes `value` as `width` bytes at the place `at`; the rest keeps what it held. Where the field has more than 8 bytes or the output has no
// room for it, nothing is written.
pub fn put_field(out: &mut [u8], at: usize, width: usize, value: u64)
    ensures { out.new ≡ put_field out.old at width value }
{
    if width <= 8 && ends_by(at, 2 * width, out.len()) {
        put_digits(&mut out[at..at + 2 * width], value);
    }
}
