// The number that a field of a line holds: one definition over the width reads every field.
ghost use Rattle.std.specs.Prelude.{◌≡◌, ◌≤◌, length};
ghost use Rattle.rules.specs.Line.{digits_at};
ghost use Rattle.fields.specs.Held.{ends_by, field_of, held_field, holds_field};

use crate::digits::digit_value;

// Whether `size` places from `at` on end at `end` or before. The sum is not made, since it might not fit.
#[tactic(auto, using(crate::proofs::FieldLaws::ends_room, crate::proofs::FieldLaws::ends_short))]
pub(crate) fn ends_by(at: usize, size: usize, end: usize) -> bool
    ensures { result ≡ ends_by at size end }
{
    size <= end && at <= end - size
}

// Whether the line holds a field of `width` bytes, at most 8, at byte `at`: three arguments, as `field_at` is asked.
#[tactic(auto, using(crate::proofs::FieldLaws::holds_wide, crate::proofs::FieldLaws::holds_ends))]
fn holds(line: &[u8], at: usize, width: usize) -> bool
    ensures { result ≡ holds_field line.now at width }
{
    width <= 8 && ends_by(at, width, line.len() / 2)
}

// The number of at most 16 digits.
fn number(digits: &[u8]) -> u64
    requires { length digits.now ≤ 16 }
    ensures { result ≡ digits_at digits.now 0 (length digits.now) }
{
    let mut v: u64 = 0;
    for d in digits {
        v = v * 16 + digit_value(*d);
    }
    v
}

// The field of `width` bytes that begins at byte `at`; none where it has more than 8 bytes or the line does not hold it.
pub(crate) fn field(line: &[u8], at: usize, width: usize) -> Option<u64>
    ensures { result ≡ field_of line.now at width }
{
    if !holds(line, at, width) {
        return None;
    }
    Some(number(&line[2 * at..2 * (at + width)]))
}

// That field, and 0 where there is none: a number and no Option, as `held_field` has it, by which the programs above read a line.
#[tactic(auto, using(crate::proofs::FieldLaws::field_or_zero))]
pub fn field_at(line: &[u8], at: usize, width: usize) -> u64
    ensures { result ≡ held_field line.now at width }
{
    field(line, at, width).unwrap_or(0)
}
