// Digits: "any byte other than `0` to `9` and `a` to `f`" is refused.
ghost use Rattle.std.specs.Prelude.{◌≡◌, ◌<◌};
ghost use Rattle.rules.specs.Line.{all_digits, digit_of, digit_value, is_digit};
ghost use Rattle.fields.specs.Digits.{read_digit};

// The value of the digit that a byte of a line is, or none. A match with two ranges of bytes: document 01 asks for this form.
#[tactic(auto, using(crate::proofs::DigitLaws::byte_cases))]
fn read_digit(b: u8) -> Option<u8>
    ensures { result ≡ read_digit b }
{
    match b {
        b'0'..=b'9' => Some(b - 48),
        b'a'..=b'f' => Some(b - 87),
        _ => None,
    }
}

#[tactic(auto, using(crate::proofs::DigitLaws::digit_read))]
fn is_digit(b: u8) -> bool
    ensures { result ≡ is_digit b }
{
    read_digit(b).is_some()
}

// The value of a digit; 0 for a byte that is none, as the rules' `digit_value` has it: a line test refuses it before.
pub(crate) fn digit_value(b: u8) -> u64
    ensures { (result ≡ digit_value b) × (result < 16) }
{
    u64::from(read_digit(b).unwrap_or(0))
}

// The digit of a number below 16.
pub(crate) fn digit_of(v: u8) -> u8
    requires { v < 16 }
    ensures { result ≡ digit_of v }
{
    if v < 10 { 48 + v } else { 87 + v }
}

// Each byte is a digit.
pub fn all_digits(line: &[u8]) -> bool
    ensures { result ≡ all_digits line.now }
{
    line.iter().all(|b| is_digit(*b))
}
