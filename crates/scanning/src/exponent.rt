// The power after a factor, read from the left.
ghost use Rattle.std.specs.Prelude.{◌-◌, ◌≤◌, ◌≡◌};
ghost use Rattle.scanning.specs.Exponents.{digits_exponent, exponent_of};

use syntax::{CARET, MINUS};

// A power as it is written: whether it has a minus sign, its number, and how many bytes it has.
#[derive(Clone, Copy)]
pub struct Exponent {
    pub minus: bool,
    pub number: usize,
    pub used: usize,
}

// The power at the beginning of a text, if one stands there.
pub fn read_exponent(text: &[u8]) -> Option<Exponent>
    ensures { result ≡ exponent_of text.now }
{
    match text {
        [CARET, MINUS, digits @ ..] => Some(read_digits(digits, true, 2)),
        [CARET, _, ..] => Some(read_digits(&text[1..], false, 1)),
        _ => None,
    }
}

// One or two digits at the beginning of a text, after so many bytes of a power.
fn read_digits(text: &[u8], minus: bool, before: usize) -> Exponent
    requires { before ≤ 2 }
    ensures { result ≡ digits_exponent minus before text.now }
{
    let (number, size) = match text {
        [tens, ones @ b'0'..=b'9', ..] => (
            usize::from(tens.saturating_sub(b'0')) * 10 + usize::from(*ones - b'0'),
            2,
        ),
        [only, ..] => (usize::from(only.saturating_sub(b'0')), 1),
        [] => (0, 0),
    };
    let used = before + size;
    Exponent {
        minus,
        number,
        used,
    }
}
