// One signed number, held in 16 bits, a negative one -x as 65,536 - x: its inverse and its absolute value, and the letter that it stands for.
ghost use Rattle.std.specs.Prelude.{◌≡◌};
ghost use Rattle.numbers.specs.Numbers.{absolute_value, flip_number, within_26, is_number, number_letter, letter_number};

// The inverse of a number.
pub fn flip(x: u16) -> u16
    ensures { result ≡ flip_number x }
{
    x.wrapping_neg()
}

// The absolute value of a number.
fn absolute_value(x: u16) -> u16
    ensures { result ≡ absolute_value x }
{
    x.min(flip(x))
}

// Whether a number may stand in a record before the zeros.
pub fn is_number(x: u16) -> bool
    ensures { result ≡ is_number x }
{
    (1..=1000).contains(&absolute_value(x))
}

// Whether a number is from -26 to 26.
pub fn within_26(x: u16) -> bool
    ensures { result ≡ within_26 x }
{
    absolute_value(x) <= 26
}

// The number of a letter.
pub fn letter_number(letter: u8) -> u16
    ensures { result ≡ letter_number letter }
{
    let place = u16::from(letter % 32);
    if letter >= 97 { place } else { flip(place) }
}

// The letter of a number within 26.
pub fn number_letter(x: u16) -> u8
    ensures { result ≡ number_letter x }
{
    if x <= 26 {
        96 + x as u8
    } else {
        64 + (flip(x) % 32) as u8
    }
}
