// Refusals 16, 17 and 18, each tried over the whole text in this order.
ghost use Rattle.std.specs.Prelude.{◌≤◌, ◌≡◌, length};
ghost use Rattle.syntax.specs.Parse.{power_of};
ghost use Rattle.syntax.specs.Rules.{exponent_rule, nesting_rule, power_within, text_rules};
ghost use Rattle.scanning.specs.Room.{room_after};

use crate::exponent::read_exponent;
use crate::shape::check_shape;
use records::answers::{Refusal, check_that, refuse};
use records::refusals::Reason;
use syntax::{BRACKET_CLOSES, BRACKET_OPENS, GROUP_CLOSES, GROUP_OPENS};

// The most bytes of a text.
pub const LONGEST_TEXT: usize = 256;

// How deep a text may nest.
pub const DEEPEST: usize = 8;

// How large an exponent may be, with a minus sign or without.
const LARGEST: usize = 63;

// Refusals 16, 17 and 18.
#[tactic(auto, unfolding(syntax::specs::Rules::text_rules))]
pub fn check_text(text: &[u8]) -> Result<(), Refusal>
    ensures { result ≡ text_rules text.now }
{
    let sized = check_that(text.len() <= LONGEST_TEXT, Reason::TextMalformed, 0);
    let Ok(()) = sized else {
        return sized;
    };
    let shaped = check_shape(text);
    let Ok(()) = shaped else {
        return shaped;
    };
    let nested = check_nesting(text);
    let Ok(()) = nested else {
        return nested;
    };
    check_exponents(text)
}

// Refusal 17, at the first sign that nests too deep.
fn check_nesting(text: &[u8]) -> Result<(), Refusal>
    requires { length text.now ≤ 256 }
    ensures { result ≡ nesting_rule 8 text.now 0 }
{
    let mut room = DEEPEST;
    for (i, &b) in text.iter().enumerate() {
        let Some(left) = room_after(b, room) else {
            return refuse(Reason::NestingTooDeep, i);
        };
        room = left;
    }
    Ok(())
}

// How many more signs may stand open after a byte than now, where so many may; none where it opens one too many.
fn room_after(b: u8, room: usize) -> Option<usize>
    requires { room ≤ 512 }
    ensures { result ≡ room_after b room }
{
    match b {
        GROUP_OPENS | BRACKET_OPENS => room.checked_sub(1),
        GROUP_CLOSES | BRACKET_CLOSES => Some(room + 1),
        _ => Some(room),
    }
}

// Refusal 18: at the caret of the first exponent out of range.
fn check_exponents(text: &[u8]) -> Result<(), Refusal>
    requires { length text.now ≤ 256 }
    ensures { result ≡ exponent_rule text.now 0 }
{
    for i in 0..text.len() {
        let checked = check_that(is_within(&text[i..]), Reason::ExponentOutOfRange, i);
        let Ok(()) = checked else {
            return checked;
        };
    }
    Ok(())
}

// Whether the exponent at the beginning of a text is in its range, where one stands there.
fn is_within(text: &[u8]) -> bool
    ensures { result ≡ power_within (power_of text.now) }
{
    read_exponent(text).is_none_or(|power| power.number <= LARGEST)
}
