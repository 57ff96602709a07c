// Refusal 16: a scan from the left that keeps what was read last and which signs are open.
ghost use Rattle.std.specs.Prelude.{◌+◌, ◌<◌, ◌≤◌, ◌≡◌, length, option_map};
ghost use Rattle.syntax.specs.Scan.{closing, complete, shape_rule, state, step, step_product};

use crate::signs::Signs;
use records::answers::{Refusal, check_that, refuse};
use records::record::is_letter;
use records::refusals::Reason;
use syntax::{
    BRACKET_CLOSES, BRACKET_OPENS, CARET, COMMA, GROUP_CLOSES, GROUP_OPENS, MINUS, Mode, Open,
};

// Refusal 16 but for the length: at the first byte with which no well-formed text can go on, or at the end.
#[tactic(auto, unfolding(syntax::specs::Scan::shape_rule))]
pub fn check_shape(text: &[u8]) -> Result<(), Refusal>
    requires { length text.now ≤ 256 }
    ensures { result ≡ shape_rule text.now }
{
    let mut signs = Signs::new();
    let mut mode = Mode::Ready;
    for (i, &b) in text.iter().enumerate() {
        let Some(next) = scan_byte(mode, b, &mut signs) else {
            return refuse(Reason::TextMalformed, i);
        };
        mode = next;
    }
    check_that(may_end(mode, &signs), Reason::TextMalformed, text.len())
}

// Whether a text may end here.
fn may_end(mode: Mode, signs: &Signs) -> bool
    ensures { result ≡ complete mode signs.now }
{
    signs.is_empty() && matches!(mode, Mode::Ready | Mode::After | Mode::OneDigit)
}

// One byte more: what was read last then, where a text may go on with it.
fn scan_byte(mode: Mode, b: u8, signs: &mut Signs) -> Option<Mode>
    requires { length signs.old < 256 }
    ensures within { length signs.new ≤ length signs.old + 1 }
    ensures state { option_map (λ m. state m signs.new) result ≡ step mode signs.old b }
{
    match (mode, b) {
        (Mode::After, CARET) => Some(Mode::Caret),
        (Mode::Caret, MINUS) => Some(Mode::Minus),
        (Mode::Caret | Mode::Minus, b'0'..=b'9') => Some(Mode::OneDigit),
        (Mode::Caret | Mode::Minus, _) => None,
        (Mode::OneDigit, b'0'..=b'9') => Some(Mode::Ready),
        (Mode::Ready | Mode::After | Mode::OneDigit, _) => scan_product(b, signs),
    }
}

// A byte where a factor may start, or the last open sign be closed.
fn scan_product(b: u8, signs: &mut Signs) -> Option<Mode>
    requires { length signs.old < 256 }
    ensures within { length signs.new ≤ length signs.old + 1 }
    ensures state { option_map (λ m. state m signs.new) result ≡ step_product b signs.old }
{
    if is_letter(b) {
        return Some(Mode::After);
    }
    match b {
        GROUP_OPENS => {
            signs.push(Open::Round);
            Some(Mode::Ready)
        }
        BRACKET_OPENS => {
            signs.push(Open::First);
            Some(Mode::Ready)
        }
        _ => close_sign(b, signs),
    }
}

// The byte that the last open sign waits for.
fn close_sign(b: u8, signs: &mut Signs) -> Option<Mode>
    requires { length signs.old < 256 }
    ensures within { length signs.new ≤ length signs.old + 1 }
    ensures state { option_map (λ m. state m signs.new) result ≡ closing b signs.old }
{
    match (signs.pop()?, b) {
        (Open::Round, GROUP_CLOSES) => Some(Mode::After),
        (Open::First, COMMA) => {
            signs.push(Open::Second);
            Some(Mode::Ready)
        }
        (Open::Second, BRACKET_CLOSES) => Some(Mode::After),
        _ => None,
    }
}
