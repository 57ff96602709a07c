// The product reader and the factor reader, which call each other: the freely reduced word of a text that 16, 17 and 18 let through.
#![tactic(auto)]

ghost use Rattle.std.specs.Prelude.{◌<◌, ◌≤◌, true, ◌≡◌, IfSome, drop, get_or, length};
ghost use Rattle.scanning.specs.Exponents.{exponent_of};
ghost use Rattle.parsing.specs.Reading.{FactorReads, PowerReads, ProductReads, Readable, starts_factor};

use powers::{MOST, append, commute, raise, single};
use records::record::is_letter;
use scanning::exponent::read_exponent;
use syntax::{BRACKET_OPENS, GROUP_OPENS};
use words::word::Word;

// A word read, none where one is too long, and how many bytes were read for it.
#[derive(Drop)]
pub struct Reading {
    pub word: Option<Word<MOST>>,
    pub used: usize,
}

// The product at the beginning of a text in which so many more signs may nest; each turn goes on by what the factor reader read.
#[cycle(reader)]
pub fn product(text: &[u8], room: usize) -> Reading
    requires { Readable room text.now }
    ensures { ProductReads room text.now result }
{
    let mut word = Some(Word::<MOST>::new());
    let mut at = 0;
    while at < text.len() && starts(text[at]) {
        let next = factor(&text[at..], room);
        append(&mut word, &next.word);
        at += next.used;
    }
    Reading { word, used: at }
}

// The factor at the beginning of a text that starts with one.
#[cycle(reader)]
fn factor(text: &[u8], room: usize) -> Reading
    requires readable { Readable room text.now }
    requires starts { (0 < length text.now) × (starts_factor (get_or text.now 0 0) ≡ true) }
    ensures { FactorReads room text.now result }
{
    match text[0] {
        BRACKET_OPENS => bracket(text, room),
        GROUP_OPENS => {
            let inner = product(&text[1..], room - 1);
            let end = inner.used + 2;
            powered(inner.word, text, end)
        }
        letter => powered(single(letter), text, 1),
    }
}

// The bracket at the beginning of a text that starts with one.
#[cycle(reader)]
fn bracket(text: &[u8], room: usize) -> Reading
    requires readable { Readable room text.now }
    requires opens { get_or text.now 0 0 ≡ 91 }
    ensures { FactorReads room text.now result }
{
    let first = product(&text[1..], room - 1);
    let middle = first.used + 2;
    let second = product(&text[middle..], room - 1);
    let end = middle + second.used + 1;
    let word = commute(first.word, second.word);
    powered(word, text, end)
}

// Whether a byte starts a factor.
fn starts(b: u8) -> bool
    ensures { result ≡ starts_factor b }
{
    is_letter(b) || matches!(b, GROUP_OPENS | BRACKET_OPENS)
}

// A factor's word with the power that stands at a place of a text, if one does.
fn powered(word: Option<Word<MOST>>, text: &[u8], at: usize) -> Reading
    requires { (at ≤ length text.now) × IfSome (exponent_of (drop at text.now)) (λ power. power.number ≤ 63) }
    ensures { PowerReads text.now at word result }
{
    let Some(power) = read_exponent(&text[at..]) else {
        return Reading { word, used: at };
    };
    let word = raise(word, power.minus, power.number);
    let used = at + power.used;
    Reading { word, used }
}
