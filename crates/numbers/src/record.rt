// One record of 128 bytes: 64 numbers, the low byte of each first, its tests, and the word in it.
ghost use Rattle.std.specs.Prelude.{◌≤◌, ◌≡◌, length, not, take};
ghost use Rattle.std.specs.List.{take_while};
ghost use Rattle.numbers.specs.Records.{is_zero, numbers_in, numbers_record};
ghost use Rattle.numbers.specs.Refusals.{layout_rule, within_26_rule, numbers_rules};

use crate::number::{is_number, within_26};
use records::answers::{Refusal, refuse};
use records::refusals::Reason;

// The bytes of a record of numbers, and of one slot of a system of them.
pub const NUMBERS_RECORD: usize = 128;

// The numbers of a record.
pub fn numbers_in(bytes: &[u8; 128]) -> [u16; 64]
    ensures { result ≡ numbers_in bytes.now }
{
    let mut numbers = [0; 64];
    for (i, pair) in bytes.as_chunks().0.iter().enumerate() {
        numbers[i] = u16::from_le_bytes(*pair);
    }
    numbers
}

// Refusal 19, and on the way back 20, on a record that starts at a place of its buffer.
pub fn check_record(bytes: &[u8; 128], back: bool, at: usize) -> Result<(), Refusal>
    requires { at ≤ 4096 }
    ensures { result ≡ numbers_rules back bytes.now at }
{
    let numbers = numbers_in(bytes);
    let laid = check_layout(&numbers, at);
    let Ok(()) = laid else {
        return laid;
    };
    if back {
        check_within_26(&numbers, at)
    } else {
        laid
    }
}

// Refusal 19: up to 63 numbers, and then zeros.
fn check_layout(numbers: &[u16; 64], at: usize) -> Result<(), Refusal>
    requires { at ≤ 4096 }
    ensures { result ≡ layout_rule 63 numbers.now at }
{
    let before = &numbers[..63];
    let end = before.iter().position(|x| !is_number(*x)).unwrap_or(63);
    let Some(after) = numbers[end..].iter().position(|x| *x != 0) else {
        return Ok(());
    };
    refuse(Reason::NumbersMalformed, at + 2 * (end + after))
}

// Refusal 20: numbers from -26 to 26.
fn check_within_26(numbers: &[u16; 64], at: usize) -> Result<(), Refusal>
    requires { at ≤ 4096 }
    ensures { result ≡ within_26_rule numbers.now at }
{
    let Some(i) = numbers.iter().position(|x| !within_26(*x)) else {
        return Ok(());
    };
    refuse(Reason::NumberWithoutLetter, at + 2 * i)
}

// The word that the numbers of a record begin with.
pub fn word_in_numbers(numbers: &[u16; 64]) -> &[u16]
    ensures word { result.now ≡ take_while (λ x. not (is_zero x)) (take 63 numbers.now) }
    ensures short { length result.now ≤ 63 }
{
    let before = &numbers[..63];
    match before.iter().position(|x| *x == 0) {
        Some(end) => &before[..end],
        None => before,
    }
}

// Writes a word of numbers as its record.
pub fn write_numbers_record(word: &[u16], out: &mut [u8])
    requires fits { length word.now ≤ 63 }
    requires room { length out.old ≡ 128 }
    ensures { out.new ≡ numbers_record word.now }
{
    out.fill(0);
    for (i, x) in word.iter().enumerate() {
        let at = i * 2;
        out[at..at + 2].copy_from_slice(&x.to_le_bytes());
    }
}
