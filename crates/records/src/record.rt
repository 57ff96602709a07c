// One record of 64 bytes: its layout, the word in it, and a word written as its record.
ghost use Rattle.std.specs.Prelude.{◌<◌, ◌≤◌, ◌≡◌, get_or, length, take};
ghost use Rattle.records.specs.Records.{blanks, is_letter, is_letter_or_stop, record_of, word_of};
ghost use Rattle.records.specs.Refusals.{as_six, byte_rule, letters_rule, record_rules, refusal, target_rules};
ghost use Rattle.records.specs.Stops.{stops_rule};

use crate::answers::{Refusal, check_that, refuse};
use crate::refusals::Reason;
use words::letters::copy;

// The bytes of a record, and of one slot of a system.
pub const RECORD: usize = 64;

pub const STOP: u8 = 46;

const LINE_FEED: u8 = 10;

// Whether a byte is a letter.
pub fn is_letter(b: u8) -> bool
    ensures { result ≡ is_letter b }
{
    b.is_ascii_alphabetic()
}

// Whether a byte may stand in a record before its line feed.
fn is_letter_or_stop(b: u8) -> bool
    ensures { result ≡ is_letter_or_stop b }
{
    is_letter(b) || b == STOP
}

// Refusals 3 to 5 on a record that starts at a place of its buffer.
pub fn check_record(bytes: &[u8; 64], at: usize) -> Result<(), Refusal>
    requires { at ≤ 4096 }
    ensures { result ≡ record_rules bytes.now at }
{
    let ended = check_that(bytes[63] == LINE_FEED, Reason::NoLineFeed, at + 63);
    let Ok(()) = ended else {
        return ended;
    };
    check_letters(&bytes[0..63], at)
}

// Refusal 6.
pub fn check_target(target: &[u8]) -> Result<(), Refusal>
    ensures { result ≡ target_rules target.now }
{
    let Some(bytes) = target.as_array() else {
        return refuse(Reason::TargetOrProductMalformed, 0);
    };
    let Err(refusal) = check_record(bytes, 0) else {
        return Ok(());
    };
    refuse(Reason::TargetOrProductMalformed, refusal.place)
}

// The record that a target or a product is, where refusal 6 has been tested.
pub fn as_record(bytes: &[u8]) -> &[u8; 64]
    requires { length bytes.now ≡ 64 }
    ensures { result.now ≡ bytes.now }
{
    bytes.as_array().unwrap()
}

// Refusals 4 and 5 on the bytes before the line feed: letters, and then full stops. At the first byte that breaks this order 5 is refused,
// unless 4 goes before it, where some later byte is neither.
fn check_letters(bytes: &[u8], at: usize) -> Result<(), Refusal>
    requires size { length bytes.now ≤ 64 }
    requires place { at ≤ 4096 }
    ensures { result ≡ letters_rule bytes.now at }
{
    let Some(letters) = bytes.iter().position(|b| !is_letter(*b)) else {
        return Ok(());
    };
    let Some(stops) = bytes[letters..].iter().position(|b| *b != STOP) else {
        return Ok(());
    };
    let late = letters + stops;
    let unknown = bytes[late..].iter().position(|b| !is_letter_or_stop(*b));
    match unknown {
        Some(after) => refuse(Reason::NeitherLetterNorStop, at + late + after),
        None => refuse(Reason::LetterAfterStop, at + late),
    }
}

// The word in a record.
pub fn word_in(bytes: &[u8; 64]) -> &[u8]
    ensures word { result.now ≡ word_of bytes.now }
    ensures short { length result.now ≤ 63 }
{
    let before = &bytes[..63];
    match before.iter().position(|b| *b == STOP) {
        Some(end) => &before[..end],
        None => before,
    }
}

// Writes a word as its record.
pub fn write_record(word: &[u8], out: &mut [u8])
    requires fits { length word.now ≤ 63 }
    requires room { length out.old ≡ 64 }
    ensures { out.new ≡ record_of word.now }
{
    out.fill(STOP);
    copy(word, out);
    out[63] = LINE_FEED;
}
