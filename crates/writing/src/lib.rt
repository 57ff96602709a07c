// The text of a word, written run by run.
#![tactic(auto)]

ghost use Rattle.std.specs.Prelude.{◌*◌, ◌+◌, ◌<◌, ◌≤◌, ◌∷◌, ◌≡◌, ℕ, get_or, length};
ghost use Rattle.words.specs.Buffers.{written};
ghost use Rattle.words.specs.Writers.{Puts};
ghost use Rattle.syntax.specs.WordTexts.{numeral, power_text, run, run_text, text_of};

use syntax::{CARET, MINUS};
use words::writer::Writer;

// Writes the text of a word at the beginning of a buffer, and answers its length.
pub fn write_word(word: &[u8], text: &mut [u8]) -> usize
    requires { (length word.now ≤ 63) × (128 ≤ length text.old) }
    ensures length { result ≡ length (text_of word.now) }
    ensures text { text.new ≡ written (text_of word.now) text.old }
{
    let mut writer = Writer::new(text);
    put_word(word, &mut writer);
    writer.len()
}

// Writes the text of a word, run by run; std's chunk_by, which compares neighbours, was slower on long runs.
fn put_word(word: &[u8], text: &mut Writer)
    requires { (length word.now ≤ 63) × (text.old.at + 128 ≤ length text.old.buffer.now) }
    ensures { Puts text.old (text_of word.now) text.new }
{
    let mut rest = word;
    while let [letter, others @ ..] = rest {
        let more = repeats(others, *letter);
        put_run(*letter, 1 + more, text);
        rest = &others[more..];
    }
}

// How often a word begins with a letter.
fn repeats(word: &[u8], letter: u8) -> usize
    ensures within { result ≤ length word.now }
    ensures same { (i : ℕ) → i < result → get_or word.now i 0 ≡ letter }
    ensures longest { result < length word.now → get_or word.now result 0 ≡ letter → ⊥ }
{
    word.iter().position(|x| *x != letter).unwrap_or(word.len())
}

// Writes the text of a run.
fn put_run(letter: u8, count: usize, text: &mut Writer)
    requires { (1 ≤ count) × (count ≤ 63) × (text.old.at + 2 * count < length text.old.buffer.now) }
    ensures run { Puts text.old (run_text (run letter count)) text.new }
    ensures most { text.new.at ≤ text.old.at + 2 * count }
{
    if count == 1 {
        text.put(letter);
    } else {
        put_power(letter, text);
        put_number(count, text);
    }
}

// Writes the small letter of a letter, a caret and the sign of its power; a capital stands before the small letters.
fn put_power(letter: u8, text: &mut Writer)
    requires { text.old.at + 3 ≤ length text.old.buffer.now }
    ensures { Puts text.old (power_text letter) text.new }
{
    if letter < b'a' {
        text.put_all(&[letter + 32, CARET, MINUS]);
    } else {
        text.put_all(&[letter, CARET]);
    }
}

// Writes a number below 100 in fewest digits.
fn put_number(number: usize, text: &mut Writer)
    requires { (number < 100) × (text.old.at + 2 ≤ length text.old.buffer.now) }
    ensures { Puts text.old (numeral number) text.new }
{
    if number < 10 {
        text.put(b'0' + number as u8);
    } else {
        text.put_all(&[b'0' + (number / 10) as u8, b'0' + (number % 10) as u8]);
    }
}
