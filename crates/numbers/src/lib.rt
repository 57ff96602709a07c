// Systems of numbers: records of letters written as numbers, the way back, and numbers freely reduced.
#![tactic(auto)]

ghost use Rattle.std.specs.Prelude.{◌*◌, ◌≡◌, length, map, take};
ghost use Rattle.words.specs.Words.{freely_reduce};
ghost use Rattle.records.specs.Records.{record_of, word_of};
ghost use Rattle.records.specs.declared.answers.Verdict.TheVariants.{Done};
ghost use Rattle.slots.specs.Systems.{slots};
ghost use Rattle.numbers.specs.Numbers.{number_letter, letter_number, signed_numbers};
ghost use Rattle.numbers.specs.Records.{numbers_record, numbers_slots, numbers_word};
ghost use Rattle.numbers.specs.Meaning.{CameBack, TidiedNumbers, WentThere};
ghost use Rattle.numbers.specs.Calls.{from_numbers_answer, from_numbers_buffer, tidy_numbers_answer, tidy_numbers_buffer, to_numbers_answer, to_numbers_buffer};

mod checks;
mod number;
mod record;
mod word;

use checks::{check_letters_room, check_numbers_room};
use record::{NUMBERS_RECORD, numbers_in, word_in_numbers, write_numbers_record};
use records::answers::Answer;
use records::record::{RECORD, word_in, write_record};
use word::{put_letters, put_numbers, reduce};

// Writes each record of a system as numbers into the same slot of the lent buffer.
pub fn to_numbers(system: &[u8], numbers: &mut [u8]) -> Answer
    ensures answer { result ≡ to_numbers_answer system.now numbers.old }
    ensures numbers { numbers.new ≡ to_numbers_buffer system.now numbers.old }
    ensures means { result.verdict ≡ Done → WentThere system.now (take (slots system.now * 128) numbers.new) }
{
    let checked = check_letters_room(system, numbers.len());
    let Ok(()) = checked else {
        return Answer::from(checked);
    };
    for (k, record) in system.as_chunks().0.iter().enumerate() {
        let at = k * NUMBERS_RECORD;
        write_as_numbers(record, &mut numbers[at..at + NUMBERS_RECORD]);
    }
    Answer::from(checked)
}

// Writes each record of numbers as letters into the same slot of the lent buffer.
pub fn from_numbers(numbers: &[u8], words: &mut [u8]) -> Answer
    ensures answer { result ≡ from_numbers_answer numbers.now words.old }
    ensures words { words.new ≡ from_numbers_buffer numbers.now words.old }
    ensures means { result.verdict ≡ Done → CameBack numbers.now (take (numbers_slots numbers.now * 64) words.new) }
{
    let checked = check_numbers_room(numbers, true, RECORD, words.len());
    let Ok(()) = checked else {
        return Answer::from(checked);
    };
    for (k, record) in numbers.as_chunks().0.iter().enumerate() {
        let at = k * RECORD;
        write_as_letters(record, &mut words[at..at + RECORD]);
    }
    Answer::from(checked)
}

// Writes each record of numbers, freely reduced, into the same slot of the lent buffer.
pub fn tidy_numbers(numbers: &[u8], tidied: &mut [u8]) -> Answer
    ensures answer { result ≡ tidy_numbers_answer numbers.now tidied.old }
    ensures tidied { tidied.new ≡ tidy_numbers_buffer numbers.now tidied.old }
    ensures means { result.verdict ≡ Done → TidiedNumbers numbers.now (take (numbers_slots numbers.now * 128) tidied.new) }
{
    let checked = check_numbers_room(numbers, false, NUMBERS_RECORD, tidied.len());
    let Ok(()) = checked else {
        return Answer::from(checked);
    };
    for (k, record) in numbers.as_chunks().0.iter().enumerate() {
        let at = k * NUMBERS_RECORD;
        write_reduced(record, &mut tidied[at..at + NUMBERS_RECORD]);
    }
    Answer::from(checked)
}

// Writes the word in a record of letters as its record of numbers.
fn write_as_numbers(bytes: &[u8; 64], out: &mut [u8])
    requires { length out.old ≡ 128 }
    ensures { out.new ≡ numbers_record (map letter_number (word_of bytes.now)) }
{
    let letters = word_in(bytes);
    let mut word = [0; 64];
    put_numbers(letters, &mut word);
    write_numbers_record(&word[..letters.len()], out);
}

// Writes the word in a record of numbers as its record of letters.
fn write_as_letters(bytes: &[u8; 128], out: &mut [u8])
    requires { length out.old ≡ 64 }
    ensures { out.new ≡ record_of (map number_letter (numbers_word bytes.now)) }
{
    let numbers = numbers_in(bytes);
    let word = word_in_numbers(&numbers);
    let mut letters = [0; 64];
    put_letters(word, &mut letters);
    write_record(&letters[..word.len()], out);
}

// Writes the word in a record of numbers, freely reduced, as its record.
fn write_reduced(bytes: &[u8; 128], out: &mut [u8])
    requires { length out.old ≡ 128 }
    ensures { out.new ≡ numbers_record (freely_reduce signed_numbers (numbers_word bytes.now)) }
{
    let numbers = numbers_in(bytes);
    let mut word = [0; 64];
    let size = reduce(word_in_numbers(&numbers), &mut word);
    write_numbers_record(&word[..size], out);
}
