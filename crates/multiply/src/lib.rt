// Multiply: a system and a product over its slots in, one freely reduced word out.
#![tactic(auto)]

ghost use Rattle.std.specs.Prelude.{◌≤◌, [], ◌≡◌, length};
ghost use Rattle.slots.specs.Systems.{slots};
ghost use Rattle.multiply.specs.Multiply.{multiply_answer, multiply_buffer, multiply_tests, product_word};
ghost use Rattle.multiply.specs.SlotLetters.{slot_rule};

use crate::letters::check_slots;
use records::answers::{Answer, Refusal, check_that};
use records::record::{RECORD, as_record, check_target, word_in, write_record};
use records::refusals::Reason;
use slots::checks::{check_room, check_system};
use slots::system::System;
use systems::Factor;
use words::word::Word;

pub mod letters;

// Multiplies a product out over the words of a system and writes the word as a record into the lent buffer.
pub fn multiply(system: &[u8], product: &[u8], word: &mut [u8]) -> Answer
    ensures answer { result ≡ multiply_answer system.now product.now word.old }
    ensures word { word.new ≡ multiply_buffer system.now product.now word.old }
{
    let checked = check_multiply(system, product, word.len());
    let Ok(()) = checked else {
        return Answer::from(checked);
    };
    let mut result = Word::new();
    product_word(system, as_record(product), &mut result);
    let fitted = check_that(result.len() <= 63, Reason::WordTooLong, 0);
    let Ok(()) = fitted else {
        return Answer::from(fitted);
    };
    write_record(result.letters(), &mut word[..RECORD]);
    Answer::from(fitted)
}

// Refusals 1 to 5, 6, 9 and 10.
fn check_multiply(system: &[u8], product: &[u8], room: usize) -> Result<(), Refusal>
    ensures { result ≡ multiply_tests system.now product.now room }
{
    let checked = check_system(system);
    let Ok(()) = checked else {
        return checked;
    };
    let targeted = check_target(product);
    let Ok(()) = targeted else {
        return targeted;
    };
    let slotted = check_slots(system.len() / RECORD, as_record(product));
    let Ok(()) = slotted else {
        return slotted;
    };
    check_room(RECORD, room)
}

// Multiplies a product out over the words of a system, in place of an empty word. A capital stands for the inverse.
// The word, of up to 63 times 63 letters, is lent: returned, it was copied twice, which misses the speed bar.
fn product_word(system: &[u8], product: &[u8; 64], word: &mut Word<4096>)
    requires size { length system.now ≤ 1024 }
    requires named { slot_rule (slots system.now) product.now ≡ Ok tt }
    requires empty { word.old ≡ [] }
    ensures { word.new ≡ product_word system.now product.now }
{
    let mut loaded = System::new();
    loaded.load(system);
    for letter in word_in(product) {
        loaded.multiply(word, Factor::from(*letter));
    }
}
