// Writing a word as a product over a reduced system: one factor after the other is found at the word's beginning and taken off.
#![tactic(auto)]

ghost use Rattle.std.specs.Prelude.{Some, ◌<◌, ◌≤◌, ◌++◌, ◌≡◌, length};
ghost use Rattle.words.specs.Alphabet.{bytes};
ghost use Rattle.words.specs.Words.{freely_reduce, inverse};
ghost use Rattle.systems.specs.Factoring.{leading};
ghost use Rattle.systems.specs.Products.{value};
ghost use Rattle.factoring.specs.TargetProduct.{is_found, product_after, product_for, target_word};
ghost use Rattle.factoring.specs.ProductLetters.{product_letters};

use leading::leading_factor;
use records::record::{word_in, write_record};
use slots::system::System;
use systems::Factor;
use words::bytes::Bytes;
use words::word::Word;

// Whether a target is a product over the words of a system; then that product goes into a lent buffer as a record.
pub fn factor_target(target: &[u8; 64], system: &System, product: &mut [u8]) -> bool
    requires { 64 ≤ length product.old }
    ensures found { result ≡ is_found (product_for system.now (target_word target.now)) }
    ensures product { product.new ≡ product_after (product_for system.now (target_word target.now)) product.old }
{
    let mut word = Word::new();
    word.reduce(word_in(target));
    let Some(letters) = factor(&mut word, system) else {
        return false;
    };
    write_record(letters.as_slice(), &mut product[0..64]);
    true
}

// Takes one factor after the other off a word, at most 63, and answers their letters where they are the whole word.
fn factor(word: &mut Word<64>, system: &System) -> Option<Bytes<63>>
    requires { length word.old ≤ 63 }
    ensures { result ≡ product_letters 63 system.now word.old }
{
    let mut letters = Bytes::new();
    while !word.is_empty() {
        if letters.len() == 63 {
            return None;
        }
        let x = leading_factor(word.letters(), system)?;
        take_off(x, system, word);
        letters.push(x.letter());
    }
    Some(letters)
}

// Takes the factor that leads a word off it.
fn take_off(x: Factor, system: &System, word: &mut Word<64>)
    requires inside { (x.slot < length system.now) × (length word.old ≤ 63) }
    requires freely { freely_reduce bytes word.old ≡ word.old }
    requires leads { leading bytes system.now word.old ≡ Some x }
    ensures size { length word.new ≤ 63 }
    ensures word { word.new ≡ freely_reduce bytes (inverse bytes (value bytes system.now x) ++ word.old) }
{
    let mut rest = Word::<128>::new();
    let inverse = Factor {
        slot: x.slot,
        inverted: !x.inverted,
    };
    system.multiply(&mut rest, inverse);
    rest.multiply(false, word);
    word.copy_from(&rest);
}
