// One move on the words of a system.
ghost use Rattle.std.specs.Prelude.{[], false, true, ◌<◌, ◌≤◌, ◌++◌, ◌≡◌, leb, length};
ghost use Rattle.words.specs.Alphabet.{bytes};
ghost use Rattle.words.specs.Words.{freely_reduce};
ghost use Rattle.systems.specs.Moves.{made, moved_word};
ghost use Rattle.systems.specs.Products.{value};

use slots::system::System;
use systems::{Factor, Form, Move};
use words::word::Word;

// Makes a move, and answers whether its word has at most 63 letters; where it has more, nothing is made.
pub fn make_move(system: &mut System, m: Move) -> bool
    requires inside { (m.changed < length system.old) × (m.other < length system.old) }
    ensures fits { result ≡ leb (length (moved_word bytes system.old m)) 63 }
    ensures made { result ≡ true → system.new ≡ made bytes system.old m }
    ensures left { result ≡ false → system.new ≡ system.old }
{
    let mut product = Word::new();
    moved_word(system, m, &mut product);
    if product.len() > 63 {
        return false;
    }
    system.replace(m.changed, &product);
    true
}

// Puts the word that a move puts into its slot in place of an empty word. That is lent: returned, it was copied twice, and replay of short words
// took half as long again.
fn moved_word(system: &System, m: Move, product: &mut Word<128>)
    requires inside { (m.changed < length system.now) × (m.other < length system.now) }
    requires empty { product.old ≡ [] }
    ensures { product.new ≡ moved_word bytes system.now m }
{
    let changed = Factor {
        slot: m.changed,
        inverted: false,
    };
    let other = Factor {
        slot: m.other,
        inverted: false,
    };
    let inverse = Factor {
        slot: m.other,
        inverted: true,
    };
    match m.form {
        Form::Before => multiply_two(system, other, changed, product),
        Form::InverseBefore => multiply_two(system, inverse, changed, product),
        Form::After => multiply_two(system, changed, other, product),
        Form::InverseAfter => multiply_two(system, changed, inverse, product),
    }
}

// Puts the freely reduced product of two factors in place of an empty word.
fn multiply_two(system: &System, first: Factor, second: Factor, product: &mut Word<128>)
    requires inside { (first.slot < length system.now) × (second.slot < length system.now) }
    requires empty { product.old ≡ [] }
    ensures { product.new ≡ freely_reduce bytes (value bytes system.now first ++ value bytes system.now second) }
{
    system.multiply(product, first);
    system.multiply(product, second);
}
