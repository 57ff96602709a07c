// How much cancels between two freely reduced words, counted in place: no inverse and no product is built to measure it.
ghost use Rattle.std.specs.Prelude.{◌<◌, ◌≤◌, ◌≡◌, get_or, length};
ghost use Rattle.words.specs.Alphabet.{bytes};
ghost use Rattle.words.specs.Words.{common_prefix, signed};

use crate::letters::flip;

// The letter at a place of a word or of its inverse.
fn letter_at(inverted: bool, word: &[u8], place: usize) -> u8
    requires { place < length word.now }
    ensures { result ≡ get_or (signed bytes inverted word.now) place 0 }
{
    if inverted {
        flip(word[word.len() - 1 - place])
    } else {
        word[place]
    }
}

// How many letters two words, each of them inverted or not, have in common at their beginnings. Where the first alone is inverted, that is
// what cancels between the first and the second.
pub fn common_prefix_signed(inverted: bool, u: &[u8], reversed: bool, v: &[u8]) -> usize
    ensures common { result ≡ common_prefix bytes (signed bytes inverted u.now) (signed bytes reversed v.now) }
    ensures within { (result ≤ length u.now) × (result ≤ length v.now) }
{
    let most = u.len().min(v.len());

    // By places: a zip of the letters, one of the words read from its end, took a fifth longer.
    for i in 0..most {
        if letter_at(inverted, u, i) != letter_at(reversed, v, i) {
            return i;
        }
    }
    most
}

// How many letters two words have in common at their beginnings: what the inverse of the first cancels with the second.
pub fn common_prefix(u: &[u8], v: &[u8]) -> usize
    ensures common { result ≡ common_prefix bytes u.now v.now }
    ensures within { (result ≤ length u.now) × (result ≤ length v.now) }
{
    common_prefix_signed(false, u, false, v)
}
