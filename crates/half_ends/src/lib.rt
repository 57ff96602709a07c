// The search for a half-end move over words and, beside them, their inverses: it inverts nothing, counts the letters that they have in
// common, and builds nothing.
#![tactic(auto)]

ghost use Rattle.std.specs.Prelude.{Some, [], ◌<◌, ◌≤◌, ◌≡◌, IfSome, ℕ, get_or, leb, length};
ghost use Rattle.words.specs.Alphabet.{bytes};
ghost use Rattle.words.specs.Words.{common_prefix, signed};
ghost use Rattle.systems.specs.Rules.{half_end, qualifies, shortest_below};
ghost use Rattle.moves.specs.Found.{FoundBelow};
ghost use Rattle.half_ends.specs.HalfEnds.{half_elsewhere, meets_half};

use inverses::WithInverses;
use slots::system::System;
use systems::{Form, Move};
use words::cancel::common_prefix;

// Whether the words in a slot of one system and in a slot of another have at least so many letters in common at their beginnings. Where they
// differ in the first or the last of these letters, none are counted.
fn begins_alike(half: usize, first: &System, h: usize, second: &System, i: usize) -> bool
    requires half_inside { (1 ≤ half) × (half < 64) }
    requires slots_inside { (h < length first.now) × (i < length second.now) }
    ensures { result ≡ leb half (common_prefix bytes (get_or first.now h []) (get_or second.now i [])) }
{
    let place = half - 1;
    if first.letter_pair(h, place) != second.letter_pair(i, place) {
        return false;
    }
    half <= common_prefix(first.word(h), second.word(i))
}

// The words of a system, or their inverses.
fn signed(inverted: bool, system: &WithInverses) -> &System
    ensures words { (k : ℕ) → get_or result.now k [] ≡ signed bytes inverted (get_or system.now k []) }
    ensures slots { length result.now ≡ length system.now }
{
    if inverted {
        system.inverses()
    } else {
        system.words()
    }
}

// Whether slot i's word or its inverse begins with the first half of slot h's word, or of the inverse of that.
fn meets_half(inverted: bool, system: &WithInverses, h: usize, i: usize) -> bool
    requires inside { (h < length system.now) × (i < length system.now) }
    requires has_halves { 2 ≤ length (get_or system.now h []) }
    ensures { result ≡ meets_half inverted (get_or system.now h []) (get_or system.now i []) }
{
    let halved = signed(inverted, system);
    let half = halved.word(h).len() / 2;
    begins_alike(half, halved, h, system.words(), i)
        || begins_alike(half, halved, h, system.inverses(), i)
}

// Whether another slot's word or its inverse begins with the first half of slot h's word, or of the inverse of that.
fn half_elsewhere(inverted: bool, system: &WithInverses, h: usize) -> bool
    requires inside { h < length system.now }
    requires has_halves { 2 ≤ length (get_or system.now h []) }
    ensures { result ≡ half_elsewhere inverted (length system.now) system.now h }
{
    for i in 0..system.len() {
        if i != h && meets_half(inverted, system, h, i) {
            return true;
        }
    }
    false
}

// Whether the word of slot h qualifies for a half-end move.
fn does_qualify(system: &WithInverses, h: usize) -> bool
    requires { h < length system.now }
    ensures { result ≡ qualifies bytes system.now h }
{
    let size = system.words().word(h).len();
    size != 0
        && size % 2 == 0
        && half_elsewhere(false, system, h)
        && half_elsewhere(true, system, h)
}

// The slot of the shortest word that qualifies, the lowest on a tie.
fn shortest_slot(system: &WithInverses) -> Option<usize>
    ensures chosen { result ≡ shortest_below bytes system.now (length system.now) }
    ensures inside { IfSome result (λ h. h < length system.now) }
{
    let words = system.words();
    let mut best = None;
    for k in 0..system.len() {
        let shorter = match best {
            None => true,
            Some(h) => words.word(k).len() < words.word(h).len(),
        };
        if shorter && does_qualify(system, k) {
            best = Some(k);
        }
    }
    best
}

// The half-end move by slot h: the first other slot whose word ends with the second half of h's word (form 4), or else begins with its
// inverse (form 1).
fn half_end_by(system: &WithInverses, h: usize) -> Option<Move>
    requires inside { h < length system.now }
    requires shortest { shortest_below bytes system.now (length system.now) ≡ Some h }
    ensures found { result ≡ half_end bytes system.now }
    ensures below { FoundBelow (length system.now) result }
{
    let words = system.words();
    let inverses = system.inverses();
    let other_inverse = inverses.word(h);
    let half = other_inverse.len() / 2;
    for k in 0..system.len() {
        if k != h {
            if half <= common_prefix(other_inverse, inverses.word(k)) {
                return Some(Move {
                    changed: k,
                    form: Form::InverseAfter,
                    other: h,
                });
            }
            if half <= common_prefix(other_inverse, words.word(k)) {
                return Some(Move {
                    changed: k,
                    form: Form::Before,
                    other: h,
                });
            }
        }
    }
    None
}

// The half-end move: the shortest qualifying word's second half is taken off the first word that ends with it, or begins with its inverse.
pub fn find_half_end(system: &WithInverses) -> Option<Move>
    ensures found { result ≡ half_end bytes system.now }
    ensures below { FoundBelow (length system.now) result }
{
    let h = shortest_slot(system)?;
    half_end_by(system, h)
}
