// The search for a shortening move over words and, beside them, their inverses: it inverts nothing, counts what cancels, and builds nothing.
#![tactic(auto)]

ghost use Rattle.std.specs.Prelude.{[], ◌<◌, ◌≤◌, min, ℕ, false, ◌≡◌, get_or, length};
ghost use Rattle.words.specs.Alphabet.{bytes};
ghost use Rattle.systems.specs.Moves.{seam};
ghost use Rattle.systems.specs.Rules.{shortening};
ghost use Rattle.moves.specs.Found.{FoundBelow};
ghost use Rattle.shortening.specs.Halves.{HalfAtMost};

use inverses::WithInverses;
use marks::Search;
use systems::{Form, Move};
use words::cancel::common_prefix;

// How many letters cancel between the two words of a form: those that a word, or its inverse, has in common with the other, or its inverse,
// at their beginnings.
fn seam_of(form: Form, system: &WithInverses, k: usize, i: usize) -> usize
    requires { (k < length system.now) × (i < length system.now) }
    ensures seam { result ≡ seam bytes form (get_or system.now i []) (get_or system.now k []) }
    ensures most { result ≤ 63 }
{
    let words = system.words();
    let inverses = system.inverses();
    match form {
        Form::Before => common_prefix(inverses.word(i), words.word(k)),
        Form::InverseBefore => common_prefix(words.word(i), words.word(k)),
        Form::After => common_prefix(inverses.word(k), words.word(i)),
        Form::InverseAfter => common_prefix(inverses.word(k), inverses.word(i)),
    }
}

// The length of the shorter word of two slots.
fn shorter_length(system: &WithInverses, k: usize, i: usize) -> usize
    requires { (k < length system.now) × (i < length system.now) }
    ensures shorter { result ≡ min (length (get_or system.now i [])) (length (get_or system.now k [])) }
    ensures most { result ≤ 63 }
{
    let words = system.words();
    words.word(i).len().min(words.word(k).len())
}

// Whether the two words of a form have the same letter at place 0, and at another place.
fn is_alike(form: Form, system: &WithInverses, k: usize, i: usize, place: usize) -> bool
    requires inside { (k < length system.now) × (i < length system.now) }
    requires place { place < 64 }
    ensures { result ≡ false → seam bytes form (get_or system.now i []) (get_or system.now k []) ≤ place }
{
    let words = system.words();
    let inverses = system.inverses();
    match form {
        Form::Before => inverses.letter_pair(i, place) == words.letter_pair(k, place),
        Form::InverseBefore => words.letter_pair(i, place) == words.letter_pair(k, place),
        Form::After => inverses.letter_pair(k, place) == words.letter_pair(i, place),
        Form::InverseAfter => inverses.letter_pair(k, place) == inverses.letter_pair(i, place),
    }
}

// Whether more than half of a word may cancel in a form: the form's two words have the same letter at place 0, and at the place that is half
// the length of the shorter one.
fn is_close(form: Form, system: &WithInverses, k: usize, i: usize) -> bool
    requires { (k < length system.now) × (i < length system.now) }
    ensures { result ≡ false → HalfAtMost form (get_or system.now i []) (get_or system.now k []) }
{
    is_alike(form, system, k, i, shorter_length(system, k, i) / 2)
}

// Whether a pair is worth trying: neither word is blank, and in some form the two words begin with the same two letters. A word of a single
// letter is tried with every other.
fn is_worth_trying(system: &WithInverses, k: usize, i: usize) -> bool
    requires { (k < length system.now) × (i < length system.now) }
    ensures { result ≡ false → (form : Form) → HalfAtMost form (get_or system.now i []) (get_or system.now k []) }
{
    let shorter = shorter_length(system, k, i);
    if shorter < 2 {
        return shorter == 1;
    }
    let words = system.words();
    let other = words.letter_pair(i, 1);
    let changed = words.letter_pair(k, 1);
    let inverses = system.inverses();
    let other_inverse = inverses.letter_pair(i, 1);
    let changed_inverse = inverses.letter_pair(k, 1);
    (other_inverse == changed)
        | (other == changed)
        | (changed_inverse == other)
        | (changed_inverse == other_inverse)
}

// The first shortening move, in the order of changed slot, other slot and form: more than half of the other word cancels. Pairs that were
// tried and failed are passed over; those that fail now are marked, both ways round where at most half of either word cancels.
pub fn find_shortening(search: &mut Search) -> Option<Move>
    ensures found { result ≡ shortening bytes search.old }
    ensures below { FoundBelow (length search.old) result }
    ensures few { length search.old ≤ 16 }
    ensures same { search.new ≡ search.old }
{
    let mut found = None;
    let n = search.system().len();
    'search: for k in 0..n {
        let whole = search.system().words().word(k).len();
        for i in search.others_of(k) {
            if search.is_fresh(k, i) {
                let system = search.system();
                let size = system.words().word(i).len();
                let mut most: usize = 0;
                if is_worth_trying(system, k, i) {
                    for form in Form::ALL {
                        if is_close(form, system, k, i) {
                            let c = seam_of(form, system, k, i);
                            if size < 2 * c {
                                found = Some(Move {
                                    changed: k,
                                    form,
                                    other: i,
                                });
                                break 'search;
                            }
                            most = most.max(c);
                        }
                    }
                }
                search.mark(k, i);
                if 2 * most <= whole {
                    search.mark(i, k);
                }
            }
        }
    }
    found
}
