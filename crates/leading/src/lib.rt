// The factor with which a word begins, over a reduced system. The search counts letters and builds nothing.
#![tactic(auto)]

ghost use Rattle.std.specs.Prelude.{List, ℕ, ◌%◌, ◌<◌, ◌≡◌, ◌≤◌, length};
ghost use Rattle.words.specs.Alphabet.{bytes};
ghost use Rattle.words.specs.Words.{common_prefix};
ghost use Rattle.systems.specs.Factoring.{big_end, either_of, half_start, leading};
ghost use Rattle.systems.specs.Products.{value, word};
ghost use Rattle.systems.specs.Rules.{first};
ghost use Rattle.leading.specs.Leads.{LeadBelow, ends_apart, ends_elsewhere};

use slots::system::System;
use systems::Factor;
use words::cancel::common_prefix_signed;

// The factor with which a word begins: the first big end, or else the first half start. All big ends are tried before any half start, since
// that takes a search through the other factors.
pub fn leading_factor(word: &[u8], system: &System) -> Option<Factor>
    ensures found { result ≡ leading bytes system.now word.now }
    ensures below { LeadBelow (length system.now) result }
    ensures few { LeadBelow 16 result }
{
    let big = find_big_end(word, system);
    let None = big else {
        return big;
    };
    find_half_start(word, system)
}

// The first factor of which more than half begins the word.
fn find_big_end(word: &[u8], system: &System) -> Option<Factor>
    ensures found { result ≡ first (either_of bytes (big_end bytes system.now word.now)) (length system.now) }
    ensures below { LeadBelow (length system.now) result }
    ensures few { LeadBelow 16 result }
{
    for k in 0..system.len() {
        for inverted in [false, true] {
            let x = Factor { slot: k, inverted };
            let begun = common_prefix_signed(inverted, system.word(k), false, word);
            if is_big_end(x, begun, system) {
                return Some(x);
            }
        }
    }
    None
}

// The first factor whose first half begins the word, and with whose second half another factor ends.
fn find_half_start(word: &[u8], system: &System) -> Option<Factor>
    ensures found { result ≡ first (either_of bytes (half_start bytes system.now word.now)) (length system.now) }
    ensures below { LeadBelow (length system.now) result }
    ensures few { LeadBelow 16 result }
{
    for k in 0..system.len() {
        for inverted in [false, true] {
            let x = Factor { slot: k, inverted };
            let begun = common_prefix_signed(inverted, system.word(k), false, word);
            if is_half_start(x, begun, system) {
                return Some(x);
            }
        }
    }
    None
}

// Whether more than half of a factor begins the word with which it has so many letters in common.
fn is_big_end(x: Factor, begun: usize, system: &System) -> bool
    requires inside { x.slot < length system.now }
    requires within { begun ≤ length (word bytes system.now x.slot) }
    ensures { (w : List ℕ) → begun ≡ common_prefix bytes (value bytes system.now x) w → result ≡ big_end bytes system.now w x }
{
    system.word(x.slot).len() < 2 * begun
}

// Whether the first half of a factor begins the word with which it has so many letters in common, and another factor ends with its second
// half.
fn is_half_start(x: Factor, begun: usize, system: &System) -> bool
    requires { x.slot < length system.now }
    ensures { (w : List ℕ) → begun ≡ common_prefix bytes (value bytes system.now x) w → result ≡ half_start bytes system.now w x }
{
    let size = system.word(x.slot).len();
    size != 0 && size % 2 == 0 && size / 2 <= begun && ends_elsewhere(x, system)
}

// Whether another factor ends with the second half of one, whose word has an even length.
fn ends_elsewhere(x: Factor, system: &System) -> bool
    requires inside { x.slot < length system.now }
    requires even { length (word bytes system.now x.slot) % 2 ≡ 0 }
    ensures { result ≡ ends_elsewhere (length system.now) system.now x }
{
    let whole = system.word(x.slot);
    for j in 0..system.len() {
        if ends_apart(x, whole, j, system.word(j)) {
            return true;
        }
    }
    false
}

// The same of the two factors of slot j alone.
fn ends_apart(x: Factor, whole: &[u8], j: usize, other: &[u8]) -> bool
    requires { length whole.now % 2 ≡ 0 }
    ensures { result ≡ ends_apart x.slot x.inverted whole.now j other.now }
{
    let half = whole.len() / 2;
    half <= common_prefix_signed(!x.inverted, whole, x.inverted, other)
        || j != x.slot && half <= common_prefix_signed(!x.inverted, whole, !x.inverted, other)
}
