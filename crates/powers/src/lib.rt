// Freely reduced words of at most 63 letters as values: products, powers and commutators, and none where one is longer.
#![tactic(auto)]

ghost use Rattle.std.specs.Prelude.{Some, ◌≤◌, [], ◌∷◌, ◌≡◌};
ghost use Rattle.powers.specs.Bounded.{commute_of, join_of, raise_of, within};

use words::word::Word;

// The most letters that a word may have.
pub const MOST: usize = 63;

// The word of one letter.
pub fn single(b: u8) -> Option<Word<MOST>>
    ensures { result ≡ Some (b ∷ []) }
{
    let mut word = Word::<MOST>::new();
    word.push(b);
    Some(word)
}

// A word in a buffer of any room, where it is short enough.
fn kept<const ROOM: usize>(product: &Word<ROOM>) -> Option<Word<MOST>>
    ensures { result ≡ within product.now }
{
    let letters = product.letters();
    if letters.len() > MOST {
        return None;
    }
    let mut word = Word::<MOST>::new();
    word.copy_from(product);
    Some(word)
}

// Puts one word after another: where the first one's buffer has room for both, in that buffer.
pub fn append(first: &mut Option<Word<MOST>>, second: &Option<Word<MOST>>)
    ensures { first.new ≡ join_of first.old second.now }
{
    let Some(u) = first else {
        return;
    };
    let Some(v) = second else {
        *first = None;
        return;
    };
    if u.len() + v.len() <= MOST {
        u.multiply(false, v);
        return;
    }
    let mut both = Word::<126>::new();
    both.copy_from(u);
    both.multiply(false, v);
    *first = kept(&both);
}

// The inverse of u, the inverse of v, u, v.
pub fn commute(first: Option<Word<MOST>>, second: Option<Word<MOST>>) -> Option<Word<MOST>>
    ensures { result ≡ commute_of first second }
{
    let u = first?;
    let v = second?;
    let mut product = Word::<252>::new();
    product.multiply(true, &u);
    product.multiply(true, &v);
    product.multiply(false, &u);
    product.multiply(false, &v);
    kept(&product)
}

// A word, or its inverse under a minus sign, so many times.
pub fn raise(base: Option<Word<MOST>>, minus: bool, times: usize) -> Option<Word<MOST>>
    requires { times ≤ 63 }
    ensures { result ≡ raise_of minus times base }
{
    let word = base?;
    let mut power = Word::<4096>::new();
    for _ in 0..times {
        power.multiply(minus, &word);
    }
    kept(&power)
}
