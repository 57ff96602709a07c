// Freely reduced products, written into a buffer that begins with a freely reduced word.
ghost use Rattle.std.specs.Prelude.{◌+◌, ◌-◌, ◌≤◌, ◌++◌, ◌≡◌, drop, length, take};
ghost use Rattle.words.specs.Alphabet.{bytes};
ghost use Rattle.words.specs.Words.{freely_reduce, inverse, signed};

use crate::cancel::common_prefix_signed;
use crate::letters::{copy, flip};

// Puts the inverse of a word after the first n letters of a buffer.
pub fn append_inverse(stack: &mut [u8], n: usize, word: &[u8])
    requires { n + length word.now ≤ length stack.old }
    ensures { take (n + length word.now) stack.new ≡ take n stack.old ++ inverse bytes word.now }
{
    for (i, letter) in word.iter().rev().enumerate() {
        stack[n + i] = flip(*letter);
    }
}

// Puts what is left of a word or its inverse, without its first c letters, after the first n letters of a buffer.
fn append_rest(stack: &mut [u8], n: usize, inverted: bool, word: &[u8], c: usize)
    requires { (c ≤ length word.now) × (n + length word.now ≤ length stack.old + c) }
    ensures { take (n + length word.now - c) stack.new ≡ take n stack.old ++ drop c (signed bytes inverted word.now) }
{
    if inverted {
        append_inverse(stack, n, &word[..word.len() - c]);
    } else {
        copy(&word[c..], &mut stack[n..]);
    }
}

// Multiplies the freely reduced word at the beginning of a buffer by another or its inverse from the right, and answers the new length.
pub fn push_signed(stack: &mut [u8], n: usize, inverted: bool, word: &[u8]) -> usize
    requires room { n + length word.now ≤ length stack.old }
    requires freely { freely_reduce bytes (take n stack.old) ≡ take n stack.old }
    requires word { freely_reduce bytes word.now ≡ word.now }
    ensures longer { result ≤ n + length word.now }
    ensures product { take result stack.new ≡ freely_reduce bytes (take n stack.old ++ signed bytes inverted word.now) }
{
    let c = common_prefix_signed(true, &stack[..n], inverted, word);
    let kept = n - c;
    append_rest(stack, kept, inverted, word, c);
    kept + word.len() - c
}
