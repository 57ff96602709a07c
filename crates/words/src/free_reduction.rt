// Free reduction with a stack that grows from the left.
ghost use Rattle.std.specs.Prelude.{◌+◌, ◌<◌, ◌≤◌, [], ◌++◌, ◌∷◌, ◌≡◌, length, take};
ghost use Rattle.words.specs.Alphabet.{bytes};
ghost use Rattle.words.specs.Words.{freely_reduce};

use crate::letters::flip;

// Puts one more letter after the freely reduced word at the beginning of a buffer, and answers the new length.
pub fn push_last(stack: &mut [u8], n: usize, x: u8) -> usize
    requires room { n < length stack.old }
    requires freely { freely_reduce bytes (take n stack.old) ≡ take n stack.old }
    ensures longer { result ≤ n + 1 }
    ensures word { take result stack.new ≡ freely_reduce bytes (take n stack.old ++ (x ∷ [])) }
{
    if n > 0 && stack[n - 1] == flip(x) {
        return n - 1;
    }
    stack[n] = x;
    n + 1
}
