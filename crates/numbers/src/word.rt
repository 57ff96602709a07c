// Words of numbers while a call runs: from letters and back, and freely reduced with a stack.
ghost use Rattle.std.specs.Prelude.{◌+◌, ◌<◌, ◌≤◌, [], ◌++◌, ◌∷◌, ◌≡◌, length, map, take};
ghost use Rattle.words.specs.Words.{freely_reduce};
ghost use Rattle.numbers.specs.Numbers.{number_letter, letter_number, signed_numbers};

use crate::number::{flip, letter_number, number_letter};

// Puts what a word freely reduces to at the beginning of a buffer; answers its length.
pub fn reduce(word: &[u16], stack: &mut [u16]) -> usize
    requires { length word.now ≤ length stack.old }
    ensures product { take result stack.new ≡ freely_reduce signed_numbers word.now }
    ensures within { result ≤ length word.now }
{
    let mut size = 0;
    for x in word {
        size = push_number(stack, size, *x);
    }
    size
}

// Puts a number after the first `size` numbers of a buffer, and cancels it where it meets its inverse; answers the new length.
fn push_number(stack: &mut [u16], size: usize, x: u16) -> usize
    requires room { size < length stack.old }
    requires freely { freely_reduce signed_numbers (take size stack.old) ≡ take size stack.old }
    ensures longer { result ≤ size + 1 }
    ensures product { take result stack.new ≡ freely_reduce signed_numbers (take size stack.old ++ x ∷ []) }
{
    if size > 0 && stack[size - 1] == flip(x) {
        return size - 1;
    }
    stack[size] = x;
    size + 1
}

// Puts the numbers of some letters at the beginning of a buffer.
pub fn put_numbers(letters: &[u8], word: &mut [u16])
    requires { length letters.now ≤ length word.old }
    ensures { take (length letters.now) word.new ≡ map letter_number letters.now }
{
    for (i, letter) in letters.iter().enumerate() {
        word[i] = letter_number(*letter);
    }
}

// Puts the letters of some numbers at the beginning of a buffer.
pub fn put_letters(word: &[u16], letters: &mut [u8])
    requires { length word.now ≤ length letters.old }
    ensures { take (length word.now) letters.new ≡ map number_letter word.now }
{
    for (i, x) in word.iter().enumerate() {
        letters[i] = number_letter(*x);
    }
}
