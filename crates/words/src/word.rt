// A freely reduced word in a buffer of its own. A contract sees its letters alone.
ghost use Rattle.std.specs.Prelude.{◌+◌, ◌<◌, ◌≤◌, [], ◌++◌, ◌∷◌, ◌≡◌, ◌↔◌, IsTrue, length};
ghost use Rattle.words.specs.Alphabet.{bytes};
ghost use Rattle.words.specs.Pairs.{letter_pair};
ghost use Rattle.words.specs.Words.{freely_reduce, inverse, signed};

use crate::free_reduction::push_last;
use crate::letters::copy;
use crate::product::{append_inverse, push_signed};
use std::marker::Model;

// A freely reduced word of at most ROOM letters.
#[derive(Drop)]
pub struct Word<const ROOM: usize> {
    letters: [u8; ROOM],
    size: usize,
}

impl<const ROOM: usize> Model for Word<ROOM> {
    ghost use Rattle.std.specs.Prelude.{List, ℕ, ◌≡◌, ◌≤◌, take};
    ghost use Rattle.words.specs.Alphabet.{bytes};
    ghost use Rattle.words.specs.Words.{freely_reduce};

    ghost Value = { List ℕ };

    ghost view = { λ w. take w.size w.letters };

    ghost invariant = { λ w. (w.size ≤ ROOM) × (freely_reduce bytes (take w.size w.letters) ≡ take w.size w.letters) };
}

impl<const ROOM: usize> Word<ROOM> {
    // The empty word.
    pub fn new() -> Self
        ensures { result ≡ [] }
    {
        Word {
            letters: [0; ROOM],
            size: 0,
        }
    }

    // The letters of the word.
    pub fn letters(&self) -> &[u8]
        ensures letters { result.now ≡ self.now }
        ensures within { length self.now ≤ ROOM }
        ensures freely { freely_reduce bytes self.now ≡ self.now }
    {
        &self.letters[..self.size]
    }

    // How many letters the word has.
    pub fn len(&self) -> usize
        ensures letters { result ≡ length self.now }
        ensures within { result ≤ ROOM }
    {
        self.size
    }

    // Whether the word is empty.
    pub fn is_empty(&self) -> bool
        ensures { IsTrue result ↔ (self.now ≡ []) }
    {
        self.size == 0
    }

    // The first letter and the one at another place as one number; beyond the word's end it may be any.
    pub fn letter_pair(&self, place: usize) -> usize
        requires { place < ROOM }
        ensures { place < length self.now → result ≡ letter_pair self.now place }
    {
        self.letters[0] as usize + self.letters[place] as usize * 256
    }

    // Puts one more letter after the word, and cancels it where it meets its inverse.
    pub fn push(&mut self, letter: u8)
        requires { length self.old < ROOM }
        ensures product { self.new ≡ freely_reduce bytes (self.old ++ letter ∷ []) }
        ensures within { length self.new ≤ length self.old + 1 }
    {
        self.size = push_last(&mut self.letters, self.size, letter);
    }

    // Multiplies the word by another or its inverse from the right.
    pub fn multiply<const FROM: usize>(&mut self, inverted: bool, word: &Word<FROM>)
        requires { length self.old + length word.now ≤ ROOM }
        ensures product { self.new ≡ freely_reduce bytes (self.old ++ signed bytes inverted word.now) }
        ensures within { length self.new ≤ length self.old + length word.now }
    {
        self.size = push_signed(&mut self.letters, self.size, inverted, word.letters());
    }

    // Puts what some letters freely reduce to in place of this word. The length is counted in a variable of its own: kept in the word, it cost a
    // third more.
    pub fn reduce(&mut self, letters: &[u8])
        requires { length letters.now ≤ ROOM }
        ensures product { self.new ≡ freely_reduce bytes letters.now }
        ensures within { length self.new ≤ length letters.now }
        ensures freely { freely_reduce bytes self.new ≡ self.new }
    {
        let mut size = 0;
        for letter in letters {
            size = push_last(&mut self.letters, size, *letter);
        }
        self.size = size;
    }

    // Puts a word of another buffer in place of this one. All ROOM bytes are copied where the other has them, so that the copy has one length.
    pub fn copy_from<const FROM: usize>(&mut self, word: &Word<FROM>)
        requires { length word.now ≤ ROOM }
        ensures letters { self.new ≡ word.now }
        ensures freely { freely_reduce bytes self.new ≡ self.new }
    {
        if FROM < ROOM {
            copy(&word.letters, &mut self.letters);
        } else {
            copy(&word.letters[..ROOM], &mut self.letters);
        }
        self.size = word.size;
    }

    // Puts the inverse of a word in place of this one.
    pub fn invert(&mut self, word: &Self)
        ensures { self.new ≡ inverse bytes word.now }
    {
        append_inverse(&mut self.letters, 0, word.letters());
        self.size = word.len();
    }
}
