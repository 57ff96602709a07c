// A system of words with the inverse of each beside it. A contract sees the list of its words.
#![tactic(auto)]

ghost use Rattle.std.specs.Prelude.{[], false, true, ◌<◌, ◌≤◌, ◌≡◌, leb, length, map};
ghost use Rattle.words.specs.Alphabet.{bytes};
ghost use Rattle.words.specs.Words.{inverse};
ghost use Rattle.systems.specs.Products.{FreelyReduced};
ghost use Rattle.systems.specs.Moves.{made, moved_word};
ghost use Rattle.slots.specs.Systems.{AllShort, freely_reduced_words};

use moves::make::make_move;
use slots::system::System;
use std::marker::Model;
use systems::Move;

// The words of a system, and their inverses.
#[derive(Drop)]
pub struct WithInverses {
    words: System,
    inverses: System,
}

impl Model for WithInverses {
    ghost use Rattle.std.specs.Prelude.{List, ℕ, ◌≡◌, map};
    ghost use Rattle.words.specs.Alphabet.{bytes};
    ghost use Rattle.words.specs.Words.{inverse as inverse_word};

    ghost Value = { List (List ℕ) };

    ghost view = { λ s. s.words };

    ghost invariant = { λ s. s.inverses ≡ map (inverse_word bytes) s.words };
}

impl WithInverses {
    // The system of no words.
    pub fn new() -> Self
        ensures { result ≡ [] }
    {
        WithInverses {
            words: System::new(),
            inverses: System::new(),
        }
    }

    // Puts the words of a system of records, freely reduced, in place of these.
    pub fn load(&mut self, records: &[u8])
        requires { length records.now ≤ 1024 }
        ensures { self.new ≡ freely_reduced_words records.now }
    {
        self.words.load(records);
        self.inverses.invert(&self.words);
    }

    // How many slots the system has.
    pub fn len(&self) -> usize
        ensures slots { result ≡ length self.now }
        ensures few { result ≤ 16 }
        ensures short { AllShort self.now }
        ensures freely { FreelyReduced bytes self.now }
    {
        self.words.len()
    }

    // The words.
    pub fn words(&self) -> &System
        ensures { result.now ≡ self.now }
    {
        &self.words
    }

    // Their inverses.
    pub fn inverses(&self) -> &System
        ensures { result.now ≡ map (inverse bytes) self.now }
    {
        &self.inverses
    }

    // Makes a move, and answers whether its word has at most 63 letters; where it has more, nothing is made.
    pub fn make(&mut self, m: Move) -> bool
        requires inside { (m.changed < length self.old) × (m.other < length self.old) }
        ensures fits { result ≡ leb (length (moved_word bytes self.old m)) 63 }
        ensures made { result ≡ true → self.new ≡ made bytes self.old m }
        ensures left { result ≡ false → self.new ≡ self.old }
    {
        let fits = make_move(&mut self.words, m);
        if fits {
            self.inverses.invert_word(m.changed, &self.words);
        }
        fits
    }
}
