// A system that is searched for its next move: its words with their inverses, a table of the pairs of slots that were tried and failed, and the
// slot that the move before changed. Neither those pairs nor those of a slot before that one with any other need be tried again.
#![tactic(auto)]

ghost use Rattle.std.specs.Prelude.{None, Some, [], false, true, ◌<◌, ◌≤◌, ◌≡◌, length};
ghost use Rattle.words.specs.Alphabet.{bytes};
ghost use Rattle.systems.specs.Moves.{made};
ghost use Rattle.systems.specs.Rules.{next, try_other};
ghost use Rattle.slots.specs.Systems.{freely_reduced_words};
ghost use Rattle.marks.specs.Marks.{Outside, PairsSet};

use inverses::WithInverses;
use std::marker::Model;
use std::ops::Range;
use systems::Move;

// A system in search of its next move. Where the mark of slot k with slot i is set, slot i shortens slot k by no form.
#[derive(Drop)]
pub struct Search {
    system: WithInverses,
    marks: [[bool; 16]; 16],
    last: usize,
}

impl Model for Search {
    ghost use Rattle.std.specs.Prelude.{List, ℕ};
    ghost use Rattle.marks.specs.Marks.{Ready};

    ghost Value = { List (List ℕ) };

    ghost view = { λ s. s.system };

    ghost invariant = { λ s. Ready s.system s.marks s.last };
}

impl Search {
    // The system of no words.
    pub fn new() -> Self
        ensures { result ≡ [] }
    {
        Search {
            system: WithInverses::new(),
            marks: [[false; 16]; 16],
            last: 0,
        }
    }

    // Puts the words of a system of records, freely reduced, in place of these, with no pair tried.
    pub fn load(&mut self, records: &[u8])
        requires { length records.now ≤ 1024 }
        ensures { self.new ≡ freely_reduced_words records.now }
    {
        self.system.load(records);
        self.marks = [[false; 16]; 16];
        self.last = 0;
    }

    // The words and their inverses.
    pub fn system(&self) -> &WithInverses
        ensures system { result.now ≡ self.now }
        ensures few { length self.now ≤ 16 }
    {
        &self.system
    }

    // The slots that slot k has to be tried with: the slot changed last where k comes before it, and otherwise all.
    pub fn others_of(&self, k: usize) -> Range<usize>
        requires { k < length self.now }
        ensures within { result.end ≤ length self.now }
        ensures outside { Outside self.now k result }
    {
        if k < self.last {
            return self.last..self.last + 1;
        }
        0..self.system.len()
    }

    // Whether a pair of slots has to be tried: it is not marked, and the two differ.
    pub fn is_fresh(&self, k: usize, i: usize) -> bool
        requires { (k < length self.now) × (i < length self.now) }
        ensures fresh { result ≡ true → i ≡ k → ⊥ }
        ensures stale { result ≡ false → try_other bytes self.now k i ≡ None }
    {
        let marks = &self.marks;
        !marks[k][i] && i != k
    }

    // Marks a pair that was tried and failed.
    pub fn mark(&mut self, k: usize, i: usize)
        requires inside { (k < length self.old) × (i < length self.old) }
        requires failed { try_other bytes self.old k i ≡ None }
        ensures { self.new ≡ self.old }
    {
        let marks = &mut self.marks;
        marks[k][i] = true;
    }

    // Makes the next move, and takes away the marks of the slot that it changes, or sets all of them where that is blank now: no form shortens a
    // blank word, and it shortens no other.
    pub fn advance(&mut self, m: Move)
        requires { next bytes self.old ≡ Some m }
        ensures { self.new ≡ made bytes self.old m }
    {
        let c = m.changed;
        self.system.make(m);
        let blank = self.system.words().word(c).is_empty();
        set_pairs(&mut self.marks, c, blank);
        self.last = c;
    }
}

// Sets the marks of all pairs with a slot, either way round, or takes them away.
fn set_pairs(marks: &mut [[bool; 16]; 16], c: usize, marked: bool)
    requires { c < 16 }
    ensures { PairsSet c marked marks.old marks.new }
{
    marks[c] = [marked; 16];
    for row in marks {
        row[c] = marked;
    }
}
