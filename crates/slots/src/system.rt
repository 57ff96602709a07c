// A system of words while a call runs: taken in from its records, looked at, changed, and written out. A contract sees the list of its words.
ghost use Rattle.std.specs.Prelude.{◌+◌, ◌*◌, ◌<◌, ◌≤◌, [], ◌++◌, ◌∷◌, ◌≡◌, get_or, length, map, set, take};
ghost use Rattle.words.specs.Alphabet.{bytes};
ghost use Rattle.words.specs.Buffers.{written};
ghost use Rattle.words.specs.Pairs.{letter_pair};
ghost use Rattle.words.specs.Words.{freely_reduce, inverse};
ghost use Rattle.systems.specs.Products.{FreelyReduced, value};
ghost use Rattle.systems.specs.Rank.{rank};
ghost use Rattle.records.specs.Records.{word_of};
ghost use Rattle.slots.specs.Systems.{AllShort, bytes_of, freely_reduced_words};

use records::record::{RECORD, word_in, write_record};
use std::marker::Model;
use systems::Factor;
use words::word::Word;

// Up to 16 freely reduced words of at most 63 letters, one for each slot.
#[derive(Drop)]
pub struct System {
    words: [Word<64>; 16],
    count: usize,
}

impl Model for System {
    ghost use Rattle.std.specs.Prelude.{List, ℕ, ◌≤◌, ◌≡◌, length, take};
    ghost use Rattle.words.specs.Alphabet.{bytes};
    ghost use Rattle.systems.specs.Products.{FreelyReduced};
    ghost use Rattle.slots.specs.Systems.{AllShort};

    ghost Value = { List (List ℕ) };

    ghost view = { λ s. take s.count s.words };

    ghost invariant = { λ s. (s.count ≤ 16) × (length s.words ≡ 16) × AllShort s.words × FreelyReduced bytes s.words };
}

impl System {
    // The system of no words.
    pub fn new() -> Self
        ensures { result ≡ [] }
    {
        System {
            words: [(); 16].map(|_| Word::new()),
            count: 0,
        }
    }

    // Puts the words of a system of records, freely reduced, in place of these.
    pub fn load(&mut self, records: &[u8])
        requires { length records.now ≤ 1024 }
        ensures { self.new ≡ freely_reduced_words records.now }
    {
        self.count = 0;
        for record in records.as_chunks().0 {
            self.add(record);
        }
    }

    // Puts the word of one more record, freely reduced, into the next slot.
    fn add(&mut self, source: &[u8; 64])
        requires { length self.old < 16 }
        ensures { self.new ≡ self.old ++ freely_reduce bytes (word_of source.now) ∷ [] }
    {
        let word = &mut self.words[self.count];
        word.reduce(word_in(source));
        self.count += 1;
    }

    // How many slots the system has.
    pub fn len(&self) -> usize
        ensures slots { result ≡ length self.now }
        ensures few { result ≤ 16 }
        ensures short { AllShort self.now }
        ensures freely { FreelyReduced bytes self.now }
    {
        self.count
    }

    // How many words of the system are not empty.
    pub fn rank(&self) -> usize
        ensures { result ≡ rank self.now }
    {
        self.words[..self.count]
            .iter()
            .filter(|word| !word.is_empty())
            .count()
    }

    // The word in a slot.
    pub fn word(&self, k: usize) -> &[u8]
        requires { k < length self.now }
        ensures word { result.now ≡ get_or self.now k [] }
        ensures short { length result.now ≤ 63 }
        ensures freely { freely_reduce bytes result.now ≡ result.now }
    {
        let words = &self.words;
        words[k].letters()
    }

    // The first letter of a slot's word and the one at another place as one number; beyond the word's end it may be any.
    pub fn letter_pair(&self, k: usize, place: usize) -> usize
        requires { (k < length self.now) × (place < 64) }
        ensures { place < length (get_or self.now k []) → result ≡ letter_pair (get_or self.now k []) place }
    {
        let words = &self.words;
        words[k].letter_pair(place)
    }

    // Multiplies a word by a factor, a slot's word or its inverse, from the right.
    pub fn multiply<const ROOM: usize>(&self, word: &mut Word<ROOM>, x: Factor)
        requires slot { x.slot < length self.now }
        requires room { length word.old + 63 ≤ ROOM }
        ensures product { word.new ≡ freely_reduce bytes (word.old ++ value bytes self.now x) }
        ensures within { length word.new ≤ length word.old + 63 }
        ensures freely { FreelyReduced bytes self.now }
    {
        let words = &self.words;
        word.multiply(x.inverted, &words[x.slot]);
    }

    // Puts another word into a slot.
    pub fn replace<const FROM: usize>(&mut self, k: usize, word: &Word<FROM>)
        requires slot { k < length self.old }
        requires short { length word.now ≤ 63 }
        ensures { self.new ≡ set self.old k word.now }
    {
        let words = &mut self.words;
        words[k].copy_from(word);
    }

    // Puts the inverse of the word that another system has in a slot into the same slot.
    pub fn invert_word(&mut self, k: usize, system: &System)
        requires slot { k < length self.old }
        requires other { k < length system.now }
        ensures { self.new ≡ set self.old k (inverse bytes (get_or system.now k [])) }
    {
        let words = &mut self.words;
        let others = &system.words;
        words[k].invert(&others[k]);
    }

    // Puts the inverses of another system's words in place of these.
    pub fn invert(&mut self, system: &System)
        ensures { self.new ≡ map (inverse bytes) system.now }
    {
        let words = &mut self.words;
        let others = &system.words;
        for slot in 0..system.count {
            words[slot].invert(&others[slot]);
        }
        self.count = system.count;
    }

    // Writes each word as a record into the 64 bytes of its own slot.
    pub fn store(&self, records: &mut [u8])
        requires room { length self.now * 64 ≤ length records.old }
        ensures { records.new ≡ written (bytes_of self.now) records.old }
    {
        for (k, word) in self.words[..self.count].iter().enumerate() {
            let at = k * RECORD;
            write_record(word.letters(), &mut records[at..at + RECORD]);
        }
    }
}
