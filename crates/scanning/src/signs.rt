// The open signs of a text: a stack in fixed memory.
ghost use Rattle.std.specs.Prelude.{◌<◌, ◌≡◌, ◌↔◌, List, [], ◌∷◌, length, IsTrue, MatchOption};
ghost use Rattle.syntax.specs.declared.Open.{Open};

use crate::checks::LONGEST_TEXT;
use std::marker::Model;
use syntax::Open;

// Open signs, at most as many as a text has bytes.
#[derive(Drop)]
pub struct Signs {
    signs: [Open; LONGEST_TEXT],
    depth: usize,
}

// Clauses see the open signs as a list, the last one first.
impl Model for Signs {
    ghost use Rattle.std.specs.Prelude.{◌≡◌, ◌≤◌, List, length, reverse, take};
    ghost use Rattle.syntax.specs.declared.Open.{Open};

    ghost Value = { List Open };

    ghost view = { λ s. reverse (take s.depth s.signs) };

    ghost invariant = { λ s. (s.depth ≤ 256) × (length s.signs ≡ 256) };
}

impl Signs {
    // No sign is open.
    pub fn new() -> Self
        ensures { result ≡ [] }
    {
        Signs {
            signs: [Open::Round; LONGEST_TEXT],
            depth: 0,
        }
    }

    // Whether no sign is open.
    pub fn is_empty(&self) -> bool
        ensures { IsTrue result ↔ (self.now ≡ []) }
    {
        self.depth == 0
    }

    // Opens a sign.
    pub fn push(&mut self, sign: Open)
        requires { length self.old < 256 }
        ensures { self.new ≡ sign ∷ self.old }
    {
        self.signs[self.depth] = sign;
        self.depth += 1;
    }

    // Closes the last open sign, and gives it.
    pub fn pop(&mut self) -> Option<Open>
        ensures { MatchOption result ((self.old ≡ []) × (self.new ≡ [])) (λ sign. self.old ≡ sign ∷ self.new) }
    {
        self.depth = self.depth.checked_sub(1)?;
        Some(self.signs[self.depth])
    }
}
