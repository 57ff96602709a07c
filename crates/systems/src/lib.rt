// Systems of words: definitions and theorems on products, moves and Nielsen-reduced systems, and the factors, moves and rules that they
// speak of.
#![tactic(auto)]

ghost use Rattle.std.specs.Prelude.{◌<◌, ◌≡◌};
ghost use Rattle.systems.specs.Factors.{factor_byte, factor_of};
ghost use Rattle.systems.specs.Moves.{form_digit, undo, undoing};
ghost use Rattle.systems.specs.Rules.{form_at, rule_letter, with_rule};

// A factor of a product: the word of a slot, or its inverse.
#[derive(Clone, Copy, Debug, PartialEq, Eq)]
pub struct Factor {
    pub slot: usize,
    pub inverted: bool,
}

// The four forms of a move, each with its digit, 1 to 4: the other slot's word, or its inverse, stands before the changed slot's word or after it.
#[derive(Clone, Copy, Debug, PartialEq, Eq)]
pub enum Form {
    Before = 49,
    InverseBefore = 50,
    After = 51,
    InverseAfter = 52,
}

// A move: the changed slot, the form and the other slot.
#[derive(Clone, Copy, Debug, PartialEq, Eq)]
pub struct Move {
    pub changed: usize,
    pub form: Form,
    pub other: usize,
}

// The two rules that make moves, each with its letter in a log.
#[derive(Clone, Copy, Debug, PartialEq, Eq)]
pub enum Rule {
    HalfEnd = 104,
    Shortening = 115,
}

// The next move, and the rule that makes it.
#[derive(Clone, Copy, Debug, PartialEq, Eq)]
pub struct Found {
    pub next: Move,
    pub rule: Rule,
}

impl Factor {
    // The letter of the factor in a product: the slot's letter for its word, the capital for the inverse.
    pub fn letter(self) -> u8
        requires { self.slot < 16 }
        ensures { result ≡ factor_byte self }
    {
        let first = if self.inverted { b'A' } else { b'a' };
        first + self.slot as u8
    }
}

// The factor that a letter of a product names.
impl From<u8> for Factor {
    ghost from_gives = { λ letter factor. factor ≡ factor_of letter };

    fn from(letter: u8) -> Factor {
        let inverted = letter < b'a';
        let first = if inverted { b'A' } else { b'a' };
        Factor {
            slot: letter.saturating_sub(first) as usize,
            inverted,
        }
    }
}

impl Form {
    // The forms in their order.
    pub const ALL: [Form; 4] = [
        Form::Before,
        Form::InverseBefore,
        Form::After,
        Form::InverseAfter,
    ];

    // The form at a place in their order, counted from 0.
    pub fn at(place: usize) -> Form
        ensures { result ≡ form_at place }
    {
        match place {
            0 => Form::Before,
            1 => Form::InverseBefore,
            2 => Form::After,
            _ => Form::InverseAfter,
        }
    }

    // The form that takes a move of this form back.
    pub fn undoing(self) -> Form
        ensures { result ≡ undoing self }
    {
        match self {
            Form::Before => Form::InverseBefore,
            Form::InverseBefore => Form::Before,
            Form::After => Form::InverseAfter,
            Form::InverseAfter => Form::After,
        }
    }
}

impl Move {
    // The move that takes this one back.
    pub fn undo(self) -> Move
        ensures { result ≡ undo self }
    {
        Move {
            changed: self.changed,
            form: self.form.undoing(),
            other: self.other,
        }
    }
}

impl Rule {
    // A move that this rule makes, if there is one.
    pub fn with(self, next: Option<Move>) -> Option<Found>
        ensures { result ≡ with_rule self next }
    {
        let next = next?;
        Some(Found { next, rule: self })
    }
}

// The letter of a rule.
impl From<Rule> for u8 {
    ghost from_gives = { λ rule letter. letter ≡ rule_letter rule };

    fn from(rule: Rule) -> u8 {
        rule as u8
    }
}

// The digit of a form.
impl From<Form> for u8 {
    ghost from_gives = { λ form digit. digit ≡ form_digit form };

    fn from(form: Form) -> u8 {
        form as u8
    }
}
