// Texts with powers and commutators: the trees that they spell, the words that these stand for and their refusals, with the laws about
// them. Its code is the signs of a text by name, which of them may stand open, and what a scan of a text read last.
#![tactic(auto)]

// The signs of a text: a group stands between ( and ), a bracket between [ and ] with a comma, a power after a caret.
pub const GROUP_OPENS: u8 = b'(';

pub const GROUP_CLOSES: u8 = b')';

pub const COMMA: u8 = b',';

pub const MINUS: u8 = b'-';

pub const BRACKET_OPENS: u8 = b'[';

pub const BRACKET_CLOSES: u8 = b']';

pub const CARET: u8 = b'^';

// An open sign: a group's, or a bracket's before its comma or after it.
#[derive(Clone, Copy)]
pub enum Open {
    Round,
    First,
    Second,
}

// What was read last: nothing that a power may follow, a factor without its power, a caret, a caret and a minus sign, the first digit of a power.
#[derive(Clone, Copy)]
pub enum Mode {
    Ready,
    After,
    Caret,
    Minus,
    OneDigit,
}
