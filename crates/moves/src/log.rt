// Log records: their test, one reader, one writer, one size.
ghost use Rattle.std.specs.Prelude.{◌&&◌, ◌*◌, ◌+◌, ◌-◌, ◌<◌, ◌≤◌, ◌++◌, ◌≡◌, IfSome, None, Some, cond, drop, leb, length, take, true};
ghost use Rattle.std.specs.Char.{is_ascii_digit};
ghost use Rattle.systems.specs.Rules.{form_at};
ghost use Rattle.moves.specs.Found.{Between};
ghost use Rattle.moves.specs.Logs.{is_move, is_rule, log_record, log_rules, logged_at, move_size, named_rule, names_slot, number_in, read_move};

use records::answers::{Refusal, check_that};
use records::refusals::Reason;
use systems::{Form, Move, Rule};

// The bytes of a log record.
pub const MOVE: usize = 8;

// A move as it is logged: with a rule, and the changed word's new length.
#[derive(Clone, Copy, Debug, PartialEq, Eq)]
pub struct Logged {
    pub made: Move,
    pub rule: Rule,
    pub new_length: usize,
}

// The slot that a letter names, if it is one of the first n.
fn named_slot(n: usize, letter: u8) -> Option<usize>
    ensures { result ≡ cond (names_slot n letter) (Some (letter - 97)) None }
{
    let slot = letter.checked_sub(b'a')? as usize;
    if slot < n { Some(slot) } else { None }
}

// The form that a digit names.
fn named_form(digit: u8) -> Option<Form>
    ensures { result ≡ cond (leb 49 digit && leb digit 52) (Some (form_at (digit - 49))) None }
{
    let place = digit.checked_sub(b'1')? as usize;
    if place < 4 {
        Some(Form::at(place))
    } else {
        None
    }
}

// The rule that a letter names, if it is s or h.
fn named_rule(letter: u8) -> Option<Rule>
    ensures { result ≡ cond (is_rule letter) (Some (named_rule letter)) None }
{
    match letter {
        b's' => Some(Rule::Shortening),
        b'h' => Some(Rule::HalfEnd),
        _ => None,
    }
}

// The number that two bytes stand for, if they are digits.
fn two_digits(tens: u8, ones: u8) -> Option<usize>
    ensures { result ≡ cond (is_ascii_digit tens && is_ascii_digit ones) (Some (number_in tens ones)) None }
{
    if tens.is_ascii_digit() && ones.is_ascii_digit() {
        Some((tens - b'0') as usize * 10 + (ones - b'0') as usize)
    } else {
        None
    }
}

// Reads a log record that is that of a move over n slots.
pub fn read_move(n: usize, bytes: &[u8; MOVE]) -> Logged
    requires valid { is_move n bytes.now 0 ≡ true }
    ensures read { result ≡ logged_at bytes.now 0 }
    ensures between { Between n result.made }
{
    let [changed, digit, other, _, letter, tens, ones, _] = *bytes;
    Logged {
        made: Move {
            changed: (changed - b'a') as usize,
            form: Form::at((digit - b'1') as usize),
            other: (other - b'a') as usize,
        },
        rule: if letter == b's' {
            Rule::Shortening
        } else {
            Rule::HalfEnd
        },
        new_length: (tens - b'0') as usize * 10 + (ones - b'0') as usize,
    }
}

// What is in a log record, if it is that of a move over n slots.
pub fn logged_in(n: usize, bytes: &[u8; MOVE]) -> Option<Logged>
    ensures read { result ≡ read_move n bytes.now }
    ensures between { IfSome result (λ logged. Between n logged.made) }
{
    let [changed, digit, other, space, letter, tens, ones, end] = *bytes;
    let logged = Logged {
        made: Move {
            changed: named_slot(n, changed)?,
            form: named_form(digit)?,
            other: named_slot(n, other)?,
        },
        rule: named_rule(letter)?,
        new_length: two_digits(tens, ones)?,
    };
    if space == b' ' && end == b'\n' && changed != other {
        Some(logged)
    } else {
        None
    }
}

// Refusal 7, then 8 log record by log record.
pub fn check_log(n: usize, log: &[u8]) -> Result<(), Refusal>
    ensures { result ≡ log_rules n log.now }
{
    let (log_records, rest) = log.as_chunks::<MOVE>();
    let even = check_that(rest.is_empty(), Reason::LogUneven, 0);
    let Ok(()) = even else {
        return even;
    };
    for (j, log_record) in log_records.iter().enumerate() {
        let is_move = logged_in(n, log_record).is_some();
        let checked = check_that(is_move, Reason::LogRecordMalformed, j * MOVE);
        let Ok(()) = checked else {
            return checked;
        };
    }
    Ok(())
}

// Writes a move as a log record.
pub fn write_move(log: &mut [u8], j: usize, logged: Logged)
    requires inside { j * move_size + move_size ≤ length log.old }
    requires slots { (logged.made.changed < 16) × (logged.made.other < 16) }
    requires digits { logged.new_length < 100 }
    ensures { log.new ≡ take (j * move_size) log.old ++ (log_record logged ++ drop (j * move_size + move_size) log.old) }
{
    let made = logged.made;
    let length = logged.new_length as u8;
    let written = [
        b'a' + made.changed as u8,
        u8::from(made.form),
        b'a' + made.other as u8,
        b' ',
        u8::from(logged.rule),
        b'0' + length / 10,
        b'0' + length % 10,
        b'\n',
    ];
    let at = j * MOVE;
    log[at..at + MOVE].copy_from_slice(&written);
}
