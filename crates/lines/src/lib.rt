// The lines that the program prints: the first line of an answer, and the line of a refusal.
#![tactic(auto)]

ghost use Rattle.std.specs.Prelude.{◌+◌, ◌≤◌, ◌++◌, ◌≡◌, length};
ghost use Rattle.lines.specs.Lines.{first_line, is_member, refusal_in, refusal_line};
ghost use Rattle.lines.specs.Text.{decimal, yes_or_no};

use records::answers::{Refusal, Verdict};
use reduction::answers::Reduction;
use words::bytes::Bytes;

// No first line and no line of a refusal has more bytes.
pub const LINE: usize = 80;

// A line of text, built from its beginning on.
// It is no Display: a write by std's fmt promises its bytes only where it answers Ok, and nothing says that it does where there is room.
pub type Line = Bytes<LINE>;

// The first line of an answer: the moves made, the rank, and yes or no for independent and for member.
pub fn first_line(answer: Reduction) -> Line
    ensures line { result ≡ first_line answer }
    ensures most { length result ≤ 80 }
{
    let mut line = Line::new();
    line.push_all(b"moves ");
    push_number(&mut line, answer.moves);
    line.push_all(b" rank ");
    push_number(&mut line, answer.rank);
    line.push_all(b" independent ");
    push_yes_or_no(&mut line, answer.independent);
    line.push_all(b" member ");
    push_yes_or_no(&mut line, is_member(answer.verdict));
    line.push_all(b"\n");
    line
}

// The line of a refusal: its number, then its place.
pub fn refusal_line(refusal: Refusal) -> Line
    ensures line { result ≡ refusal_line refusal }
    ensures most { length result ≤ 80 }
{
    let mut line = Line::new();
    line.push_all(b"refused ");
    push_number(&mut line, usize::from(refusal.number()));
    line.push_all(b" at ");
    push_number(&mut line, refusal.place);
    line.push_all(b"\n");
    line
}

// Puts a number in decimal digits after a line.
fn push_number(line: &mut Line, n: usize)
    requires { length line.old + 20 ≤ 80 }
    ensures text { line.new ≡ line.old ++ decimal n }
    ensures most { length line.new ≤ length line.old + 20 }
{
    let mut digits = [0; 20];
    let size = io::decimal(n as u64, &mut digits);
    line.push_all(&digits[..size]);
}

// Puts yes or no after a line.
fn push_yes_or_no(line: &mut Line, yes: bool)
    requires { length line.old + 3 ≤ 80 }
    ensures text { line.new ≡ line.old ++ yes_or_no yes }
    ensures most { length line.new ≤ length line.old + 3 }
{
    if yes {
        line.push_all(b"yes");
    } else {
        line.push_all(b"no");
    }
}

// Whether a verdict says member; 'done', which member never answers, does not.
pub fn is_member(verdict: Verdict) -> bool
    ensures { result ≡ is_member verdict }
{
    matches!(verdict, Verdict::Member)
}

// The refusal that a verdict carries.
pub fn refusal_in(verdict: Verdict) -> Result<(), Refusal>
    ensures { result ≡ refusal_in verdict }
{
    match verdict {
        Verdict::Refused(refusal) => Err(refusal),
        _ => Ok(()),
    }
}
