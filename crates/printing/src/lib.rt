// An answer printed: its lines put into a lent buffer, where there is room for them all.
#![tactic(auto)]

ghost use Rattle.std.specs.Prelude.{◌*◌, ◌≤◌, [], cond, ◌++◌, ◌≡◌, length, take};
ghost use Rattle.moves.specs.Logs.{move_size};
ghost use Rattle.lines.specs.Lines.{answer_lines, is_member, lines_after, refusal_in, refusal_line};
ghost use Rattle.printing.specs.Printing.{Prints};

use crate::answers::Unprinted;
use lines::{first_line, is_member, refusal_in, refusal_line};
use moves::log::MOVE;
use records::answers::{Refusal, Verdict};
use records::record::RECORD;
use reduction::answers::Reduction;

pub mod answers;

// Prints an answer of member for so many slots: one line on a refusal, and otherwise the first line, the slots, the log and the product.
// Its buffers make no struct: this function alone takes them, so a struct would be built and taken apart once.
pub fn print_reduction(
    answer: Reduction,
    n: usize,
    words: &[u8],
    log: &[u8],
    product: &[u8; RECORD],
    out: &mut [u8],
) -> Result<usize, Unprinted>
    requires slots { n ≤ 16 }
    requires words { n * 64 ≤ length words.now }
    requires moves { answer.moves * move_size ≤ length log.now }
    requires log { length log.now ≤ 65536 }
    ensures { Prints (Some (lines_after (refusal_in answer.verdict) (answer_lines n answer words.now log.now product.now))) out.old result out.new }
{
    let Err(refusal) = refusal_in(answer.verdict) else {
        return print_parts(
            first_line(answer).as_slice(),
            &words[..n * RECORD],
            &log[..answer.moves * MOVE],
            product_part(answer.verdict, product),
            out,
        );
    };
    print_refusal(refusal, out)
}

// The part of the product's buffer that is printed: the product of a member, and otherwise none.
fn product_part(verdict: Verdict, product: &[u8]) -> &[u8]
    requires { 64 ≤ length product.now }
    ensures part { result.now ≡ cond (is_member verdict) (take 64 product.now) [] }
    ensures most { length result.now ≤ 64 }
{
    if is_member(verdict) {
        &product[..RECORD]
    } else {
        b""
    }
}

// Prints one line that says why the input is refused.
pub fn print_refusal(refusal: Refusal, out: &mut [u8]) -> Result<usize, Unprinted>
    ensures { Prints (Some (refusal_line refusal)) out.old result out.new }
{
    print_parts(refusal_line(refusal).as_slice(), b"", b"", b"", out)
}

// Writes the parts of an output one after the other, where there is room for them all.
fn print_parts(
    line: &[u8],
    words: &[u8],
    log: &[u8],
    product: &[u8],
    out: &mut [u8],
) -> Result<usize, Unprinted>
    requires line { length line.now ≤ 80 }
    requires words { length words.now ≤ 1024 }
    requires log { length log.now ≤ 65536 }
    requires product { length product.now ≤ 64 }
    ensures { Prints (Some (line.now ++ words.now ++ log.now ++ product.now)) out.old result out.new }
{
    let size = line.len() + words.len() + log.len() + product.len();
    // Not get_mut: std says nothing of what a slice ends as after it.
    if out.len() < size {
        return Err(Unprinted::Short(size));
    }
    let (first, rest) = out.split_at_mut(line.len());
    let (second, rest) = rest.split_at_mut(words.len());
    let (third, rest) = rest.split_at_mut(log.len());
    first.copy_from_slice(line);
    second.copy_from_slice(words);
    third.copy_from_slice(log);
    rest[..product.len()].copy_from_slice(product);
    Ok(size)
}
