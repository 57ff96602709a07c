// What the program prints, from what it read: the output, written into a lent buffer.
#![tactic(auto)]

ghost use Rattle.std.specs.Prelude.{◌≤◌, ℕ, List, ◌≡◌, length};
ghost use Rattle.input.specs.Input.{Holds};
ghost use Rattle.output.specs.Meaning.{PrintMeans};
ghost use Rattle.output.specs.Output.{answer_output, input_rules, output_from};
ghost use Rattle.printing.specs.Printing.{Prints, printed_answer, printed_buffer};

use input::LONGEST;
use membership::member;
use printing::answers::Unprinted;
use printing::{print_reduction, print_refusal};
use records::answers::{Refusal, check_that};
use records::record::RECORD;
use records::refusals::Reason;

// Writes the program's output into a lent buffer, from the bytes kept of its input and the input's length as it was counted.
pub fn print(kept: &[u8], size: usize, out: &mut [u8]) -> Result<usize, Unprinted>
    ensures answer { result ≡ printed_answer (output_from kept.now size) (length out.old) }
    ensures out { out.new ≡ printed_buffer (output_from kept.now size) out.old }
    ensures means { (input : List ℕ) → Holds input kept.now size → 1088 ≤ length kept.now → 66704 ≤ length out.old → PrintMeans input out.old result out.new }
{
    let Err(refusal) = check_input(size) else {
        return print_kept(kept, size, out);
    };
    print_refusal(refusal, out)
}

// Refusals 6, 2 and 1 by the length of the input.
#[tactic(auto, unfolding(crate::specs::Output::input_rules))]
fn check_input(size: usize) -> Result<(), Refusal>
    ensures { result ≡ input_rules size }
{
    let some = check_that(size != 0, Reason::TargetOrProductMalformed, 0);
    let Ok(()) = some else {
        return some;
    };
    let short = check_that(size <= LONGEST, Reason::SystemTooLong, 0);
    let Ok(()) = short else {
        return short;
    };
    check_that(size % RECORD == 0, Reason::SystemUneven, 0)
}

// Prints the answer to an input whose length is not refused, where all of it was kept.
fn print_kept(kept: &[u8], size: usize, out: &mut [u8]) -> Result<usize, Unprinted>
    requires { input_rules size ≡ Ok tt }
    ensures { Prints (output_from kept.now size) out.old result out.new }
{
    let Some(records) = kept.get(..size) else {
        return Err(Unprinted::Missing);
    };
    print_answer(records, out)
}

// Asks member about the last record, with the earlier ones as the system, and prints its answer.
fn print_answer(records: &[u8], out: &mut [u8]) -> Result<usize, Unprinted>
    requires least { 64 ≤ length records.now }
    requires most { length records.now ≤ 1088 }
    ensures { Prints (Some (answer_output records.now)) out.old result out.new }
{
    let (system, target) = records.split_at(records.len() - RECORD);
    let mut words = [0; 1024];
    let mut log = [0; 65536];
    let mut product = [0; RECORD];
    let answer = member(system, target, &mut words, &mut log, &mut product);
    print_reduction(answer, system.len() / RECORD, &words, &log, &product, out)
}
