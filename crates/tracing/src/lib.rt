// Trace: whether a target lies in the subgroup that a system generates, by the folded graph of the system.
#![tactic(auto)]

ghost use Rattle.std.specs.Prelude.{◌≡◌, length};
ghost use Rattle.asking.specs.Asking.{verdict_of};
ghost use Rattle.tracing.specs.Meaning.{AgreesWithMember, KeptWhenRefused, TraceMeans};
ghost use Rattle.tracing.specs.Tracing.{trace_answer, trace_tests};

use folding::member_by_graph;
use graphs::Edge;
use records::answers::{Answer, Refusal, Verdict, check_that};
use records::record::{as_record, check_target, word_in};
use records::refusals::Reason;
use slots::checks::check_system;
use slots::system::System;
use words::word::Word;

// The edges of 16 loops of 63 letters.
const EDGES: usize = 1008;

// Decides whether a target lies in the subgroup that a system generates, by its folded graph, whose loops are laid in a lent table of edges.
pub fn trace(system: &[u8], target: &[u8], table: &mut [Edge]) -> Answer
    ensures answer { result ≡ trace_answer system.now target.now (length table.old) }
    ensures table { KeptWhenRefused result table.old table.new }
    ensures means { TraceMeans system.now target.now (length table.old) result }
    ensures agrees { AgreesWithMember system.now target.now (length table.old) result }
{
    let checked = check_trace(system, target, table.len());
    let Ok(()) = checked else {
        return Answer::from(checked);
    };
    let mut words = System::new();
    words.load(system);
    let mut word = Word::<64>::new();
    word.reduce(word_in(as_record(target)));
    let verdict = verdict_of(member_by_graph(&words, word.letters(), table));
    Answer { verdict }
}

// Refusals 1 to 6 and 21.
fn check_trace(system: &[u8], target: &[u8], edges: usize) -> Result<(), Refusal>
    ensures { result ≡ trace_tests system.now target.now edges }
{
    let checked = check_system(system);
    let Ok(()) = checked else {
        return checked;
    };
    let targeted = check_target(target);
    let Ok(()) = targeted else {
        return targeted;
    };
    check_that(edges >= EDGES, Reason::EdgeTableShort, 0)
}

// The verdict on a target that is a member, or is not.
fn verdict_of(member: bool) -> Verdict
    ensures { result ≡ verdict_of member }
{
    if member {
        Verdict::Member
    } else {
        Verdict::NotMember
    }
}
