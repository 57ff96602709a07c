// Ask: whether a target lies in the subgroup that a reduced system generates, and for a member the product that it is.
#![tactic(auto)]

ghost use Rattle.std.specs.Prelude.{◌≤◌, ◌≡◌, length};
ghost use Rattle.factoring.specs.TargetProduct.{is_found, product_after, product_for, target_word};
ghost use Rattle.asking.specs.Asking.{ask_answer, ask_product, question_rules, ready_rules, verdict_of};
ghost use Rattle.asking.specs.Meaning.{AskMeans};

use factoring::factor_target;
use marks::Search;
use records::answers::{Answer, Refusal, Verdict, check_that};
use records::record::{RECORD, as_record, check_target};
use records::refusals::Reason;
use reduction::test::is_reduced;
use slots::checks::check_system;
use slots::system::System;

// Asks a reduced system about a target: for a member the product over its freely reduced words goes into the lent buffer.
pub fn ask(system: &[u8], target: &[u8], product: &mut [u8]) -> Answer
    ensures answer { result ≡ ask_answer system.now target.now product.old }
    ensures product { product.new ≡ ask_product system.now target.now product.old }
    ensures means { AskMeans system.now target.now product.old result product.new }
{
    let checked = check_question(system, target);
    let Ok(()) = checked else {
        return Answer::from(checked);
    };
    let mut search = Search::new();
    search.load(system);
    let ready = check_ready(&mut search, product.len());
    let Ok(()) = ready else {
        return Answer::from(ready);
    };
    let verdict = ask_words(as_record(target), search.system().words(), product);
    Answer { verdict }
}

// Refusals 1 to 6: a system and a target.
fn check_question(system: &[u8], target: &[u8]) -> Result<(), Refusal>
    ensures { result ≡ question_rules system.now target.now }
{
    let checked = check_system(system);
    let Ok(()) = checked else {
        return checked;
    };
    check_target(target)
}

// Refusals 15 and 11: the words of a system are reduced, and the product has room.
fn check_ready(search: &mut Search, room: usize) -> Result<(), Refusal>
    ensures ready { result ≡ ready_rules search.old room }
    ensures same { search.new ≡ search.old }
{
    let reduced = is_reduced(search);
    let checked = check_that(reduced, Reason::SystemNotReduced, 0);
    let Ok(()) = checked else {
        return checked;
    };
    check_that(room >= RECORD, Reason::ProductBufferShort, 0)
}

// The verdict on a target over the words of a reduced system, with the product of a member in the lent buffer.
pub fn ask_words(target: &[u8; 64], system: &System, product: &mut [u8]) -> Verdict
    requires { 64 ≤ length product.old }
    ensures verdict { result ≡ verdict_of (is_found (product_for system.now (target_word target.now))) }
    ensures product { product.new ≡ product_after (product_for system.now (target_word target.now)) product.old }
{
    if factor_target(target, system, product) {
        Verdict::Member
    } else {
        Verdict::NotMember
    }
}
