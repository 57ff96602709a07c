// Member: reduce, and then ask the reduced system about the target.
#![tactic(auto)]

ghost use Rattle.std.specs.Prelude.{◌*◌, ◌≤◌, ◌≡◌, length};
ghost use Rattle.words.specs.Buffers.{written};
ghost use Rattle.slots.specs.Systems.{bytes_of};
ghost use Rattle.factoring.specs.TargetProduct.{is_found, product_after, product_for, target_word};
ghost use Rattle.asking.specs.Asking.{verdict_of};
ghost use Rattle.membership.specs.Meaning.{InTurn, MemberMeans, NotRefused};
ghost use Rattle.membership.specs.Membership.{member_answer, member_log, member_product, member_tests, member_words};

use asking::ask_words;
use marks::Search;
use records::answers::{Refusal, check_that, refuse};
use records::record::{RECORD, as_record, check_target};
use records::refusals::Reason;
use reduction::answers::Reduction;
use runs::run;
use slots::checks::{check_room, check_system};

// Decides whether a target lies in the subgroup that a system generates: the reduced words, the log of the moves and, for a member, the
// product go into the lent buffers.
pub fn member(
    system: &[u8],
    target: &[u8],
    words: &mut [u8],
    log: &mut [u8],
    product: &mut [u8],
) -> Reduction
    ensures answer { result ≡ member_answer system.now target.now words.old log.old product.old }
    ensures words { words.new ≡ member_words system.now target.now words.old log.old product.old }
    ensures log { log.new ≡ member_log system.now target.now words.old log.old product.old }
    ensures product { product.new ≡ member_product system.now target.now words.old log.old product.old }
    ensures means { MemberMeans system.now target.now words.old log.old product.old result words.new log.new product.new }
    ensures in_turn { NotRefused result.verdict → InTurn system.now target.now words.old log.old product.old result words.new log.new product.new }
{
    let checked = check_member(system, target, words.len(), product.len());
    let Ok(()) = checked else {
        return Reduction::from(checked);
    };
    let mut search = Search::new();
    search.load(system);
    let ran = run(&mut search, log);
    let Ok(moves) = ran else {
        return Reduction::from(refuse(Reason::LogBufferShort, 0));
    };
    let reduced = search.system().words();
    reduced.store(words);
    let verdict = ask_words(as_record(target), reduced, product);
    Reduction::of(verdict, moves, reduced)
}

// Refusals 1 to 5, 6, 10 and 11.
fn check_member(system: &[u8], target: &[u8], room: usize, product: usize) -> Result<(), Refusal>
    ensures { result ≡ member_tests system.now target.now room product }
{
    let checked = check_system(system);
    let Ok(()) = checked else {
        return checked;
    };
    let targeted = check_target(target);
    let Ok(()) = targeted else {
        return targeted;
    };
    let n = system.len() / RECORD;
    let roomy = check_room(n * RECORD, room);
    let Ok(()) = roomy else {
        return roomy;
    };
    check_that(product >= RECORD, Reason::ProductBufferShort, 0)
}
