// Reduce: the reduced system, the log, the number of moves, the rank and the verdict on independence.
ghost use Rattle.std.specs.Prelude.{◌≡◌};
ghost use Rattle.reduction.specs.Meaning.{ReduceMeans};
ghost use Rattle.reduction.specs.Reduction.{reduce_answer, reduce_log, reduce_words};

use crate::answers::Reduction;
use marks::Search;
use records::answers::{Verdict, refuse};
use records::refusals::Reason;
use runs::run;
use slots::checks::check_system_room;

// Reduces a system: the reduced words go into one lent buffer and the log of the moves into another.
pub fn reduce(system: &[u8], words: &mut [u8], log: &mut [u8]) -> Reduction
    ensures answer { result ≡ reduce_answer system.now words.old log.old }
    ensures words { words.new ≡ reduce_words system.now words.old log.old }
    ensures log { log.new ≡ reduce_log system.now words.old log.old }
    ensures means { ReduceMeans system.now words.old log.old result words.new log.new }
{
    let checked = check_system_room(system, words.len());
    let Ok(()) = checked else {
        return Reduction::from(checked);
    };
    let mut search = Search::new();
    search.load(system);
    let ran = run(&mut search, log);
    let Ok(moves) = ran else {
        return Reduction::from(refuse(Reason::LogBufferShort, 0));
    };
    let reduced = search.system().words();
    reduced.store(words);
    Reduction::of(Verdict::Done, moves, reduced)
}
