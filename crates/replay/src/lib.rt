// Replay: a system and a log in, the system after the log's moves out, forward or backward.
#![tactic(auto)]

ghost use Rattle.std.specs.Prelude.{◌<◌, ◌≡◌, Ok, length};
ghost use Rattle.words.specs.Alphabet.{bytes};
ghost use Rattle.systems.specs.Moves.{made};
ghost use Rattle.moves.specs.Found.{Between};
ghost use Rattle.moves.specs.Logs.{log_rules, moves_in};
ghost use Rattle.replay.specs.Replay.{move_rules, place_at, replay_answer, replay_buffer, replay_tests, replayed, run_rules, directed as directed_move};

use moves::log::{Logged, MOVE, check_log, read_move};
use moves::make::make_move;
use records::answers::{Answer, Refusal, check_that};
use records::record::RECORD;
use records::refusals::Reason;
use slots::checks::{check_room, check_system};
use slots::system::System;
use systems::Move;

// Runs a log over a system and writes the words after it into the lent buffer.
pub fn replay(system: &[u8], log: &[u8], backward: bool, words: &mut [u8]) -> Answer
    ensures answer { result ≡ replay_answer system.now log.now backward words.old }
    ensures words { words.new ≡ replay_buffer system.now log.now backward words.old }
{
    let checked = check_replay(system, log, words.len());
    let Ok(()) = checked else {
        return Answer::from(checked);
    };
    let mut words_now = System::new();
    words_now.load(system);
    let ran = run(log, backward, &mut words_now);
    let Ok(()) = ran else {
        return Answer::from(ran);
    };
    words_now.store(words);
    Answer::from(ran)
}

// Refusals 1 to 5, 7, 8 and 10.
fn check_replay(system: &[u8], log: &[u8], room: usize) -> Result<(), Refusal>
    ensures { result ≡ replay_tests system.now log.now room }
{
    let checked = check_system(system);
    let Ok(()) = checked else {
        return checked;
    };
    let n = system.len() / RECORD;
    let logged = check_log(n, log);
    let Ok(()) = logged else {
        return logged;
    };
    check_room(n * RECORD, room)
}

// Runs the moves of a log, the first one first, or undoes them, the last one first, with refusals 12 and 22.
fn run(log: &[u8], backward: bool, system: &mut System) -> Result<(), Refusal>
    requires valid { log_rules (length system.old) log.now ≡ Ok tt }
    ensures rules { result ≡ run_rules backward system.old log.now }
    ensures words { result ≡ Ok tt → system.new ≡ replayed backward system.old (moves_in log.now) }
{
    let (log_records, _) = log.as_chunks::<MOVE>();
    for done in 0..log_records.len() {
        let at = place_at(backward, log_records.len(), done);
        let logged = read_move(system.len(), &log_records[at]);
        let moved = run_move(system, backward, logged, at + 1);
        let Ok(()) = moved else {
            return moved;
        };
    }
    Ok(())
}

// Makes or undoes one move of a log, with refusal 12 and then 22 by its number there.
fn run_move(
    system: &mut System,
    backward: bool,
    logged: Logged,
    number: usize,
) -> Result<(), Refusal>
    requires { Between (length system.old) logged.made }
    ensures rules { result ≡ move_rules backward system.old logged number }
    ensures made { result ≡ Ok tt → system.new ≡ made bytes system.old (directed_move backward logged.made) }
{
    let m = directed(backward, logged.made);
    let before = system.word(m.changed).len();
    let fitted = check_that(make_move(system, m), Reason::WordTooLong, number);
    let Ok(()) = fitted else {
        return fitted;
    };
    let after = if backward {
        before
    } else {
        system.word(m.changed).len()
    };
    check_that(logged.new_length == after, Reason::LengthDiffers, number)
}

// Where the next move stands in the log when some of them are done.
fn place_at(backward: bool, count: usize, done: usize) -> usize
    requires { done < count }
    ensures inside { result < count }
    ensures place { result ≡ place_at backward count done }
{
    if backward { count - 1 - done } else { done }
}

// A move, or backward the move that takes it back.
fn directed(backward: bool, m: Move) -> Move
    ensures slots { (result.changed ≡ m.changed) × (result.other ≡ m.other) }
    ensures directed { result ≡ directed_move backward m }
{
    if backward { m.undo() } else { m }
}
