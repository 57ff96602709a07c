// The run of moves: the next move is found, made and logged until neither rule applies or the log is full.
#![tactic(auto)]

ghost use Rattle.std.specs.Prelude.{◌≡◌, ◌≤◌, length};
ghost use Rattle.words.specs.Alphabet.{bytes};
ghost use Rattle.words.specs.Buffers.{written};
ghost use Rattle.systems.specs.Rules.{moves_within, run_within};
ghost use Rattle.moves.specs.Logs.{logged_all, log_of};
ghost use Rattle.runs.specs.Runs.{FoundNext, ran, room_for};

use half_ends::find_half_end;
use marks::Search;
use moves::log::{Logged, MOVE, write_move};
use shortening::find_shortening;
use systems::{Found, Rule};

// The next move of the rules, with its rule: a shortening, or else a half-end move.
pub fn find_move(search: &mut Search) -> Option<Found>
    ensures found { FoundNext search.old result }
    ensures few { length search.old ≤ 16 }
    ensures same { search.new ≡ search.old }
{
    let shortening = Rule::Shortening.with(find_shortening(search));
    let None = shortening else {
        return shortening;
    };
    Rule::HalfEnd.with(find_half_end(search.system()))
}

// Runs the moves as far as the log has room for them, and answers how many were made: Ok where neither rule applies any more, and Err where
// the log is full before that.
pub fn run(search: &mut Search, log: &mut [u8]) -> Result<usize, usize>
    ensures moves { result ≡ ran (room_for log.old) search.old }
    ensures words { search.new ≡ run_within bytes (room_for log.old) search.old }
    ensures log { log.new ≡ written (log_of (logged_all search.old (moves_within bytes (room_for log.old) search.old))) log.old }
{
    let room = log.len() / MOVE;
    for used in 0..room {
        let Some(found) = find_move(search) else {
            return Ok(used);
        };
        let made = found.next;
        search.advance(made);
        let logged = Logged {
            made,
            rule: found.rule,
            new_length: search.system().words().word(made.changed).len(),
        };
        write_move(log, used, logged);
    }
    match find_move(search) {
        None => Ok(room),
        Some(_) => Err(room),
    }
}
