// The folded graph of a system: its loops are laid in a table of edges and folded, and a word is traced. The table keeps the edges of the
// loops; what they are folded to is kept beside it, in two arrays that last as long as a call.
#![tactic(auto)]

mod filing;
mod folds;
mod loops;

ghost use Rattle.std.specs.Prelude.{◌<◌, ◌≤◌, ◌≡◌, ◌*◌, ℕ, All, get_or, length};
ghost use Rattle.words.specs.Alphabet.{bytes};
ghost use Rattle.words.specs.Words.{freely_reduce};
ghost use Rattle.records.specs.Records.{AllLetters};
ghost use Rattle.slots.specs.Systems.{LetterWords};
ghost use Rattle.graphs.specs.Folding.{member_by_graph};
ghost use Rattle.folding.specs.Filing.{Fits, leads_back};
ghost use Rattle.folding.specs.Sweeps.{EdgeAmong, TracedIn};

use filing::{ROW, lead};
use folds::fold;
use graphs::Edge;
use loops::lay;
use slots::system::System;

// The most points that the loops of a system have: the base, and 62 for each of 16 words.
const POINTS: usize = 993;

// A row of places for each of them.
const PLACES: usize = POINTS * ROW;

// The points of a short sheet. For so few points fewer places have to be cleared.
const FEW_POINTS: usize = 256;

// A row of places for each of these.
const FEW_PLACES: usize = FEW_POINTS * ROW;

// Whether a freely reduced word is a member of what a system generates, by the folded graph of the system.
pub fn member_by_graph(system: &System, word: &[u8], edges: &mut [Edge]) -> bool
    requires system { LetterWords system.now }
    requires letters { AllLetters word.now }
    requires freely { freely_reduce bytes word.now ≡ word.now }
    requires room { 1008 ≤ length edges.old }
    ensures { result ≡ member_by_graph bytes system.now word.now }
{
    let laid = lay(system, edges);
    let mut points = [0; POINTS];
    let edges = &edges[..laid.edges];
    let points = &mut points[..laid.points];
    if laid.points <= FEW_POINTS {
        trace::<FEW_PLACES>(word, edges, points)
    } else {
        trace::<PLACES>(word, edges, points)
    }
}

// Folds edges, and traces a word in the graph that they are folded to, with room for so many places in the index.
fn trace<const ROOM: usize>(word: &[u8], edges: &[Edge], points: &mut [u16]) -> bool
    requires points { (0 < length points.old) × (length points.old ≤ 993) }
    requires room { (length points.old * 58 ≤ ROOM) × (ROOM ≤ 57594) }
    requires edges { All (EdgeAmong (length points.old)) edges.now }
    requires letters { AllLetters word.now }
    requires freely { freely_reduce bytes word.now ≡ word.now }
    ensures { TracedIn edges.now word.now result }
{
    let mut index = [0; ROOM];
    number_points(points);
    fold(edges, points, &mut index);
    leads_back(word, points, &index)
}

// Lets each point be itself.
fn number_points(points: &mut [u16])
    requires { length points.old ≤ 993 }
    ensures { (p : ℕ) → p < length points.new → get_or points.new p 0 ≡ p }
{
    for (number, point) in points.iter_mut().enumerate() {
        *point = number as u16;
    }
}

// Whether the letters of a word lead from the base back to the base.
fn leads_back(word: &[u8], points: &[u16], index: &[u16]) -> bool
    requires fits { Fits points.now index.now }
    requires base { 0 < length points.now }
    requires letters { AllLetters word.now }
    ensures { result ≡ leads_back points.now index.now word.now }
{
    let mut here = 0;
    for letter in word {
        let Some(next) = lead(points, index, here, u16::from(*letter)) else {
            return false;
        };
        here = next;
    }
    here == 0
}
