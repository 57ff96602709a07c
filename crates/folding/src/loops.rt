// The loops of a system, laid in a table of edges: each word that is not empty is a path of edges from the base, over new points, back to the
// base.
ghost use Rattle.std.specs.Prelude.{◌+◌, ◌<◌, ◌≤◌, ◌≡◌, length, take};
ghost use Rattle.words.specs.Alphabet.{bytes};
ghost use Rattle.systems.specs.Products.{FreelyReduced};
ghost use Rattle.graphs.specs.Graphs.{loop, loops};
ghost use Rattle.folding.specs.Loops.{loop_point, points_with_loops};

use graphs::Edge;
use slots::system::System;

// How many edges were laid, and how many points they have.
#[derive(Clone, Copy, Debug, PartialEq, Eq)]
pub struct Laid {
    pub edges: usize,
    pub points: usize,
}

// The point to which the step along the letter at a place of a word leads: a new one, or the base after the last letter.
fn point_after(word: &[u8], first: usize, at: usize) -> u16
    requires { (at < length word.now) × (first + at < 65536) }
    ensures { result ≡ loop_point word.now first at }
{
    if at + 1 < word.len() {
        (first + at) as u16
    } else {
        0
    }
}

// Lays a loop at the base for a word, over the new points from the first on.
fn lay_loop(word: &[u8], first: usize, edges: &mut [Edge])
    requires room { length edges.old ≡ length word.now }
    requires points { first + length word.now ≤ 65536 }
    ensures { edges.new ≡ loop 0 first word.now }
{
    let mut from = 0;
    for at in 0..word.len() {
        let to = point_after(word, first, at);
        edges[at] = Edge {
            from,
            letter: u16::from(word[at]),
            to,
        };
        from = to;
    }
}

// Lays a loop for each word of a system.
pub fn lay(system: &System, edges: &mut [Edge]) -> Laid
    requires { 1008 ≤ length edges.old }
    ensures edges { take result.edges edges.new ≡ loops 1 system.now }
    ensures few_edges { result.edges ≤ 1008 }
    ensures points { result.points ≡ points_with_loops 1 system.now }
    ensures few_points { (0 < result.points) × (result.points ≤ 993) }
    ensures freely { FreelyReduced bytes system.now }
{
    let mut laid = 0;
    let mut points = 1;
    for slot in 0..system.len() {
        let word = system.word(slot);
        let end = laid + word.len();
        lay_loop(word, points, &mut edges[laid..end]);
        laid = end;
        points += word.len().saturating_sub(1);
    }
    Laid {
        edges: laid,
        points,
    }
}
