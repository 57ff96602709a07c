// Sweeps over the edges: each step is filed, along its edge and backward, sweep after sweep, until none is left to fold.
ghost use Rattle.std.specs.Prelude.{◌<◌, ◌≡◌, length};
ghost use Rattle.words.specs.Alphabet.{bytes};
ghost use Rattle.graphs.specs.Graphs.{back};
ghost use Rattle.folding.specs.Sweeps.{AnyStep, Folded, FoldedSoFar, Swept, edge_at_turn};

use crate::filing::file;
use graphs::Edge;

// An edge taken backward.
fn back(edge: Edge) -> Edge
    ensures { result ≡ back bytes edge }
{
    Edge {
        from: edge.to,
        letter: edge.letter ^ 32,
        to: edge.from,
    }
}

// The edge of a turn in a sweep from the first edge up, or from the last one down.
fn edge_at(edges: &[Edge], down: bool, turn: usize) -> Edge
    requires { turn < length edges.now }
    ensures { result ≡ edge_at_turn edges.now down turn }
{
    let at = if down { edges.len() - 1 - turn } else { turn };
    edges[at]
}

// Files every edge, along it and backward, and answers whether two points have become one.
fn sweep(edges: &[Edge], down: bool, points: &mut [u16], index: &mut [u16]) -> bool
    requires { FoldedSoFar edges.now points.old index.old }
    ensures { Swept edges.now points.old (AnyStep edges.now) result points.new index.new }
{
    let mut changed = false;
    for turn in 0..edges.len() {
        let edge = edge_at(edges, down, turn);
        let along = file(points, index, edge);
        let backward = file(points, index, back(edge));
        changed = changed | along | backward;
    }
    changed
}

// Folds edges until none are left to fold. Sweeps up and down take turns: where words have common ends a sweep down folds much that sweeps
// up would fold one by one.
pub fn fold(edges: &[Edge], points: &mut [u16], index: &mut [u16])
    requires { FoldedSoFar edges.now points.old index.old }
    ensures { Folded edges.now points.new index.new }
{
    let mut down = false;
    while sweep(edges, down, points, index) {
        down = !down;
    }
}
