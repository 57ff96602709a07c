// Steps are looked up, filed and folded. Beside the edges folding keeps two arrays. `points` has the point that each point of the loops has
// become. `index` has a row for each point, and in it a place for each byte from A to z: 0, or q + 1 where a step to the point q was
// filed, which leads to what q has become.
ghost use Rattle.std.specs.Prelude.{◌<◌, ◌≤◌, ◌≡◌, length, map};
ghost use Rattle.graphs.specs.Graphs.{joined};
ghost use Rattle.folding.specs.Filing.{Fits, index_after, lead, place, points_after, step_folds};

use graphs::Edge;

// A row of places for the bytes from A to z.
pub const ROW: usize = 58;

// The place of a point and a letter.
fn place(point: u16, letter: u16) -> usize
    requires { (point < 993) × (65 ≤ letter) × (letter < 123) }
    ensures { result ≡ place point letter }
{
    point as usize * ROW + letter as usize - 65
}

// Where a point leads by a letter.
pub fn lead(points: &[u16], index: &[u16], point: u16, letter: u16) -> Option<u16>
    requires fits { Fits points.now index.now }
    requires point { point < length points.now }
    requires letter { (65 ≤ letter) × (letter < 123) }
    ensures { result ≡ lead points.now index.now point letter }
{
    let entry = index[place(point, letter)];
    if entry == 0 {
        return None;
    }
    Some(points[entry as usize - 1])
}

// What becomes of a point where two points are made one.
fn joined(one: u16, other: u16, point: u16) -> u16
    ensures { result ≡ joined one other point }
{
    if point == one.max(other) {
        one.min(other)
    } else {
        point
    }
}

// Makes two points one.
fn join(points: &mut [u16], one: u16, other: u16)
    ensures { points.new ≡ map (joined one other) points.old }
{
    for point in points.iter_mut() {
        *point = joined(one, other, *point);
    }
}

// Files a step: what its first end has become leads by its letter to what its other end has become. Where it leads to another point already,
// that point and the one that the other end has become are made one, and the answer is yes.
pub fn file(points: &mut [u16], index: &mut [u16], step: Edge) -> bool
    requires fits { Fits points.old index.old }
    requires ends { (step.from < length points.old) × (step.to < length points.old) }
    requires letter { (65 ≤ step.letter) × (step.letter < 123) }
    ensures folds { result ≡ step_folds points.old index.old step }
    ensures points { points.new ≡ points_after points.old index.old step }
    ensures index { index.new ≡ index_after points.old index.old step }
{
    let from = points[step.from as usize];
    let to = points[step.to as usize];
    let Some(other) = lead(points, index, from, step.letter) else {
        index[place(from, step.letter)] = to + 1;
        return false;
    };
    if other == to {
        return false;
    }
    join(points, other, to);
    true
}
