// What a call would meet: the walk that only counts.
ghost use Rattle.std.specs.Prelude.{◌≡◌, false, ◌-◌, ◌≤◌, Ok};
ghost use Rattle.refusal.specs.Limits.{most_points};
ghost use Rattle.path.specs.Strokes.{point_at, gather};
ghost use Rattle.path_adaptive.specs.Walk.{span_ends, most_halvings, walk, walk_from, stroke_walked, walks_of};
ghost use Rattle.path_adaptive.specs.Tally.{begun, spent_stroke, spent_all};
ghost use Rattle.path_adaptive.specs.InnerMeasure.{pointed, tally_of, Takes, Meets};
ghost use Rattle.path_adaptive.specs.InnerSpan.{shown_at};

use crate::screen::{divider, show, terminator};
use crate::{Budget, DEPTH, Shown, View};
use path::{end_of, point_at};
use refusal::{MOST_POINTS, Refusal};
use vector::Vector;

// What the walk of a span hands on is one word: the points left, MOST_POINTS at most, or what stopped it.
// (A word comes back in a register, an enum through memory, and there is one at every halving.)
const NO_ROOM: usize = MOST_POINTS + 1;

const TOO_DEEP: usize = MOST_POINTS + 2;

// The tally of such a word: the room left, or the refusal.
#[tactic(auto, unfolding(crate::specs::InnerMeasure::tally_of))]
fn tally_of(left: usize, starts: usize) -> Result<Budget, Refusal>
    ensures { result ≡ tally_of left starts }
{
    if left <= MOST_POINTS {
        return Ok(Budget {
            points: left,
            starts,
        });
    }
    if left == NO_ROOM {
        return Err(Refusal::Room);
    }
    Err(Refusal::Deep)
}

// After a point.
#[tactic(auto, unfolding(crate::specs::InnerMeasure::pointed))]
fn spend(b: Budget) -> Result<Budget, Refusal>
    ensures { result ≡ pointed (Ok b) }
{
    if b.points == 0 {
        return Err(Refusal::Room);
    }
    Ok(Budget {
        points: b.points - 1,
        starts: b.starts,
    })
}

// After a start.
#[tactic(auto, unfolding(crate::specs::Tally::begun))]
fn begin(b: Budget) -> Result<Budget, Refusal>
    ensures { result ≡ begun (Ok b) }
{
    if b.starts == 0 {
        return Err(Refusal::Room);
    }
    Ok(Budget {
        points: b.points,
        starts: b.starts - 1,
    })
}

// Takes the room of a point.
fn collector(left: usize) -> usize
    requires { left ≤ most_points }
    ensures { Takes left result }
{
    if left == 0 {
        return NO_ROOM;
    }
    left - 1
}

// What the walk of a span meets, with a falling depth: from a, at s on the screen, to b, at t. (Four vectors, and not two of them in a
// struct each: on x86-64 those come in through memory, and every span takes half as long again.)
#[cycle(halve_recursive_subdivide)]
fn recursive_subdivide(
    view: &View,
    a: Vector,
    s: Vector,
    b: Vector,
    t: Vector,
    depth: u32,
    left: usize,
) -> usize
    requires { left ≤ most_points }
    ensures { Meets left (walk depth view.now (shown_at a s) (shown_at b t)) result }
{
    if terminator(view, a, s, b, t) {
        return collector(left);
    }
    halve(view, a, s, b, t, depth, left)
}

// What the walk of a span that is halved meets: its left half, then its right.
#[cycle(halve_recursive_subdivide)]
fn halve(view: &View, a: Vector, s: Vector, b: Vector, t: Vector, depth: u32, left: usize) -> usize
    requires { (span_ends view.now (shown_at a s) (shown_at b t) ≡ false) × (left ≤ most_points) }
    ensures { Meets left (walk depth view.now (shown_at a s) (shown_at b t)) result }
{
    if depth == 0 {
        return TOO_DEEP;
    }
    let mid = divider(view, a, b);
    let m = mid.here;
    let n = mid.seen;
    let after = recursive_subdivide(view, a, s, m, n, depth - 1, left);
    if after > MOST_POINTS {
        return after;
    }
    recursive_subdivide(view, m, n, b, t, depth - 1, after)
}

// What the walk of a span meets, where it is not stopped before.
fn measure_span(view: &View, a: Shown, b: Shown, left: usize) -> usize
    ensures { Meets left (walk most_halvings view.now a b) result }
{
    if left > MOST_POINTS {
        return left;
    }
    let p = a.here;
    let q = b.here;
    let s = a.seen;
    let t = b.seen;
    recursive_subdivide(view, p, s, q, t, DEPTH, left)
}

// What the spans over the points from place i up to e meet, after the point before them.
fn measure_spans(
    view: &View,
    points: &[f64],
    i: usize,
    e: usize,
    first: Shown,
    left: usize,
) -> usize
    ensures { Meets left (walk_from view.now first (gather (point_at points.now) i (e - i))) result }
{
    let mut p = first;
    let mut k = left;
    for j in i..e {
        let q = show(view, point_at(points, j));
        k = measure_span(view, p, q, k);
        p = q;
    }
    k
}

// What a stroke from place a up to e meets: its start with its first point, then its spans.
fn measure_stroke(
    view: &View,
    points: &[f64],
    a: usize,
    e: usize,
    b: Budget,
) -> Result<Budget, Refusal>
    requires { b.points ≤ most_points }
    ensures { result ≡ spent_stroke (Ok b) (stroke_walked view.now (gather (point_at points.now) a (e - a))) }
{
    if e <= a {
        return Ok(b);
    }
    let begun = begin(b)?;
    let s = spend(begun)?;
    let first = show(view, point_at(points, a));
    tally_of(
        measure_spans(view, points, a + 1, e, first, s.points),
        s.starts,
    )
}

// What all strokes meet, up to the first refusal.
pub(crate) fn measure_strokes(
    view: &View,
    points: &[f64],
    starts: &[u32],
    b: Budget,
) -> Result<Budget, Refusal>
    requires { b.points ≤ most_points }
    ensures { result ≡ spent_all (Ok b) (walks_of view.now points.now starts.now) }
{
    let mut s = b;
    for j in 0..starts.len() {
        let a = starts[j] as usize;
        let e = end_of(starts, j, points.len() / 3);
        s = measure_stroke(view, points, a, e, s)?;
    }
    Ok(s)
}
