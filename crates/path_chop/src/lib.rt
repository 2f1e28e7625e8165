// Cutting strokes into steps: path_chop of the source, over lent lists.
#![tactic(auto)]

ghost use Rattle.std.specs.Prelude.{◌≡◌, cond, ◌&&◌, map, ◌+◌, ◌-◌, ◌*◌, ◌/◌, ◌≤◌, ◌<◌, leb, Float, length};
ghost use Rattle.std.specs.Float.Ieee.{lt};
ghost use Rattle.refusal.specs.Limits.{most_points};
ghost use Rattle.vector.specs.Root.{root_of};
ghost use Rattle.vector.specs.Lengths.{or_nan, length_of};
ghost use Rattle.vector.specs.Vectors.{sub_of};
ghost use Rattle.path.specs.Strokes.{point_at, gather};
ghost use Rattle.path.specs.Laid.{joined, non_empty};
ghost use Rattle.path.specs.InnerPushes.{put_points, out, push, push_all};
ghost use Rattle.path.specs.Courses.{course, advanced};
ghost use Rattle.path.specs.Call.{left, placed_said};
ghost use Rattle.path_chop.specs.Chop.{too_many, along, steps_of, span, spans, chopped, chopped_of};
ghost use Rattle.path_chop.specs.InnerCounts.{length_or_step, capped};
ghost use Rattle.path_chop.specs.Call.{room_for, verdict_of, chop_left};

use path::{Place, coordinates_good, counted, end_of, point_at, put, put_point, shaped, step_good};
use refusal::{MOST_POINTS, Refusal};
use vector::Vector;
use vector::number::{root_exceeds, root_or_nan};

// No more points than these are looked at in one span.
const TOO_MANY: usize = MOST_POINTS + 1;

// How many points lie within a span of length l, no more than most of them counted. d is a running sum, as the source's.
fn count_steps(l: f64, step: f64, most: usize) -> usize
    ensures { (result ≡ length (steps_of most l step step)) × (result ≤ most) }
{
    let mut d = step;
    for n in 0..most {
        if d < l {
            d = d + step;
        } else {
            return n;
        }
    }
    most
}

// Writes the points within a span of length l along v from a. (A `while`: as a `for` it was tried, and strokes whose spans are not cut
// took a tenth longer.)
fn write_steps(a: Vector, v: Vector, l: f64, step: f64, out: &mut [f64], at: usize) -> usize
    requires { at + length (steps_of too_many l step step) ≤ most_points }
    ensures { course out.new result ≡ advanced put_points (course out.old at) (map (along a v l) (steps_of too_many l step step)) }
{
    let mut n = 0;
    let mut o = at;
    let mut d = step; // the first point lies a step from a
    while n < TOO_MANY {
        if d < l {
            put_point(out, o, a.add(v.mul_scalar(d / l)));
            n += 1;
            o += 1;
            d = d + step; // a running sum, never a product
        } else {
            return o;
        }
    }
    o
}

// The length of a span by its square, or the step where none lies within the span: the root is worked out only where it serves.
fn reach(square: f64, step: f64) -> f64
    ensures { result ≡ length_or_step step (or_nan (root_of square)) }
{
    if root_exceeds(square, step) {
        return root_or_nan(square);
    }
    step
}

// Writes what the span from a to b gives after a, where v is b from a and l its reach.
fn write_span(
    a: Vector,
    b: Vector,
    v: Vector,
    l: f64,
    step: f64,
    out: &mut [f64],
    at: usize,
) -> usize
    requires { (v ≡ sub_of b a) × (l ≡ length_or_step step (length_of v)) × (at + length (span too_many step a b) ≤ most_points) }
    ensures { course out.new result ≡ advanced put_points (course out.old at) (span too_many step a b) }
{
    let o = write_steps(a, v, l, step, out, at);
    put_point(out, o, b);
    o + 1
}

// Writes what the points from place i up to e give after the point before them. The reach of the next span
// is asked for before the steps of this one are written, so that its root is worked out beside them.
fn write_spans(
    points: &[f64],
    i: usize,
    e: usize,
    first: Vector,
    step: f64,
    out: &mut [f64],
    at: usize,
) -> usize
    requires { at + length (spans too_many step first (gather (point_at points.now) i (e - i))) ≤ most_points }
    ensures { course out.new result ≡ advanced put_points (course out.old at) (spans too_many step first (gather (point_at points.now) i (e - i))) }
{
    let mut o = at;
    let mut p = first;
    let mut v = point_at(points, i).sub(first);
    let mut l = reach(v.length_squared(), step);
    for j in i..e {
        let q = point_at(points, j);
        let w = point_at(points, j + 1).sub(q);
        let m = reach(w.length_squared(), step);
        o = write_span(p, q, v, l, step, out, o);
        p = q;
        v = w;
        l = m;
    }
    o
}

// Whether the stroke from place a up to e leaves something: one of fewer points than two vanishes.
fn kept(a: usize, e: usize) -> bool
    ensures { result ≡ leb 2 (e - a) }
{
    2 <= e.saturating_sub(a)
}

// Writes a stroke of two points or more, the points from place a up to e.
fn write_chopped(points: &[f64], a: usize, e: usize, step: f64, out: &mut [f64], at: usize) -> usize
    requires { (a + 2 ≤ e) × (at + length (chopped too_many step (gather (point_at points.now) a (e - a))) ≤ most_points) }
    ensures { course out.new result ≡ advanced put_points (course out.old at) (chopped too_many step (gather (point_at points.now) a (e - a))) }
{
    let p = point_at(points, a);
    put_point(out, at, p);
    write_spans(points, a + 1, e, p, step, out, at + 1)
}

// Writes a stroke and its start; of one that vanishes nothing.
fn write_stroke(
    points: &[f64],
    a: usize,
    e: usize,
    step: f64,
    out_points: &mut [f64],
    out_starts: &mut [u32],
    p: Place,
) -> Place
    requires { (p.points + length (chopped too_many step (gather (point_at points.now) a (e - a))) ≤ most_points) × (p.starts ≤ most_points) }
    ensures { out out_points.new out_starts.new result
        ≡ push put_points (out out_points.old out_starts.old p) (chopped too_many step (gather (point_at points.now) a (e - a))) }
{
    if !kept(a, e) {
        return p;
    }
    let at = p.points;
    let k = p.starts;
    put(out_starts, k, at as u32);
    let o = write_chopped(points, a, e, step, out_points, at);
    Place {
        points: o,
        starts: k + 1,
    }
}

// Writes every stroke.
fn write_strokes(
    points: &[f64],
    starts: &[u32],
    step: f64,
    out_points: &mut [f64],
    out_starts: &mut [u32],
) -> Place
    requires { (length (joined (chopped_of step points.now starts.now)) ≤ most_points) × (length starts.now ≤ most_points) }
    ensures { out out_points.new out_starts.new result
        ≡ push_all put_points (out out_points.old out_starts.old (record { points = 0; starts = 0 })) (chopped_of step points.entry.now starts.now) }
{
    let mut p = Place {
        points: 0,
        starts: 0,
    };
    for i in 0..starts.len() {
        let a = starts[i] as usize;
        let e = end_of(starts, i, points.len() / 3);
        p = write_stroke(points, a, e, step, out_points, out_starts, p);
    }
    p
}

// A count of points, no longer counted where it is above the most.
fn cap(n: usize) -> usize
    ensures { result ≡ capped n }
{
    if MOST_POINTS < n {
        return TOO_MANY;
    }
    n
}

// The larger of two, the first where they are level or one is NaN.
fn larger(a: f64, b: f64) -> f64
    ensures { result ≡ cond (lt a b) b a }
{
    if a < b {
        return b;
    }
    a
}

// The square of the longest of the spans over the points from place i up to e: none of them takes more steps than one so long.
fn longest(points: &[f64], i: usize, e: usize, first: Vector) -> f64
    ensures { (step : Float) → length (spans too_many step first (gather (point_at points.now) i (e - i))) ≤ (e - i) * (length (steps_of too_many (or_nan (root_of result)) step step) + 1) }
{
    let mut most = 0.0;
    let mut p = first;
    for j in i..e {
        let q = point_at(points, j);
        most = larger(most, q.sub(p).length_squared());
        p = q;
    }
    most
}

// A count with what the stroke from place a up to e adds at most: as if all its spans were as long as the longest. One root serves them all,
// and its steps are counted only up to the most that may follow.
fn bound_stroke(points: &[f64], a: usize, e: usize, step: f64, so_far: usize) -> usize
    requires { so_far ≤ too_many }
    ensures { (capped (so_far + length (chopped too_many step (gather (point_at points.now) a (e - a)))) ≤ result) × (result ≤ too_many) }
{
    if !kept(a, e) {
        return so_far;
    }
    let most = longest(points, a + 1, e, point_at(points, a));
    let n = count_steps(reach(most, step), step, TOO_MANY - so_far) + 1;
    let k = e - (a + 1);
    if TOO_MANY / n < k {
        return TOO_MANY;
    }
    cap(so_far + 1 + k * n)
}

// How many points all strokes give at most. No stroke is looked at once there are too many.
fn bound_strokes(points: &[f64], starts: &[u32], step: f64) -> usize
    ensures { (capped (length (joined (chopped_of step points.now starts.now))) ≤ result) × (result ≤ too_many) }
{
    let mut n = 0;
    for j in 0..starts.len() {
        if MOST_POINTS < n {
            return TOO_MANY;
        }
        let a = starts[j] as usize;
        let e = end_of(starts, j, points.len() / 3);
        n = bound_stroke(points, a, e, step, n);
    }
    n
}

// What the points from place i up to e add to a count. No span is looked at once there are too many.
fn count_spans(points: &[f64], i: usize, e: usize, first: Vector, step: f64, so_far: usize) -> usize
    requires { so_far ≤ too_many + 1 }
    ensures { result ≡ capped (so_far + length (spans too_many step first (gather (point_at points.now) i (e - i)))) }
{
    let mut n = so_far;
    let mut p = first;
    for j in i..e {
        if MOST_POINTS < n {
            return TOO_MANY;
        }
        let q = point_at(points, j);
        let l = reach(q.sub(p).length_squared(), step);
        n = n + count_steps(l, step, TOO_MANY - n) + 1;
        p = q;
    }
    cap(n)
}

// What the stroke from place a up to e adds to a count.
fn count_stroke(points: &[f64], a: usize, e: usize, step: f64, so_far: usize) -> usize
    requires { so_far ≤ too_many }
    ensures { result ≡ capped (so_far + length (chopped too_many step (gather (point_at points.now) a (e - a)))) }
{
    if !kept(a, e) {
        return cap(so_far);
    }
    count_spans(points, a + 1, e, point_at(points, a), step, so_far + 1)
}

// How many points would be written, no longer counted where they are too many.
fn count_strokes(points: &[f64], starts: &[u32], step: f64) -> usize
    ensures { result ≡ capped (length (joined (chopped_of step points.now starts.now))) }
{
    let mut n = 0;
    for j in 0..starts.len() {
        let a = starts[j] as usize;
        let e = end_of(starts, j, points.len() / 3);
        n = count_stroke(points, a, e, step, n);
    }
    n
}

// How many starts would be written, whatever the step.
fn kept_strokes(points: &[f64], starts: &[u32]) -> usize
    ensures { (step : Float) → result ≡ length (non_empty (chopped_of step points.now starts.now)) }
{
    let mut k = 0;
    for j in 0..starts.len() {
        let a = starts[j] as usize;
        let e = end_of(starts, j, points.len() / 3);
        if kept(a, e) {
            k += 1;
        }
    }
    k
}

// Whether so many points are not too many, and have room.
fn enough(n: usize, room: usize) -> bool
    requires { n ≤ too_many }
    ensures { result ≡ leb n most_points && leb (n * 3) room }
{
    if MOST_POINTS < n {
        return false;
    }
    n * 3 <= room
}

// Whether there is room for all, and not too much in all. The points are counted only where the bound does not tell.
fn fits(points: &[f64], starts: &[u32], step: f64, room: usize, start_room: usize) -> bool
    ensures { result ≡ room_for (chopped_of step points.now starts.now) room start_room }
{
    if start_room < kept_strokes(points, starts) {
        return false;
    }
    if enough(bound_strokes(points, starts, step), room) {
        return true;
    }
    enough(count_strokes(points, starts, step), room)
}

// The tests of a call, in the order of their numbers.
fn chop_verdict(
    points: &[f64],
    starts: &[u32],
    step: f64,
    room: usize,
    start_room: usize,
) -> Result<(), Refusal>
    ensures { result ≡ verdict_of points.now starts.now step room start_room }
{
    if !shaped(points, starts) {
        return Err(Refusal::Shape);
    }
    if !counted(points.len() / 3, starts.len()) {
        return Err(Refusal::Count);
    }
    if !coordinates_good(points) {
        return Err(Refusal::Number);
    }
    if !step_good(step) {
        return Err(Refusal::Number);
    }
    if !fits(points, starts, step, room, start_room) {
        return Err(Refusal::Room);
    }
    Ok(())
}

// Cuts every stroke into steps; a stroke of one point vanishes.
pub fn chop(
    points: &[f64],
    starts: &[u32],
    step: f64,
    out_points: &mut [f64],
    out_starts: &mut [u32],
) -> Result<Place, Refusal>
    ensures { left (placed_said result) out_points.new out_starts.new
        ≡ chop_left points.now starts.now step out_points.old out_starts.old }
{
    chop_verdict(points, starts, step, out_points.len(), out_starts.len())?;
    Ok(write_strokes(points, starts, step, out_points, out_starts))
}
