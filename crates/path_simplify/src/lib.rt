// Leaving points out of strokes: path_simplify of the source, over lent lists.
#![tactic(auto)]

mod notes;

ghost use Rattle.std.specs.Prelude.{◌≡◌, true, false, ◌+◌, ◌-◌, ◌/◌, ◌≤◌, ◌<◌, length, get_or, leb};
ghost use Rattle.std.specs.Float.{binary64};
ghost use Rattle.std.specs.Float.Ieee.{div, eq, lt};
ghost use Rattle.refusal.specs.Limits.{most_points, most_to_simplify};
ghost use Rattle.path.specs.Strokes.{point_at, good_starts};
ghost use Rattle.path.specs.Laid.{joined};
ghost use Rattle.path.specs.InnerPushes.{put_points, out, push, push_all};
ghost use Rattle.path.specs.Courses.{course, advanced};
ghost use Rattle.path.specs.Call.{left};
ghost use Rattle.path_simplify.specs.Simplify.{farther_of, farthest, splits_at, thin, thinned, simplified, distances, simplified_of};
ghost use Rattle.path_simplify.specs.InnerSquares.{split_of, places_in};
ghost use Rattle.vector.specs.Lengths.{zero64, one64, segment_distance_of};
ghost use Rattle.path_simplify.specs.InnerSquares.{segment_square_of, far_of, settled_of, Rising};
ghost use Rattle.path_simplify.specs.InnerNotes.{thin_at, plus};
ghost use Rattle.path_simplify.specs.Call.{said, short_of, room_for, threshold_good, verdict_of, simplify_left};

use crate::notes::Notes;
use path::{Place, coordinates_good, counted, end_of, point_at, put, put_point, shaped};
use refusal::{MOST_TO_SIMPLIFY, Refusal};
use vector::Vector;
use vector::number::{root_above, root_exceeds};

// How many points and starts simplify wrote, and how many distances it measured: so far, where the next ones go.
#[derive(Clone, Copy, Debug, PartialEq, Eq)]
pub struct Simplified {
    pub points: usize,
    pub starts: usize,
    pub distances: usize,
}

// The farthest point of a scan so far: its place, and the square of how far it is.
#[derive(Clone, Copy)]
struct Best {
    at: usize,
    square: f64,
}

// The last three points of a scan whose squares were above all before them, the latest first. Where the root of the latest is
// level with an earlier one's, that one is the farthest; it is one of these, since four squares, each below the next, never have
// one root.
#[derive(Clone, Copy)]
struct Records {
    first: Best,
    second: Best,
    third: Best,
}

// The square of the distance of p from the segment from v to w: segment_distance before its root, as the source tests it.
fn clamped_square(p: Vector, v: Vector, w: Vector) -> f64
    ensures { result ≡ segment_square_of p v w }
{
    let l2 = v.distance_squared(w);
    if l2 == 0.0 {
        return p.distance_squared(v);
    }
    let t = p.sub(v).dot(w.sub(v)) / l2;
    if t < 0.0 {
        return p.distance_squared(v);
    }
    if t > 1.0 {
        return p.distance_squared(w);
    }
    v.add(w.sub(v).mul_scalar(t)).distance_squared(p)
}

// Whether a point that lies d along a span of squared length l2 surely lies between its ends: no quotient is needed to tell.
fn inside(d: f64, l2: f64) -> bool
    ensures { result ≡ true → (eq l2 zero64 ≡ false) × (lt (div binary64 d l2) zero64 ≡ false) × (lt one64 (div binary64 d l2) ≡ false) }
{
    if d < l2 {
        return d > 0.0;
    }
    false
}

// The same, with the tests before the division, which would keep them waiting.
fn segment_square(p: Vector, v: Vector, w: Vector) -> f64
    ensures { result ≡ segment_square_of p v w }
{
    let l2 = v.distance_squared(w);
    let d = p.sub(v).dot(w.sub(v));
    if inside(d, l2) {
        return v.add(w.sub(v).mul_scalar(d / l2)).distance_squared(p);
    }
    clamped_square(p, v, w)
}

// The farther of two, the first where they are level. No root is worked out: a square that is not the greatest so far has no
// greater root, and the three greatest are kept until it is known which of them is the farthest.
fn farther(r: Records, i: usize, p: Vector, a: Vector, b: Vector) -> Records
    requires { Rising r }
    ensures { (far_of (settled_of result) ≡ farther_of (far_of (settled_of r)) i (segment_distance_of p a b)) × Rising result }
{
    let square = segment_square(p, a, b);
    let first = r.first;
    let second = r.second;
    if square > first.square {
        return Records {
            first: Best {
                at: i,
                square: square,
            },
            second: first,
            third: second,
        };
    }
    r
}

// The farthest of a scan: the first of its records whose root is that of the greatest.
fn settle(r: Records) -> Best
    ensures { result ≡ settled_of r }
{
    let first = r.first;
    let second = r.second;
    let third = r.third;
    if root_above(first.square, second.square) {
        return first;
    }
    if root_above(first.square, third.square) {
        return second;
    }
    third
}

// The point at place i, which is there: nothing is tested. (mesh_weld reads vertices so too: path lends no function that asks anything.)
fn point_in(points: &[f64], i: usize) -> Vector
    requires { i < length points.now / 3 }
    ensures { result ≡ point_at points.now i }
{
    let k = i * 3;
    Vector {
        x: points[k],
        y: points[k + 1],
        z: points[k + 2],
    }
}

// The first farthest of the points between lo and hi from the segment between those two.
fn find_far(points: &[f64], lo: usize, hi: usize) -> Best
    requires { (lo < hi) × (hi < length points.now / 3) }
    ensures { far_of result ≡ farthest (point_at points.now) lo hi }
{
    let a = point_in(points, lo);
    let b = point_in(points, hi);
    let none = Best {
        at: lo,
        square: 0.0,
    };
    let mut best = Records {
        first: none,
        second: none,
        third: none,
    };
    for i in lo + 1..hi {
        best = farther(best, i, point_in(points, i), a, b);
    }
    settle(best)
}

// Whether the farthest splits the points from lo on: its distance, the root, strictly above the threshold.
fn splits(f: Best, lo: usize, threshold: f64) -> bool
    ensures { result ≡ splits_at (far_of f) lo threshold }
{
    let m = f.at;
    if root_exceeds(f.square, threshold) {
        return lo < m;
    }
    false
}

// The place that splits the points from lo up to hi, if one does. A function of its own and called at more than
// one place, so that the search is no part of `keep`: what `keep` holds is held once for each level.
fn split_at(points: &[f64], lo: usize, hi: usize, threshold: f64) -> Option<usize>
    requires { (lo < hi) × (hi < length points.now / 3) }
    ensures { result ≡ split_of (farthest (point_at points.now) lo hi) lo threshold }
{
    let f = find_far(points, lo, hi);
    if splits(f, lo, threshold) {
        return Some(f.at);
    }
    None
}

// Notes what is kept of the points from lo up to hi, but for the last, by recursion on the falling length. They are split at m, if anywhere.
fn keep(points: &[f64], lo: usize, m: Option<usize>, hi: usize, threshold: f64, kept: &mut Notes)
    requires { (lo < hi) × (hi < length points.now / 3) × (m ≡ split_of (farthest (point_at points.now) lo hi) lo threshold)
        × (kept.old.count + length (thin (hi - lo) threshold (point_at points.now) lo hi).points ≤ most_to_simplify)
        × (kept.old.distances + (thin (hi - lo) threshold (point_at points.now) lo hi).measured ≤ 4294967296) }
    ensures { (thin_at (point_at points.now) kept.new ≡ plus (thin_at (point_at points.now) kept.old) (thin (hi - lo) threshold (point_at points.now) lo hi))
        × (kept.new.count ≡ kept.old.count + length (thin (hi - lo) threshold (point_at points.now) lo hi).points) }
{
    kept.measure(hi - lo - 1);
    match m {
        None => kept.note(lo),
        Some(at) => {
            let l = split_at(points, lo, at, threshold);
            keep(points, lo, l, at, threshold, kept);
            let r = split_at(points, at, hi, threshold);
            keep(points, at, r, hi, threshold, kept);
        }
    }
}

// The same, where there may be no points between.
fn keep_front(points: &[f64], lo: usize, hi: usize, threshold: f64, kept: &mut Notes)
    requires { (hi < length points.now / 3)
        × (kept.old.count + length (thin (hi - lo) threshold (point_at points.now) lo hi).points ≤ most_to_simplify)
        × (kept.old.distances + (thin (hi - lo) threshold (point_at points.now) lo hi).measured ≤ 4294967296) }
    ensures { (thin_at (point_at points.now) kept.new ≡ plus (thin_at (point_at points.now) kept.old) (thin (hi - lo) threshold (point_at points.now) lo hi))
        × (kept.new.count ≡ kept.old.count + length (thin (hi - lo) threshold (point_at points.now) lo hi).points) }
{
    if hi <= lo {
        return;
    }
    let m = split_at(points, lo, hi, threshold);
    keep(points, lo, m, hi, threshold, kept);
}

// Notes what is kept of a stroke from place a up to e, its last point too.
fn keep_stroke(points: &[f64], a: usize, e: usize, threshold: f64, kept: &mut Notes)
    requires { (a < e) × (e - a ≤ most_to_simplify) × (e ≤ length points.now / 3) }
    ensures { (thin_at (point_at points.now) kept.new ≡ thinned threshold (point_at points.now) a e)
        × (kept.new.count ≡ length (thinned threshold (point_at points.now) a e).points) }
{
    kept.clear();
    keep_front(points, a, e - 1, threshold, kept);
    kept.note(e - 1);
}

// Writes the points at the places noted.
fn lay(points: &[f64], kept: &Notes, out: &mut [f64], at: usize)
    requires { at + kept.now.count ≤ most_points }
    ensures { out.new ≡ put_points out.old at (thin_at (point_at points.now) kept.now).points }
{
    for i in 0..kept.count {
        put_point(out, at + i, point_at(points, kept.places[i]));
    }
}

// Writes what is kept of a stroke from place a up to e.
fn write_thinned(
    points: &[f64],
    a: usize,
    e: usize,
    threshold: f64,
    out: &mut [f64],
    at: usize,
    kept: &mut Notes,
)
    requires { (a < e) × (e - a ≤ most_to_simplify) × (e ≤ length points.now / 3)
        × (at + length (thinned threshold (point_at points.now) a e).points ≤ most_points) }
    ensures { (course out.new (at + kept.new.count) ≡ advanced put_points (course out.old at) (thinned threshold (point_at points.now) a e).points)
        × (kept.new.count ≡ length (thinned threshold (point_at points.now) a e).points)
        × (kept.new.distances ≡ (thinned threshold (point_at points.now) a e).measured) }
{
    keep_stroke(points, a, e, threshold, kept);
    lay(points, kept, out, at);
}

// Writes a stroke and its start; of an empty one nothing.
fn write_stroke(
    points: &[f64],
    a: usize,
    e: usize,
    threshold: f64,
    out_points: &mut [f64],
    out_starts: &mut [u32],
    w: Simplified,
    kept: &mut Notes,
) -> Simplified
    requires { (e - a ≤ most_to_simplify) × (w.points + length (thinned threshold (point_at points.now) a e).points ≤ most_points) × (w.starts ≤ most_points)
        × (w.distances + (thinned threshold (point_at points.now) a e).measured ≤ 4294967296) × (e ≤ length points.now / 3) }
    ensures { (out out_points.new out_starts.new (places_in result)
        ≡ push put_points (out out_points.old out_starts.old (places_in w)) (thinned threshold (point_at points.now) a e).points)
        × (result.distances ≡ w.distances + (thinned threshold (point_at points.now) a e).measured) }
{
    if e <= a {
        return w;
    }
    let at = w.points;
    let k = w.starts;
    put(out_starts, k, at as u32);
    write_thinned(points, a, e, threshold, out_points, at, kept);
    Simplified {
        points: at + kept.count,
        starts: k + 1,
        distances: w.distances + kept.distances,
    }
}

// Writes every stroke.
fn write_strokes(
    points: &[f64],
    starts: &[u32],
    threshold: f64,
    out_points: &mut [f64],
    out_starts: &mut [u32],
) -> Simplified
    requires { (length (joined (simplified (simplified_of threshold points.now starts.now))) ≤ most_points) × (length starts.now ≤ most_points)
        × (distances (simplified_of threshold points.now starts.now) ≤ 4294967296) × (good_starts (length points.now / 3) starts.now ≡ true)
        × (short_of (length points.now / 3) starts.now ≡ true) }
    ensures { (out out_points.new out_starts.new (places_in result)
        ≡ push_all put_points (out out_points.old out_starts.old (record { points = 0; starts = 0 })) (simplified (simplified_of threshold points.entry.now starts.now)))
        × (result.distances ≡ distances (simplified_of threshold points.entry.now starts.now)) }
{
    let mut kept = Notes {
        distances: 0,
        count: 0,
        places: [0; MOST_TO_SIMPLIFY],
    };
    let mut w = Simplified {
        points: 0,
        starts: 0,
        distances: 0,
    };
    for i in 0..starts.len() {
        let a = starts[i] as usize;
        let e = end_of(starts, i, points.len() / 3);
        w = write_stroke(
            points, a, e, threshold, out_points, out_starts, w, &mut kept,
        );
    }
    w
}

// Whether a stroke from place a up to e is not too long to simplify. (`saturating_sub` is slower here, which empty strokes show.)
fn short_stroke(a: usize, e: usize) -> bool
    ensures { result ≡ leb (e - a) most_to_simplify }
{
    e <= a || e - a <= MOST_TO_SIMPLIFY
}

// Whether none of the strokes of n points is.
fn short_strokes(starts: &[u32], n: usize) -> bool
    ensures { result ≡ short_of n starts.now }
{
    for j in 0..starts.len() {
        let a = starts[j] as usize;
        let e = end_of(starts, j, n);
        if !short_stroke(a, e) {
            return false;
        }
    }
    true
}

// Whether a threshold is not NaN and not below 0.
fn threshold_good(threshold: f64) -> bool
    ensures { result ≡ threshold_good threshold }
{
    0.0 <= threshold
}

// Whether there is room for as many numbers and starts as are read.
fn fits(numbers: usize, starts: usize, room: usize, start_room: usize) -> bool
    ensures { result ≡ room_for numbers starts room start_room }
{
    if room < numbers {
        return false;
    }
    starts <= start_room
}

// The tests of a call, in the order of their numbers. They stay apart from the writing, so that the loops of each have all registers.
#[inline(never)]
fn simplify_verdict(
    points: &[f64],
    starts: &[u32],
    threshold: f64,
    room: usize,
    start_room: usize,
) -> Result<(), Refusal>
    ensures { result ≡ verdict_of points.now starts.now threshold room start_room }
{
    if !shaped(points, starts) {
        return Err(Refusal::Shape);
    }
    let n = points.len() / 3;
    if !counted(n, starts.len()) {
        return Err(Refusal::Count);
    }
    if !short_strokes(starts, n) {
        return Err(Refusal::Count);
    }
    if !coordinates_good(points) {
        return Err(Refusal::Number);
    }
    if !threshold_good(threshold) {
        return Err(Refusal::Number);
    }
    if !fits(points.len(), starts.len(), room, start_room) {
        return Err(Refusal::Room);
    }
    Ok(())
}

// Leaves the points out of every stroke that are no farther than the threshold.
pub fn simplify(
    points: &[f64],
    starts: &[u32],
    threshold: f64,
    out_points: &mut [f64],
    out_starts: &mut [u32],
) -> Result<Simplified, Refusal>
    ensures { left (said result) out_points.new out_starts.new
        ≡ simplify_left points.now starts.now threshold out_points.old out_starts.old }
{
    simplify_verdict(
        points,
        starts,
        threshold,
        out_points.len(),
        out_starts.len(),
    )?;
    Ok(write_strokes(points, starts, threshold, out_points, out_starts))
}
