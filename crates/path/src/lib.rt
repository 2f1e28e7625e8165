// Strokes: a lent list of elements and a lent table of starts, and what the calls on points share. The two stay two parameters: every call
// has them so, and in a clause `strokes.entry.points.now` would stand for `points.now`.
#![tactic(auto)]

ghost use Rattle.std.specs.Prelude.{◌≡◌, cond, ◌+◌, ◌*◌, length, get_or, set, replicate};
ghost use Rattle.std.specs.Float.{nan};
ghost use Rattle.vector.specs.Lengths.{zero64};
ghost use Rattle.path.specs.Strokes.{good_starts, point_at};
ghost use Rattle.path.specs.InnerPushes.{put_point};
ghost use Rattle.path.specs.Tests.{shaped_of, counted_of, within_of, all_within, coordinate_good, coordinates_good, entries_good, step_good, size_good, tolerance_good};
ghost use Rattle.path.specs.InnerBounds.{Bound};

use refusal::{MOST_POINTS, MOST_STROKES};
use vector::Vector;

// Where the next point and the next start go; what a call answers that wrote so many.
#[derive(Clone, Copy, Debug, PartialEq, Eq)]
pub struct Place {
    pub points: usize,
    pub starts: usize,
}

// Whether `starts` is a table for n elements: from 0 on, never falling, never past n.
pub fn rising(starts: &[u32], n: usize) -> bool
    ensures { result ≡ good_starts n starts.now }
{
    if starts.len() == 0 {
        return n == 0;
    }
    if starts[0] != 0 {
        return false;
    }
    let mut prev = 0;
    for i in 1..starts.len() {
        let s = starts[i];
        if s < prev {
            return false;
        }
        if n < s as usize {
            return false;
        }
        prev = s;
    }
    true
}

// The place after the last of stroke i's elements, of n in all.
pub fn end_of(starts: &[u32], i: usize, n: usize) -> usize
    ensures { result ≡ get_or starts.now (i + 1) n }
{
    if i < starts.len() {
        let j = i + 1;
        if j < starts.len() {
            return starts[j] as usize;
        }
    }
    n
}

// What is read past the end: NaN.
fn nothing() -> f64
    ensures { result ≡ nan }
{
    0.0 / 0.0
}

// The number at place k, NaN past the end.
pub fn number_at(points: &[f64], k: usize) -> f64
    ensures { result ≡ get_or points.now k nan }
{
    if k < points.len() {
        return points[k];
    }
    nothing()
}

// The point at place i where not all of it is there: NaN past the end.
fn point_past(points: &[f64], i: usize) -> Vector
    ensures { result ≡ point_at points.now i }
{
    if points.len() <= i {
        let x = nothing();
        return Vector { x: x, y: x, z: x };
    }
    let k = i * 3;
    Vector {
        x: number_at(points, k),
        y: number_at(points, k + 1),
        z: number_at(points, k + 2),
    }
}

// The point at place i, NaN past the end. One test serves all three of its numbers.
pub fn point_at(points: &[f64], i: usize) -> Vector
    ensures { result ≡ point_at points.now i }
{
    if i < points.len() / 3 {
        let k = i * 3;
        return Vector {
            x: points[k],
            y: points[k + 1],
            z: points[k + 2],
        };
    }
    point_past(points, i)
}

// Stores an element at place k; past the end nothing.
pub fn put<T: Copy>(out: &mut [T], k: usize, x: T)
    ensures { out.new ≡ set out.old k x }
{
    if k < out.len() {
        out[k] = x;
    }
}

// Stores what there is room for of a point at place i: past the end nothing.
#[tactic(auto, unfolding(crate::specs::InnerPushes::put_point))]
fn put_past(out: &mut [f64], i: usize, v: Vector)
    ensures { out.new ≡ put_point out.old i v }
{
    if i < out.len() {
        let k = i * 3;
        put(out, k, v.x);
        put(out, k + 1, v.y);
        put(out, k + 2, v.z);
    }
}

// Stores a point at place i; past the end nothing. One test serves all three of its numbers.
#[tactic(auto, unfolding(crate::specs::InnerPushes::put_point))]
pub fn put_point(out: &mut [f64], i: usize, v: Vector)
    ensures { out.new ≡ put_point out.old i v }
{
    if i < out.len() / 3 {
        let k = i * 3;
        out[k] = v.x;
        out[k + 1] = v.y;
        out[k + 2] = v.z;
    } else {
        put_past(out, i, v);
    }
}

// Sets every number to 0. (order has its like for words: no crate lies below both.)
pub fn clear_numbers(xs: &mut [f64])
    ensures { xs.new ≡ replicate (length xs.old) zero64 }
{
    xs.fill(0.0);
}

// Whether the points come three numbers each and the table is good for them.
#[tactic(auto, unfolding(crate::specs::Tests::shaped_of))]
pub fn shaped(points: &[f64], starts: &[u32]) -> bool
    ensures { result ≡ shaped_of points.now starts.now }
{
    if points.len() % 3 != 0 {
        return false;
    }
    rising(starts, points.len() / 3)
}

// Whether so many points and strokes are within the limits.
#[tactic(auto, unfolding(crate::specs::Tests::counted_of))]
pub fn counted(points: usize, strokes: usize) -> bool
    ensures { result ≡ counted_of points strokes }
{
    if MOST_POINTS < points {
        return false;
    }
    strokes <= MOST_STROKES
}

// The greatest magnitude of a coordinate, eye and plane too.
const MOST_COORDINATE: f64 = 1048576.0;

// The greatest magnitude of an entry of a matrix.
const MOST_ENTRY: f64 = 1048576.0;

// The greatest step, width and height.
const MOST_SIZE: f64 = 1048576.0;

// Whether the magnitude of a number is within a bound. (That it is a bound stands in three contracts: there are two of them, both constants.)
fn within(x: f64, most: f64) -> bool
    requires { Bound most }
    ensures { result ≡ within_of most x }
{
    if x < -most {
        return false;
    }
    x <= most
}

// 1 where it is not, else 0.
fn past(x: f64, most: f64) -> usize
    requires { Bound most }
    ensures { result ≡ cond (within_of most x) 0 1 }
{
    if within(x, most) {
        return 0;
    }
    1
}

// Whether all numbers are. Those that are not are counted: a loop with no way out looks at several at once.
fn all_within(xs: &[f64], most: f64) -> bool
    requires { Bound most }
    ensures { result ≡ all_within most xs.now }
{
    let mut bad = 0;
    for x in xs {
        bad += past(*x, most);
    }
    bad == 0
}

// Whether a coordinate is within its bound.
pub fn coordinate_good(x: f64) -> bool
    ensures { result ≡ coordinate_good x }
{
    within(x, MOST_COORDINATE)
}

// Whether all coordinates are.
pub fn coordinates_good(xs: &[f64]) -> bool
    ensures { result ≡ coordinates_good xs.now }
{
    all_within(xs, MOST_COORDINATE)
}

// Whether the entries of a matrix are within theirs.
pub fn entries_good(xs: &[f64]) -> bool
    ensures { result ≡ entries_good xs.now }
{
    all_within(xs, MOST_ENTRY)
}

// Whether a step is above 0 and within the bound.
pub fn step_good(x: f64) -> bool
    ensures { result ≡ step_good x }
{
    if 0.0 < x {
        return x <= MOST_SIZE;
    }
    false
}

// Whether a width or a height is at least 0 and within the bound.
pub fn size_good(x: f64) -> bool
    ensures { result ≡ size_good x }
{
    if 0.0 <= x {
        return x <= MOST_SIZE;
    }
    false
}

// Whether a tolerance lies strictly between 0 and 1.
pub fn tolerance_good(x: f64) -> bool
    ensures { result ≡ tolerance_good x }
{
    if 0.0 < x {
        return x < 1.0;
    }
    false
}
