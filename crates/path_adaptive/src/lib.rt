// Halving the spans of strokes until they are short on the screen: path_chop_adaptive of the source, over lent lists.
// A call is walked twice, by the same steps: `measure` counts and touches nothing, and `write` then writes what fits.
#![tactic(auto)]

mod measure;
mod screen;
mod write;

ghost use Rattle.std.specs.Prelude.{◌≡◌};
ghost use Rattle.path.specs.Call.{left};
ghost use Rattle.path.specs.Tests.{entries_good};
ghost use Rattle.path_adaptive.specs.Call.{said, entries_of, numbers_good, point_room, verdict_of, adaptive_left};

use crate::measure::measure_strokes;
use crate::screen::view_of;
use crate::write::write_strokes;
use path::{coordinates_good, counted, entries_good, shaped, size_good, step_good, tolerance_good};
use refusal::{MOST_POINTS, Refusal};
use vector::Vector;
use vector::matrix::Matrix;

// How many points and starts chop_adaptive wrote, and how many halvings it made: so far, where the next ones go.
#[derive(Clone, Copy, Debug, PartialEq, Eq)]
pub struct Adapted {
    pub points: usize,
    pub starts: usize,
    pub halvings: usize,
}

// The screen, and when a span is short: the square of a step, and the tolerance. It goes down the recursion behind a reference, as one word.
#[derive(Clone, Copy)]
struct View {
    matrix: Matrix,
    width: f64,
    height: f64,
    square: f64,
    tolerance: f64,
}

// A point with its place on the screen.
#[derive(Clone, Copy)]
struct Shown {
    here: Vector,
    seen: Vector,
}

// The room for points and starts that is left.
#[derive(Clone, Copy)]
struct Budget {
    points: usize,
    starts: usize,
}

// How many halvings may lie on each other.
const DEPTH: u32 = 64;

// Whether all entries of a matrix are within the bound.
fn matrix_good(m: Matrix) -> bool
    ensures { result ≡ entries_good (entries_of m) }
{
    let entries = [
        m.x00, m.x01, m.x02, m.x03, m.x10, m.x11, m.x12, m.x13, m.x20, m.x21, m.x22, m.x23, m.x30,
        m.x31, m.x32, m.x33,
    ];
    entries_good(&entries)
}

// Whether the numbers beside the points are good.
fn numbers_good(matrix: Matrix, width: f64, height: f64, step: f64, tolerance: f64) -> bool
    ensures { result ≡ numbers_good matrix width height step tolerance }
{
    if !matrix_good(matrix) {
        return false;
    }
    if !size_good(width) {
        return false;
    }
    if !size_good(height) {
        return false;
    }
    if !step_good(step) {
        return false;
    }
    tolerance_good(tolerance)
}

// How many points may be written into so many numbers.
fn point_room(room: usize) -> usize
    ensures { result ≡ point_room room }
{
    let n = room / 3;
    if MOST_POINTS < n {
        return MOST_POINTS;
    }
    n
}

// The tests of a call, in the order of their numbers, and last what the walk meets first.
fn adaptive_verdict(
    points: &[f64],
    starts: &[u32],
    matrix: Matrix,
    width: f64,
    height: f64,
    step: f64,
    tolerance: f64,
    room: usize,
    start_room: usize,
) -> Result<(), Refusal>
    ensures { result ≡ verdict_of points.now starts.now matrix width height step tolerance room start_room }
{
    if !shaped(points, starts) {
        return Err(Refusal::Shape);
    }
    if !counted(points.len() / 3, starts.len()) {
        return Err(Refusal::Count);
    }
    if !coordinates_good(points) {
        return Err(Refusal::Number);
    }
    if !numbers_good(matrix, width, height, step, tolerance) {
        return Err(Refusal::Number);
    }
    let view = view_of(matrix, width, height, step, tolerance);
    let budget = Budget {
        points: point_room(room),
        starts: start_room,
    };
    measure_strokes(&view, points, starts, budget)?;
    Ok(())
}

// Halves every span until it is short on the screen.
pub fn chop_adaptive(
    points: &[f64],
    starts: &[u32],
    matrix: Matrix,
    width: f64,
    height: f64,
    step: f64,
    tolerance: f64,
    out_points: &mut [f64],
    out_starts: &mut [u32],
) -> Result<Adapted, Refusal>
    ensures { left (said result) out_points.new out_starts.new
        ≡ adaptive_left points.now starts.now matrix width height step tolerance out_points.old out_starts.old }
{
    adaptive_verdict(
        points,
        starts,
        matrix,
        width,
        height,
        step,
        tolerance,
        out_points.len(),
        out_starts.len(),
    )?;
    let view = view_of(matrix, width, height, step, tolerance);
    Ok(write_strokes(&view, points, starts, out_points, out_starts))
}
