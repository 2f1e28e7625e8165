// A span on the screen: its middle, and whether it is short enough. The divider and the terminator of the source.
ghost use Rattle.std.specs.Prelude.{◌≡◌};
ghost use Rattle.path_adaptive.specs.InnerSpan.{shown_at, middle_at};
ghost use Rattle.path_adaptive.specs.Walk.{view_of, shown_of, both_below, both_above, outside_of, span_ends};

use crate::{Shown, View};
use vector::Vector;
use vector::matrix::Matrix;

// The screen of a call, with the step squared.
pub(crate) fn view_of(matrix: Matrix, width: f64, height: f64, step: f64, tolerance: f64) -> View
    ensures { result ≡ view_of matrix width height step tolerance }
{
    View {
        matrix: matrix,
        width: width,
        height: height,
        square: step * step,
        tolerance: tolerance,
    }
}

// A point with its place on the screen.
pub(crate) fn show(view: &View, v: Vector) -> Shown
    ensures { result ≡ shown_of view.now v }
{
    Shown {
        here: v,
        seen: view.matrix.mul_position_w(v),
    }
}

// The middle of two points.
pub(crate) fn divider(view: &View, a: Vector, b: Vector) -> Shown
    ensures { result ≡ shown_of view.now (middle_at a b) }
{
    show(view, a.add(b).mul_scalar(0.5))
}

// Whether both are below a limit.
fn both_below(limit: f64, a: f64, b: f64) -> bool
    ensures { result ≡ both_below limit a b }
{
    if a < limit {
        return b < limit;
    }
    false
}

// Whether both are above a limit.
fn both_above(limit: f64, a: f64, b: f64) -> bool
    ensures { result ≡ both_above limit a b }
{
    if a > limit {
        return b > limit;
    }
    false
}

// Whether both ends lie past one side of the screen.
fn outside(view: &View, a: Vector, b: Vector) -> bool
    ensures { result ≡ outside_of view.now a b }
{
    if both_below(0.0, a.x, b.x) {
        return true;
    }
    if both_below(0.0, a.y, b.y) {
        return true;
    }
    if both_above(view.width, a.x, b.x) {
        return true;
    }
    both_above(view.height, a.y, b.y)
}

// Whether a span from a, at s on the screen, to b, at t, is not halved.
pub(crate) fn terminator(view: &View, a: Vector, s: Vector, b: Vector, t: Vector) -> bool
    ensures { result ≡ span_ends view.now (shown_at a s) (shown_at b t) }
{
    if outside(view, s, t) {
        return true;
    }
    if s.distance_squared(t) < view.square {
        return true;
    }
    a.distance_squared(b) < view.tolerance
}
