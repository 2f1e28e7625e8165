// What a call writes: the walk that stores its points and counts its halvings. (The walk that only counts is
// another, in measure: a refusal comes before anything is written.)
ghost use Rattle.std.specs.Prelude.{◌≡◌, false, ◌+◌, ◌-◌, ◌≤◌, ◌<◌, length};
ghost use Rattle.refusal.specs.Limits.{most_points};
ghost use Rattle.path.specs.Strokes.{point_at, gather};
ghost use Rattle.path.specs.Laid.{joined};
ghost use Rattle.path.specs.InnerPushes.{put_points, out, push, push_all};
ghost use Rattle.path_adaptive.specs.Walk.{span_ends, one_point, most_halvings, walk, walk_from, stroke_walked, walks_of, adapted, halvings_of};
ghost use Rattle.path_adaptive.specs.InnerWrite.{Calm, Fits, Inks, places_in};
ghost use Rattle.path_adaptive.specs.InnerSpan.{shown_at};

use crate::screen::{divider, show, terminator};
use crate::{Adapted, DEPTH, Shown, View};
use path::{end_of, point_at, put, put_point};
use vector::Vector;

// Where the next point goes, and how many halvings were made so far.
#[derive(Clone, Copy)]
struct Mark {
    points: usize,
    halvings: usize,
}

// Writes a point.
fn collector(out: &mut [f64], at: Mark, v: Vector) -> Mark
    requires { at.points < most_points }
    ensures { Inks (one_point v) out.old at out.new result }
{
    put_point(out, at.points, v);
    Mark {
        points: at.points + 1,
        halvings: at.halvings,
    }
}

// Writes the walk of a span from a, at s on the screen, to b, at t, with a falling depth.
#[cycle(halve_recursive_subdivide)]
fn recursive_subdivide(
    view: &View,
    a: Vector,
    s: Vector,
    b: Vector,
    t: Vector,
    depth: u32,
    out: &mut [f64],
    at: Mark,
) -> Mark
    requires { Fits (walk depth view.now (shown_at a s) (shown_at b t)) at }
    ensures { Inks (walk depth view.now (shown_at a s) (shown_at b t)) out.old at out.new result }
{
    if terminator(view, a, s, b, t) {
        return collector(out, at, b);
    }
    halve(view, a, s, b, t, depth, out, at)
}

// Writes the walk of a span that is halved: this halving is counted, then its left half goes, then its right. At depth 0 nothing fits.
#[cycle(halve_recursive_subdivide)]
fn halve(
    view: &View,
    a: Vector,
    s: Vector,
    b: Vector,
    t: Vector,
    depth: u32,
    out: &mut [f64],
    at: Mark,
) -> Mark
    requires { (span_ends view.now (shown_at a s) (shown_at b t) ≡ false) × Fits (walk depth view.now (shown_at a s) (shown_at b t)) at }
    ensures { Inks (walk depth view.now (shown_at a s) (shown_at b t)) out.old at out.new result }
{
    if depth == 0 {
        return at;
    }
    let mid = divider(view, a, b);
    let m = mid.here;
    let n = mid.seen;
    let next = Mark {
        points: at.points,
        halvings: at.halvings + 1,
    };
    let left = recursive_subdivide(view, a, s, m, n, depth - 1, out, next);
    recursive_subdivide(view, m, n, b, t, depth - 1, out, left)
}

// Writes the walk of a span.
fn write_span(view: &View, a: Shown, b: Shown, out: &mut [f64], at: Mark) -> Mark
    requires { Fits (walk most_halvings view.now a b) at }
    ensures { Inks (walk most_halvings view.now a b) out.old at out.new result }
{
    let p = a.here;
    let q = b.here;
    let s = a.seen;
    let t = b.seen;
    recursive_subdivide(view, p, s, q, t, DEPTH, out, at)
}

// Writes what the spans over the points from place i up to e give, after the point before them.
fn write_spans(
    view: &View,
    points: &[f64],
    i: usize,
    e: usize,
    first: Shown,
    out: &mut [f64],
    at: Mark,
) -> Mark
    requires { Fits (walk_from view.now first (gather (point_at points.now) i (e - i))) at }
    ensures { Inks (walk_from view.now first (gather (point_at points.now) i (e - i))) out.old at out.new result }
{
    let mut p = first;
    let mut k = at;
    for j in i..e {
        let q = show(view, point_at(points, j));
        k = write_span(view, p, q, out, k);
        p = q;
    }
    k
}

// Writes a stroke that is not empty.
fn write_adapted(view: &View, points: &[f64], a: usize, e: usize, out: &mut [f64], at: Mark) -> Mark
    requires { (a < e) × Fits (stroke_walked view.now (gather (point_at points.now) a (e - a))) at }
    ensures { Inks (stroke_walked view.now (gather (point_at points.now) a (e - a))) out.old at out.new result }
{
    let v = point_at(points, a);
    let next = collector(out, at, v);
    write_spans(view, points, a + 1, e, show(view, v), out, next)
}

// Writes a stroke and its start; of an empty one nothing.
fn write_stroke(
    view: &View,
    points: &[f64],
    a: usize,
    e: usize,
    out_points: &mut [f64],
    out_starts: &mut [u32],
    w: Adapted,
) -> Adapted
    requires { Fits (stroke_walked view.now (gather (point_at points.now) a (e - a))) (record { points = w.points; halvings = w.halvings }) × (w.starts ≤ most_points) }
    ensures { (out out_points.new out_starts.new (places_in result)
        ≡ push put_points (out out_points.old out_starts.old (places_in w)) (stroke_walked view.now (gather (point_at points.now) a (e - a))).points)
        × (result.halvings ≡ w.halvings + (stroke_walked view.now (gather (point_at points.now) a (e - a))).halvings) }
{
    if e <= a {
        return w;
    }
    let k = w.starts;
    put(out_starts, k, w.points as u32);
    let at = Mark {
        points: w.points,
        halvings: w.halvings,
    };
    let m = write_adapted(view, points, a, e, out_points, at);
    made_of(m, k + 1)
}

// What was made, from the marks of the points and of the starts.
fn made_of(m: Mark, starts: usize) -> Adapted
    ensures { result ≡ record { points = m.points; starts = starts; halvings = m.halvings } }
{
    Adapted {
        points: m.points,
        starts,
        halvings: m.halvings,
    }
}

// Writes every stroke.
pub(crate) fn write_strokes(
    view: &View,
    points: &[f64],
    starts: &[u32],
    out_points: &mut [f64],
    out_starts: &mut [u32],
) -> Adapted
    requires { Calm (walks_of view.now points.now starts.now) × (length (joined (adapted (walks_of view.now points.now starts.now))) ≤ most_points)
        × (length starts.now ≤ most_points) × (halvings_of (walks_of view.now points.now starts.now) ≤ most_points) }
    ensures { (out out_points.new out_starts.new (places_in result)
        ≡ push_all put_points (out out_points.old out_starts.old (record { points = 0; starts = 0 })) (adapted (walks_of view.now points.entry.now starts.now)))
        × (result.halvings ≡ halvings_of (walks_of view.now points.entry.now starts.now)) }
{
    let none = Mark {
        points: 0,
        halvings: 0,
    };
    let mut w = made_of(none, 0);
    for i in 0..starts.len() {
        let a = starts[i] as usize;
        let e = end_of(starts, i, points.len() / 3);
        w = write_stroke(view, points, a, e, out_points, out_starts, w);
    }
    w
}
