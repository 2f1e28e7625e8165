// Segments between points, joined into strokes: ends meet where their points are the same.
#![tactic(auto)]

ghost use Rattle.std.specs.Prelude.{◌≡◌, [], ◌∷◌, ◌+◌, ◌*◌, ◌≤◌, length, replicate};
ghost use Rattle.refusal.specs.Said.{accepted};
ghost use Rattle.refusal.specs.Limits.{most_strokes, most_points};
ghost use Rattle.order.specs.Regions.{put};
ghost use Rattle.path.specs.InnerPushes.{put_points};
ghost use Rattle.path_splice_links.specs.Layout.{todo_at};
ghost use Rattle.path_splice.specs.InnerText.{entry_text, start_mark, order_text, marks_of, ReadOut};
ghost use Rattle.path_segments.specs.Join.{segments_in, join_fits, left, join_left};
ghost use Rattle.path_segments.specs.InnerJoin.{Drawn};

use order::clear;
use path::{Place, point_at, put_point};
use path_classes::number_points;
use path_splice::{fits, put_mark};
use path_splice_links::{ORDER, TODO, WORDS, thread};
use path_splice_rule::Endpoint;

// Writes that each of n segments is there.
fn fill_todo(s: &mut [u32], n: usize)
    requires { (12 * n ≤ length s.old) × (n ≤ most_strokes) }
    ensures { s.new ≡ put s.old (todo_at n) (replicate n 1) }
{
    let t = TODO * n;
    let h = WORDS * n;
    s[t..h].fill(1);
}

// Writes what entry x of an order of n segments reads, and answers the place after it: a joined segment loses its first
// read point.
fn read_entry(points: &[f64], n: usize, x: u32, out: &mut [f64], at: usize) -> usize
    requires { at ≤ most_points }
    ensures { (out.new ≡ put_points out.old at (entry_text (segments_in points.now n) x))
        × (result ≡ at + length (entry_text (segments_in points.now n) x)) }
{
    let e = Endpoint(x as usize / 2);
    if n <= e.path_id() {
        return at;
    }
    let f = e.opposite();
    if x % 2 == 0 {
        put_point(out, at, point_at(points, f.0));
        return at + 1;
    }
    put_point(out, at, point_at(points, e.0));
    put_point(out, at + 1, point_at(points, f.0));
    at + 2
}

// Writes the strokes that an order joins. It is no one function with path_splice's: each reads what its entries say in its own way, and
// a trait for that would be longer than this loop.
fn read_out(
    points: &[f64],
    n: usize,
    order: &[u32],
    out_points: &mut [f64],
    out_starts: &mut [u32],
) -> Place
    requires { (length (order_text (segments_in points.now n) order.now) ≤ most_points) × (length (marks_of (segments_in points.now n) 0 order.now) ≤ most_strokes) }
    ensures { ReadOut put_points (segments_in points.now n) order.now out_points.old out_starts.old
        out_points.new out_starts.new result.points result.starts }
{
    let mut p: usize = 0;
    let mut q: usize = 0;
    for x in order {
        q = put_mark(out_starts, q, p as u32, *x);
        p = read_entry(points, n, *x, out_points, p);
    }
    Place {
        points: p,
        starts: q,
    }
}

// Writes the strokes that n segments join to.
fn join_in(
    points: &[f64],
    n: usize,
    s: &mut [u32],
    out_points: &mut [f64],
    out_starts: &mut [u32],
) -> Place
    requires { (12 * n ≤ length s.old) × (n ≤ most_strokes) × (6 * n ≤ length out_points.old) × (n ≤ length out_starts.old) }
    ensures { Drawn points.now n s.old s.new out_points.old out_starts.old
        out_points.new out_starts.new result.points result.starts }
{
    number_points(points, 2 * n, s);
    fill_todo(s, n);
    let c = thread(s, n);
    let m = ORDER * n;
    let e = m + c;
    read_out(points, n, &s[m..e], out_points, out_starts)
}

// Joins the first n segments of a list of points, two points each, into lent room. The first 12 n words are zero after
// it. Where it does not fit, nothing is changed and nothing written.
#[tactic(auto, using(path_splice::proofs::Pairs::fit_all))]
pub fn join_segments(
    points: &[f64],
    n: usize,
    s: &mut [u32],
    out_points: &mut [f64],
    out_starts: &mut [u32],
) -> Place
    ensures { left (accepted (result.points ∷ result.starts ∷ [])) s.new out_points.new out_starts.new
        ≡ join_left points.now n s.old out_points.old out_starts.old }
{
    if !fits::<12, 6>(n, s.len(), out_points.len(), out_starts.len()) {
        return Place {
            points: 0,
            starts: 0,
        };
    }
    let p = join_in(points, n, s, out_points, out_starts);
    let h = 12 * n;
    clear(&mut s[..h]);
    p
}
