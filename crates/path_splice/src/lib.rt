// Splicing strokes of vertex numbers: strokes that meet end to end become one.
#![tactic(auto)]

ghost use Rattle.std.specs.Prelude.{◌≡◌, true, [], ◌∷◌, reverse, ℕ, ◌+◌, ◌-◌, ◌*◌, ◌/◌, ◌%◌, ◌^◌, ◌<◌, ◌≤◌, length, get_or, eqb};
ghost use Rattle.refusal.specs.Said.{accepted};
ghost use Rattle.order.specs.Regions.{region, put, Into2};
ghost use Rattle.path.specs.Strokes.{good_starts, strokes_in};
ghost use Rattle.path_splice_rule.specs.Splice.{value_at, present, splice as splice_of};
ghost use Rattle.path_splice_links.specs.Layout.{todo_at, words_for};
ghost use Rattle.path_splice.specs.InnerText.{Spans, entry_text, start_mark, order_text, marks_of, ReadOut, Filled, LaidOut};
ghost use Rattle.path_splice.specs.InnerPairs.{Paired, PairsDrawn, strokes_fit, pairs_left};
ghost use Rattle.path.specs.Call.{placed_said};
ghost use Rattle.path_splice.specs.Call.{verdict_of, left, splice_left};
ghost use Rattle.refusal.specs.Limits.{most_strokes, most_points};

use order::clear;
use path::{Place, counted, end_of, put, rising};
use path_splice_links::{ORDER, TODO, WORDS, thread};
use path_splice_rule::Endpoint;
use refusal::{MOST_STROKES, Refusal};

// Where the points of a stroke lie: from a place up to another.
#[derive(Clone, Copy)]
struct Span {
    from: usize,
    to: usize,
}

// Strokes as they are lent: a list of points, and a table of starts for it.
#[derive(Clone, Copy)]
struct Strokes<'a> {
    points: &'a [u32],
    starts: &'a [u32],
    ghost good: { good_starts (length points.now) starts.now ≡ true },
}

impl Strokes<'_> {
    // Where the points of stroke i lie; nowhere past the table.
    fn span_of(self, i: usize) -> Span
        ensures { Spans self.entry.points.now self.entry.starts.now i result.from result.to }
    {
        if self.starts.len() <= i {
            return Span { from: 0, to: 0 };
        }
        Span {
            from: self.starts[i] as usize,
            to: end_of(self.starts, i, self.points.len()),
        }
    }

    // The value of end e, 0 of an empty stroke.
    fn end_value(self, e: Endpoint) -> u32
        ensures { result ≡ value_at 0 (strokes_in self.entry.points.now self.entry.starts.now) e.0 }
    {
        let s = self.span_of(e.path_id());
        let a = s.from;
        let b = s.to;
        if a == b {
            return 0;
        }
        if e.is_last() {
            return self.points[b - 1];
        }
        self.points[a]
    }

    // 1 where stroke i has points: a word, since it is written to scratch.
    fn there(self, i: usize) -> u32
        ensures { result ≡ present (get_or (strokes_in self.entry.points.now self.entry.starts.now) i []) }
    {
        let s = self.span_of(i);
        if s.from == s.to {
            return 0;
        }
        1
    }

    // Writes the value of each end.
    fn fill_values(self, v: &mut [u32])
        ensures { (e : ℕ) → e < length v.old → get_or v.new e 0 ≡ value_at 0 (strokes_in self.entry.points.now self.entry.starts.now) e }
    {
        for e in 0..v.len() {
            v[e] = self.end_value(Endpoint(e));
        }
    }

    // Writes which strokes have points.
    fn fill_todo(self, t: &mut [u32])
        ensures { (i : ℕ) → i < length t.old → get_or t.new i 0 ≡ present (get_or (strokes_in self.entry.points.now self.entry.starts.now) i []) }
    {
        for i in 0..t.len() {
            t[i] = self.there(i);
        }
    }

    // Writes the values of all ends and which strokes have points.
    fn fill(self, s: &mut [u32])
        requires { (7 * length self.starts.now ≤ length s.old) × (length self.starts.now ≤ most_strokes) }
        ensures { Filled (strokes_in self.entry.points.now self.entry.starts.now) s.new (length self.entry.starts.now) }
    {
        let n = self.starts.len();
        let m = 2 * n;
        let t = TODO * n;
        let h = WORDS * n;
        self.fill_values(&mut s[..m]);
        self.fill_todo(&mut s[t..h]);
    }
}

// Copies the points from a up to e to place at. (By a loop: `copy_from_slice` would have the archive take `memmove` from elsewhere.)
fn write_forward(points: &[u32], a: usize, e: usize, out: &mut [u32], at: usize)
    requires { (a ≤ e) × (e ≤ length points.now) × (at + (e - a) ≤ length out.old) }
    ensures { out.new ≡ put out.old at (region points.now a (e - a)) }
{
    for i in 0..e - a {
        out[at + i] = points[a + i];
    }
}

// Copies the points from a up to e, the last one first.
fn write_backward(points: &[u32], a: usize, e: usize, out: &mut [u32], at: usize)
    requires { (a ≤ e) × (e ≤ length points.now) × (at + (e - a) ≤ length out.old) }
    ensures { out.new ≡ put out.old at (reverse (region points.now a (e - a))) }
{
    for i in 0..e - a {
        out[at + i] = points[e - 1 - i];
    }
}

impl Strokes<'_> {
    // Writes what entry x of an order reads, and answers the place after it: a joined stroke loses its first read point.
    fn read_entry(self, x: u32, out: &mut [u32], at: usize) -> usize
        requires { at + length (entry_text (strokes_in self.points.now self.starts.now) x) ≤ length out.old }
        ensures { (out.new ≡ put out.old at (entry_text (strokes_in self.entry.points.now self.entry.starts.now) x))
            × (result ≡ at + length (entry_text (strokes_in self.entry.points.now self.entry.starts.now) x)) }
    {
        let e = Endpoint(x as usize / 2);
        let s = self.span_of(e.path_id());
        let a = s.from;
        let b = s.to;
        if a == b {
            return at;
        }
        let k = 1 - x as usize % 2;
        let n = b - a - k;
        if e.is_last() {
            write_backward(self.points, a, b - k, out, at);
            return at + n;
        }
        write_forward(self.points, a + k, b, out, at);
        at + n
    }
}

// Writes the start of a chain where entry x begins one, and answers the place after it; after the last of all places comes 0.
pub fn put_mark(out: &mut [u32], q: usize, p: u32, x: u32) -> usize
    ensures { (out.new ≡ put out.old q (start_mark p x)) × (result ≡ (q + length (start_mark p x)) % 2 ^ 64) }
{
    if x % 2 == 0 {
        return q;
    }
    put(out, q, p);
    q.wrapping_add(1)
}

impl Strokes<'_> {
    // Writes the strokes that an order joins.
    fn read_out(self, order: &[u32], out_points: &mut [u32], out_starts: &mut [u32]) -> Place
        requires { (length (order_text (strokes_in self.points.now self.starts.now) order.now) ≤ length out_points.old)
            × (length (order_text (strokes_in self.points.now self.starts.now) order.now) ≤ most_points)
            × (length (marks_of (strokes_in self.points.now self.starts.now) 0 order.now) ≤ length out_starts.old) }
        ensures { ReadOut put (strokes_in self.entry.points.now self.entry.starts.now) order.now out_points.old out_starts.old
            out_points.new out_starts.new result.points result.starts }
    {
        let mut p: usize = 0;
        let mut q: usize = 0;
        for x in order {
            q = put_mark(out_starts, q, p as u32, *x);
            p = self.read_entry(*x, out_points, p);
        }
        Place {
            points: p,
            starts: q,
        }
    }

    // Writes the spliced strokes.
    fn draw(self, s: &mut [u32], out_points: &mut [u32], out_starts: &mut [u32]) -> Place
        requires { (length self.points.now ≤ most_points) × (length self.starts.now ≤ most_strokes) × (8 * length self.starts.now ≤ length s.old)
            × (length self.points.now ≤ length out_points.old) × (length self.starts.now ≤ length out_starts.old) }
        ensures { LaidOut (splice_of 0 eqb (strokes_in self.entry.points.now self.entry.starts.now)) out_points.old out_starts.old
            out_points.new out_starts.new result.points result.starts }
    {
        let n = self.starts.len();
        self.fill(s);
        let c = thread(s, n);
        let m = ORDER * n;
        let e = m + c;
        self.read_out(&s[m..e], out_points, out_starts)
    }
}

// The tests before the call's work: the lowest refusal that applies.
fn splice_verdict(
    points: &[u32],
    starts: &[u32],
    words: usize,
    room: usize,
    start_room: usize,
) -> Result<(), Refusal>
    ensures { result ≡ verdict_of points.now starts.now words room start_room }
{
    if !rising(starts, points.len()) {
        return Err(Refusal::Shape);
    }
    if !counted(points.len(), starts.len()) {
        return Err(Refusal::Count);
    }
    if words < 8 * starts.len() {
        return Err(Refusal::Scratch);
    }
    if room < points.len() {
        return Err(Refusal::Room);
    }
    if start_room < starts.len() {
        return Err(Refusal::Room);
    }
    Ok(())
}

// Splices strokes: each chain of strokes that meet end to end becomes one stroke. Scratch is all zero after it.
pub fn splice(
    points: &[u32],
    starts: &[u32],
    scratch: &mut [u32],
    out_points: &mut [u32],
    out_starts: &mut [u32],
) -> Result<Place, Refusal>
    ensures { left (placed_said result) scratch.new out_points.new out_starts.new
        ≡ splice_left points.now starts.now scratch.old out_points.old out_starts.old }
{
    splice_verdict(
        points,
        starts,
        scratch.len(),
        out_points.len(),
        out_starts.len(),
    )?;
    let strokes = Strokes {
        points: points,
        starts: starts,
    };
    let p = strokes.draw(scratch, out_points, out_starts);
    clear(scratch);
    Ok(p)
}

// Writes that each of n strokes of two points is there, and where it begins.
fn fill_pairs(s: &mut [u32], n: usize)
    requires { (8 * n ≤ length s.old) × (n ≤ most_strokes) }
    ensures { Into2 s.old s.new (todo_at n) n (words_for n) n (Paired n) }
{
    for i in 0..n {
        s[TODO * n + i] = 1;
        s[WORDS * n + i] = (2 * i) as u32;
    }
}

// Writes the spliced strokes of the first 2 n words.
fn draw_pairs(s: &mut [u32], n: usize, out_points: &mut [u32], out_starts: &mut [u32]) -> Place
    requires { (8 * n ≤ length s.old) × (n ≤ most_strokes) × (2 * n ≤ length out_points.old) × (n ≤ length out_starts.old) }
    ensures { PairsDrawn s.old s.new n out_points.old out_starts.old
        out_points.new out_starts.new result.points result.starts }
{
    fill_pairs(s, n);
    let c = thread(s, n);
    let m = ORDER * n;
    let e = m + c;
    let t = WORDS * n;
    let h = 8 * n;
    let w = &s[..];
    let strokes = Strokes {
        points: &w[..m],
        starts: &w[t..h],
    };
    strokes.read_out(&w[m..e], out_points, out_starts)
}

// Whether n strokes have room: W words, P places for what their points are, and a start for each.
pub fn fits<const W: u8, const P: u8>(
    n: usize,
    words: usize,
    room: usize,
    start_room: usize,
) -> bool
    ensures { result ≡ strokes_fit W P n words room start_room }
{
    if MOST_STROKES < n {
        return false;
    }
    if words < W as usize * n {
        return false;
    }
    if room < P as usize * n {
        return false;
    }
    n <= start_room
}

// For a drawing: splices n strokes of two points each that lie in the first 2 n words of s, into lent room.
// The first 8 n words are zero after it. Where it does not fit, nothing is changed and nothing written.
#[tactic(auto, using(crate::proofs::Pairs::fit_all))]
pub fn splice_pairs(
    s: &mut [u32],
    n: usize,
    out_points: &mut [u32],
    out_starts: &mut [u32],
) -> Place
    ensures { left (accepted (result.points ∷ result.starts ∷ [])) s.new out_points.new out_starts.new
        ≡ pairs_left s.old n out_points.old out_starts.old }
{
    if !fits::<8, 2>(n, s.len(), out_points.len(), out_starts.len()) {
        return Place {
            points: 0,
            starts: 0,
        };
    }
    let p = draw_pairs(s, n, out_points, out_starts);
    let h = 8 * n;
    clear(&mut s[..h]);
    p
}
