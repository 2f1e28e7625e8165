// A reader over a list of strokes: it hands out one stroke after another, each a part of the lent slice, an empty one too.
// The struct is taken apart by the four functions over it, and the work is done by functions on slices and numbers.
#![tactic(auto)]

ghost use Rattle.std.specs.Prelude.{◌≡◌, ◌≤◌, get_or};
ghost use Rattle.path_reader.specs.Reading.{least, first_at, Own, left_at, stroke_after};

use path::end_of;

// The lent points and starts, and the number of the stroke that comes next.
#[derive(Clone, Copy, Debug, PartialEq, Eq)]
pub struct Reader<'a> {
    pub points: &'a [u32],
    pub starts: &'a [u32],
    pub at: usize,
}

// The lesser of two numbers.
fn lesser(x: usize, y: usize) -> usize
    ensures value { result ≡ least x y }
    ensures upper_bound { (result ≤ x) × (result ≤ y) }
{
    x.min(y)
}

// The place of stroke i's first point, of n in all; past the table n.
fn start_of(starts: &[u32], i: usize, n: usize) -> usize
    ensures { result ≡ get_or starts.now i n }
{
    if i < starts.len() {
        return starts[i] as usize;
    }
    n
}

// The place of stroke i's first point; that of an empty stroke lies within the points too.
pub fn first_at(points: &[u32], starts: &[u32], i: usize) -> usize
    ensures { result ≡ first_at points.now starts.now i }
{
    let n = points.len();
    let e = lesser(end_of(starts, i, n), n);
    lesser(start_of(starts, i, n), e)
}

// The points of stroke i, a part of the slice; past the table none.
pub fn stroke_at<'a>(points: &'a [u32], starts: &'a [u32], i: usize) -> &'a [u32]
    ensures { Own points.entry starts.now i result }
{
    let n = points.len();
    let e = lesser(end_of(starts, i, n), n);
    let a = lesser(start_of(starts, i, n), e);
    &points[a..e]
}

// How many strokes there are from the i-th on.
pub fn left_at(starts: &[u32], i: usize) -> usize
    ensures { result ≡ left_at starts.now i }
{
    starts.len().saturating_sub(i)
}

// The number of the stroke after the i-th; past the table it stays.
pub fn next_at(starts: &[u32], i: usize) -> usize
    ensures { result ≡ stroke_after starts.now i }
{
    if i < starts.len() {
        return i + 1;
    }
    i
}

// A reader before the first stroke.
pub fn new<'a>(points: &'a [u32], starts: &'a [u32]) -> Reader<'a>
    ensures { (result.points ≡ points.entry) × (result.starts ≡ starts.entry) × (result.at ≡ 0) }
{
    Reader {
        points,
        starts,
        at: 0,
    }
}

// How many strokes are left: 0 says that none is. (That and `next` are two functions, as the contracts and C name them, and no Option.)
pub fn left<'a>(r: Reader<'a>) -> usize
    ensures { result ≡ left_at r.entry.starts.now r.entry.at }
{
    left_at(r.starts, r.at)
}

// The stroke that comes next, the caller's own part.
pub fn next<'a>(r: Reader<'a>) -> &'a [u32]
    ensures { Own r.entry.points r.entry.starts.now r.entry.at result }
{
    stroke_at(r.points, r.starts, r.at)
}

// The reader after that stroke.
pub fn rest<'a>(r: Reader<'a>) -> Reader<'a>
    ensures { (result.points ≡ r.entry.points) × (result.starts ≡ r.entry.starts) × (result.at ≡ stroke_after r.entry.starts.now r.entry.at) }
{
    let at = next_at(r.starts, r.at);
    Reader {
        points: r.points,
        starts: r.starts,
        at,
    }
}
