// Points told apart by their numbers: each gets the number of the first that is the same.
// With m points there are, in words of scratch, their classes, then their order, room for the sort, and three keys. The words and m stay two
// parameters: a struct of both would hold a `&mut` and be made anew for each call, and one of the counts alone would leave as many clauses,
// that the words are as long as it says.
#![tactic(auto)]

ghost use Rattle.std.specs.Prelude.{◌≡◌, ℕ, ◌*◌, ◌^◌, ◌<◌, ◌≤◌, true, false, length, if◌then◌else◌, to_bits};
ghost use Rattle.std.specs.Float.{binary64};
ghost use Rattle.refusal.specs.Limits.{most_strokes};
ghost use Rattle.order.specs.Regions.{region};
ghost use Rattle.path.specs.Strokes.{point_at};
ghost use Rattle.path_classes.specs.Classes.{same_number, same_point, class_of, numbered};
ghost use Rattle.path_classes.specs.InnerKeys.{Held, HeldPoint, spread_of, mix_of, mix_order, coordinate_of, word_of, word_order, Together, Aside, Stored, Ordered, Keys, Apart};

use order::{clear, sort_words};
use path::point_at;
use refusal::MOST_STROKES;
use vector::Vector;

// The pattern of a number; one pattern stands for every NaN.
fn pattern_of(x: f64) -> u64
    ensures { (result ≡ to_bits binary64 x) × Held x }
{
    if x == x {
        return f64::to_bits(x);
    }
    0x7ff8_0000_0000_0000
}

// Whether two numbers are the same.
fn same_number(x: f64, y: f64) -> bool
    ensures { result ≡ same_number x y }
{
    pattern_of(x) == pattern_of(y)
}

// Whether two points are the same, number by number.
fn same_point(a: Vector, b: Vector) -> bool
    ensures { result ≡ same_point a b }
{
    if !same_number(a.x, b.x) {
        return false;
    }
    if !same_number(a.y, b.y) {
        return false;
    }
    same_number(a.z, b.z)
}

// The halves of a pattern, each times a number of its own, modulo 2^64.
fn spread(b: u64, low: u64, high: u64) -> u64
    requires { (low < 2 ^ 32) × (high < 2 ^ 32) }
    ensures { result ≡ spread_of b low high }
{
    let l = b % 0x1_0000_0000 * low;
    let h = b / 0x1_0000_0000 * high;
    std::num::wrapping_add_u64(l, h)
}

// A number that points which are the same have in common, and others seldom.
fn mix(v: Vector) -> u64
    ensures { (result ≡ mix_of v) × (result < 2 ^ 54) × HeldPoint v }
{
    let x = spread(pattern_of(v.x), 0x9e37_79b1, 0x85eb_ca77);
    let y = spread(pattern_of(v.y), 0xc2b2_ae3d, 0x27d4_eb2f);
    let z = spread(pattern_of(v.z), 0x1656_67b1, 0xd3a2_646d);
    std::num::wrapping_add_u64(std::num::wrapping_add_u64(x, y), z) / 0x400
}

// Writes 0, 1, .. as the order.
fn count_up(m: usize, s: &mut [u32])
    requires { (m ≤ 2 * most_strokes) × (6 * m ≤ length s.old) }
    ensures { Aside s.old s.new m (2 * m) × Stored (λ e. e) s.new m m }
{
    for e in 0..m {
        s[m + e] = e as u32;
    }
}

// Writes the three keys of each point's mix.
fn fill_keys(points: &[f64], m: usize, s: &mut [u32])
    requires { (m ≤ 2 * most_strokes) × (6 * m ≤ length s.old) }
    ensures { Keys points.now s.old s.new m m }
{
    for e in 0..m {
        let h = mix(point_at(points, e));
        s[3 * m + e] = (h % 0x4_0000) as u32;
        s[4 * m + e] = (h / 0x4_0000 % 0x4_0000) as u32;
        s[5 * m + e] = (h / 0x10_0000_0000) as u32;
    }
}

// The order of the points by their mixes.
fn by_mix(points: &[f64], m: usize, s: &mut [u32])
    requires { (m ≤ 2 * most_strokes) × (6 * m ≤ length s.old) }
    ensures { Ordered s.old s.new m (mix_order points.now) × ((e : ℕ) → e < m → HeldPoint (point_at points.now e)) }
{
    count_up(m, s);
    fill_keys(points, m, s);
    sort_words(s, 3 * m, 4 * m, m, 2 * m, m);
    sort_words(s, 4 * m, 5 * m, m, 2 * m, m);
    sort_words(s, 5 * m, 6 * m, m, 2 * m, m);
}

// Whether two points have one mix and are not the same.
fn clash(a: Vector, b: Vector) -> bool
    ensures { result ≡ false → mix_of a ≡ mix_of b → same_point a b ≡ true }
{
    if same_point(a, b) {
        return false;
    }
    mix(a) == mix(b)
}

// Whether two neighbours in the order have one mix and are not the same.
fn mixed_up(points: &[f64], m: usize, s: &[u32]) -> bool
    requires { (m ≤ 2 * most_strokes) × (6 * m ≤ length s.now) }
    ensures { result ≡ false → Apart points.now s.now m m }
{
    for x in 1..m {
        let a = point_at(points, s[m + x - 1] as usize);
        let b = point_at(points, s[m + x] as usize);
        if clash(a, b) {
            return true;
        }
    }
    false
}

// One of the three numbers of a point.
fn coordinate(v: Vector, k: u32) -> f64
    ensures { result ≡ coordinate_of v k }
{
    if k == 0 {
        return v.x;
    }
    if k == 1 {
        return v.y;
    }
    v.z
}

// One of the six halves of a point's patterns.
fn word(v: Vector, j: u32) -> u32
    ensures { result ≡ word_of v j }
{
    let b = pattern_of(coordinate(v, j / 2));
    if j % 2 == 0 {
        return (b % 0x1_0000_0000) as u32;
    }
    (b / 0x1_0000_0000) as u32
}

// Writes one half of each point's patterns as the keys.
fn fill_words(points: &[f64], m: usize, s: &mut [u32], j: u32)
    requires { (m ≤ 2 * most_strokes) × (6 * m ≤ length s.old) }
    ensures { Aside s.old s.new (3 * m) (4 * m) × Stored (λ e. word_of (point_at points.now e) j) s.new (3 * m) m }
{
    for e in 0..m {
        s[3 * m + e] = word(point_at(points, e), j);
    }
}

// The order of the points by all their words, for points made so that mixes are alike: it takes four times as long.
fn by_words(points: &[f64], m: usize, s: &mut [u32])
    requires { (m ≤ 2 * most_strokes) × (6 * m ≤ length s.old) }
    ensures { Ordered s.old s.new m (word_order points.now 6) }
{
    count_up(m, s);
    for j in 0..6 {
        fill_words(points, m, s, j);
        sort_words(s, 3 * m, 4 * m, m, 2 * m, m);
    }
}

// Puts the points into an order in which those that are the same stand together.
fn line_up(points: &[f64], m: usize, s: &mut [u32])
    requires { (m ≤ 2 * most_strokes) × (6 * m ≤ length s.old) }
    ensures { Aside s.old s.new m (6 * m) × Together points.now m (region s.new m m) }
{
    by_mix(points, m, s);
    if mixed_up(points, m, s) {
        by_words(points, m, s);
    }
}

// The class of point e, where c is that of the point before it in the order: c where they are the same, else e.
fn class_after(points: &[f64], c: u32, e: u32) -> u32
    ensures { result ≡ (if same_point (point_at points.now c) (point_at points.now e) then c else e) }
{
    if same_point(point_at(points, c as usize), point_at(points, e as usize)) {
        return c;
    }
    e
}

// Writes the class of each point, in the order: the first of those that are the same.
fn label(points: &[f64], m: usize, s: &mut [u32])
    requires m_bound { (m ≤ 2 * most_strokes) × (6 * m ≤ length s.old) }
    requires together { Together points.now m (region s.old m m) }
    ensures { Aside s.old s.new 0 m × Stored (class_of same_point (point_at points.now)) s.new 0 m }
{
    let mut c: u32 = 0;
    for x in 0..m {
        let e = s[m + x];
        c = class_after(points, c, e);
        s[e as usize] = c;
    }
}

// Writes the class of each of the m points: the number of the first that is the same. The other words of theirs are zero
// after it. Where there are too many points, or too few words, nothing is changed.
pub fn number_points(points: &[f64], m: usize, s: &mut [u32])
    ensures { s.new ≡ numbered points.now m s.old }
{
    if 2 * MOST_STROKES < m {
        return;
    }
    if s.len() < 6 * m {
        return;
    }
    line_up(points, m, s);
    label(points, m, s);
    let h = 6 * m;
    clear(&mut s[m..h]);
}
