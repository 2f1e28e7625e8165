// Welding the corners of faces: which vertex each corner is, by the source's VertexMerger.
#![tactic(auto)]

pub mod read;

ghost use Rattle.std.specs.Prelude.{◌≡◌, true, ◌+◌, ◌*◌, ◌/◌, ◌^◌, ◌≤◌, ◌<◌, [], ◌∷◌, map, length, replicate, nat_abs, List, Float};
ghost use Rattle.refusal.specs.Each.{Each};
ghost use Rattle.path.specs.Strokes.{point_at};
ghost use Rattle.mesh_weld.specs.Weld.{near as near_of, find as find_of};
ghost use Rattle.refusal.specs.Limits.{most_faces};
ghost use Rattle.mesh_weld.specs.InnerTable.{count, key, cube_of, Counted, folded_of, bucket_of, coarse_of, turned_of, link_of, Older, Ends, Hung, place_of, rank_of, apart_of, top, score_of, score_at, cube, eight_from, all_ways, way_of, onward_of, lesser_of, worth_of, all_worth, close_of, all_close, nexts, NoMore, Least, About, Ready, Placed};
ghost use Rattle.mesh_weld.specs.Call.{said, lent_verdict, verdict_of, left, weld_left};
ghost use Rattle.mesh_weld.specs.InnerTable.{Laid};

use order::clear;
use path::{coordinates_good, point_at, put_point};
use refusal::{MOST_FACES, Refusal};
use vector::Vector;
use vector::number::floor;

// How many vertices and indices a weld wrote.
#[derive(Clone, Copy, Debug, PartialEq, Eq)]
pub struct Welded {
    pub vertices: usize,
    pub indices: usize,
}

// The source's VertexMerger, whose maps are one table in scratch: how many buckets the table has, and how many vertices it holds.
#[derive(Clone, Copy)]
struct VertexMerger {
    buckets: usize,
    count: usize,
    pub ghost some: { 0 < buckets },
    pub ghost few: { buckets < 2 ^ 20 },
    pub ghost small: { count ≤ 2 ^ 20 },
}

// The cell of a point, each number counted up from one below all cells.
#[derive(Clone, Copy)]
struct Cube {
    x: u64,
    y: u64,
    z: u64,
}

// A way that is walked: what the slot holds that it has come to, and the bits of its coarse cell that are left.
#[derive(Clone, Copy)]
struct Way {
    next: usize,
    q: Cube,
}

// The ways of the eight coarse cells in which the 27 cells about a corner lie. Walked side by side, they wait for memory together.
#[derive(Clone, Copy)]
struct Ways {
    a: Way,
    b: Way,
    c: Way,
    d: Way,
    e: Way,
    f: Way,
    g: Way,
    h: Way,
}

// What a vertex is worth to a corner is its place times this, and its number.
const PLACE: u64 = 1048576;

// What is worth nothing: all 27 places come before it. (A number and no Option, as 100 below: the least of all is one comparison each.)
const TOP: u64 = 27 * PLACE;

// A cell, counted up from a number below all of them.
fn counted(z: i64) -> u64
    requires { nat_abs z ≤ 2 ^ 53 }
    ensures { result ≡ count z }
{
    (z + 0x40_0000_0000_0000) as u64
}

// The cell of a coordinate, counted so.
fn key_of(x: f64) -> u64
    ensures { (result ≡ key x) × (0 < result) × (result < 2 ^ 55) }
{
    match floor(x / 0.000001) {
        Ok(z) => counted(z),
        Err(_) => counted(0),
    }
}

// The cell of a point, counted so.
fn cube_of(p: Vector) -> Cube
    ensures { result ≡ cube_of p }
{
    Cube {
        x: key_of(p.x),
        y: key_of(p.y),
        z: key_of(p.z),
    }
}

// The low half of a number with its high half added.
fn folded(c: u64) -> u64
    ensures { (result ≡ folded_of c) × (result < 4294967296) }
{
    (c % 4294967296 + c / 4294967296) % 4294967296
}

// The coarse cell, two cells wide, that a cell lies in.
fn coarse_of(c: Cube) -> Cube
    ensures { result ≡ coarse_of c }
{
    Cube {
        x: c.x / 2,
        y: c.y / 2,
        z: c.z / 2,
    }
}

// The bucket of a coarse cell.
fn bucket(q: Cube, g: VertexMerger) -> usize
    ensures { (result ≡ bucket_of q g.buckets) × (result < g.buckets) }
{
    let t = (folded(q.x) * 625341585 + folded(q.y) * 461845907 + folded(q.z) * 668265263)
        % 4294967291;
    t as usize * g.buckets / 4294967296
}

// What is left of a coarse cell after its first bit: x, y, z take turns, the lowest bits first.
fn turned(q: Cube) -> Cube
    ensures { result ≡ turned_of q }
{
    Cube {
        x: q.y,
        y: q.z,
        z: q.x / 2,
    }
}

// The slot of that one of the two links of vertex v which the first bit of q tells.
fn link(v: usize, q: Cube, g: VertexMerger) -> usize
    requires { v < 2 ^ 20 }
    ensures { result ≡ link_of v q g.buckets }
{
    g.buckets + v * 2 + (q.x % 2) as usize
}

// The place of w among the three cells about x: 0, 1, 2, or 100 where it is none of them.
fn place(w: u64, x: u64) -> u64
    requires { (w < 2 ^ 55) × (x < 2 ^ 55) }
    ensures { (result ≡ place_of w x) × (result ≤ 100) }
{
    if x <= w + 1 {
        if w <= x + 1 {
            return w + 1 - x;
        }
    }
    100
}

// The place of v's cell among the 27 about c.
fn rank(v: Vector, c: Cube) -> u64
    requires { Counted c }
    ensures { (result ≡ rank_of c v) × (result ≤ 1300) }
{
    place(key_of(v.x), c.x) * 9 + place(key_of(v.y), c.y) * 3 + place(key_of(v.z), c.z)
}

// Whether a difference of 0.000001 or more, either way, parts two points by itself.
fn apart(d: f64) -> bool
    ensures { result ≡ apart_of d }
{
    if 0.000001 <= d {
        return true;
    }
    d <= -0.000001
}

// Whether two points are strictly nearer than 0.000001, by squares. Most are told apart with no square: of a difference that is tiny beside
// a large one the square may be subnormal, and some processors take a hundred times as long for that.
fn near(p: Vector, v: Vector) -> bool
    ensures { result ≡ near_of p v }
{
    let d = p.sub(v);
    if apart(d.x) {
        return false;
    }
    if apart(d.y) {
        return false;
    }
    if apart(d.z) {
        return false;
    }
    d.length_squared() < 0.000001 * 0.000001
}

// What vertex number i, the point v, which is near, is worth to the corner p in cell c: the place of its cell and then its number; TOP
// and more is nothing. An equal vertex lies in the same cell, place 13: most corners of a mesh find one, and are spared its divisions.
fn score(p: Vector, c: Cube, v: Vector, i: usize) -> u64
    requires c_value { c ≡ cube_of p }
    requires i_bound { (i < 2 ^ 20) × (near_of p v ≡ true) }
    ensures { result ≡ score_of p c v i }
{
    if p == v {
        return 13 * PLACE + i as u64;
    }
    rank(v, c) * PLACE + i as u64
}

fn lesser(a: u64, b: u64) -> u64
    ensures { result ≡ lesser_of a b }
{
    if a < b { a } else { b }
}

// The way of a coarse cell, at its bucket.
fn begin(scratch: &[u32], g: VertexMerger, x: u64, y: u64, z: u64) -> Way
    requires { g.buckets ≤ length scratch.now }
    ensures { result ≡ way_of scratch.now g.buckets (cube x y z) }
{
    let home = Cube { x: x, y: y, z: z };
    let at = bucket(home, g);
    Way {
        next: scratch[at] as usize,
        q: home,
    }
}

// The ways of the eight coarse cells from this one on.
fn all_begin(scratch: &[u32], g: VertexMerger, x: u64, y: u64, z: u64) -> Ways
    requires buckets_in_bounds { g.buckets ≤ length scratch.now }
    requires x_bound { (x < 2 ^ 55) × (y < 2 ^ 55) × (z < 2 ^ 55) }
    ensures { all_ways result ≡ map (way_of scratch.now g.buckets) (eight_from x y z) }
{
    let right = x + 1;
    let up = y + 1;
    let far = z + 1;
    Ways {
        a: begin(scratch, g, x, y, z),
        b: begin(scratch, g, x, y, far),
        c: begin(scratch, g, x, up, z),
        d: begin(scratch, g, x, up, far),
        e: begin(scratch, g, right, y, z),
        f: begin(scratch, g, right, y, far),
        g: begin(scratch, g, right, up, z),
        h: begin(scratch, g, right, up, far),
    }
}

// A way one vertex further; one that has ended stays.
fn onward(scratch: &[u32], g: VertexMerger, w: Way) -> Way
    requires count_in_bounds { g.buckets + g.count * 2 ≤ length scratch.now }
    requires next_le_count { w.next ≤ g.count }
    ensures { result ≡ onward_of scratch.now g.buckets w }
{
    if w.next == 0 {
        return w;
    }
    let q = w.q;
    let at = link(w.next - 1, q, g);
    Way {
        next: scratch[at] as usize,
        q: turned(q),
    }
}

fn all_onward(scratch: &[u32], g: VertexMerger, w: Ways) -> Ways
    requires count_in_bounds { g.buckets + g.count * 2 ≤ length scratch.now }
    requires each { Each (NoMore g.count) (all_ways w) }
    ensures { all_ways result ≡ map (onward_of scratch.now g.buckets) (all_ways w) }
{
    Ways {
        a: onward(scratch, g, w.a),
        b: onward(scratch, g, w.b),
        c: onward(scratch, g, w.c),
        d: onward(scratch, g, w.d),
        e: onward(scratch, g, w.e),
        f: onward(scratch, g, w.f),
        g: onward(scratch, g, w.g),
        h: onward(scratch, g, w.h),
    }
}

// Vertex v, read with no test: it is there. (path_simplify reads points so too: path lends no function that asks anything.)
fn vertex_in(vertices: &[f64], v: usize) -> Vector
    requires { (v * 3 + 2 < length vertices.now) × (v < 2 ^ 20) }
    ensures { result ≡ point_at vertices.now v }
{
    let k = v * 3;
    Vector {
        x: vertices[k],
        y: vertices[k + 1],
        z: vertices[k + 2],
    }
}

// 1 where the vertex ahead on a way is near p, and else 0: a number, since the eight are summed up to one word, and one test of it tells
// that none is near.
fn close(vertices: &[f64], g: VertexMerger, p: Vector, w: Way) -> usize
    requires { (g.count * 3 ≤ length vertices.now) × (w.next ≤ g.count) }
    ensures { (result ≡ close_of vertices.now p w) × (result ≤ 1) }
{
    if w.next == 0 {
        return 0;
    }
    if near(p, vertex_in(vertices, w.next - 1)) {
        return 1;
    }
    0
}

// Which of the vertices ahead are near p: a bit for each way, the first the lowest.
fn all_close(vertices: &[f64], g: VertexMerger, p: Vector, w: Ways) -> usize
    requires count_in_bounds { g.count * 3 ≤ length vertices.now }
    requires each { Each (NoMore g.count) (all_ways w) }
    ensures { result ≡ all_close vertices.now p (all_ways w) }
{
    let left = close(vertices, g, p, w.a)
        + 2 * close(vertices, g, p, w.b)
        + 4 * close(vertices, g, p, w.c)
        + 8 * close(vertices, g, p, w.d);
    let right = close(vertices, g, p, w.e)
        + 2 * close(vertices, g, p, w.f)
        + 4 * close(vertices, g, p, w.g)
        + 8 * close(vertices, g, p, w.h);
    left + 16 * right
}

// The lesser of a number and of what the vertex ahead on a way is worth: nothing where it is not close.
fn worth(vertices: &[f64], p: Vector, c: Cube, w: Way, is_close: usize, best: u64) -> u64
    requires c_value { (c ≡ cube_of p) × (w.next ≤ 2 ^ 20) }
    requires is_close_value { (is_close ≡ close_of vertices.now p w) × (best ≤ top) }
    ensures { (result ≡ worth_of (score_at vertices.now p c) best w) × (result ≤ top) }
{
    if is_close == 0 {
        return best;
    }
    let v = w.next - 1;
    lesser(score(p, c, point_at(vertices, v), v), best)
}

// The same of all eight, by a bit for each that says whether it is close.
fn all_worth(vertices: &[f64], p: Vector, c: Cube, w: Ways, bits: usize, best: u64) -> u64
    requires c_value { (c ≡ cube_of p) × Each (NoMore (2 ^ 20)) (all_ways w) }
    requires bits_value { (bits ≡ all_close vertices.now p (all_ways w)) × (best ≤ top) }
    ensures { result ≡ all_worth (score_at vertices.now p c) best (all_ways w) }
{
    let one = worth(vertices, p, c, w.a, bits % 2, best);
    let two = worth(vertices, p, c, w.b, bits / 2 % 2, one);
    let three = worth(vertices, p, c, w.c, bits / 4 % 2, two);
    let four = worth(vertices, p, c, w.d, bits / 8 % 2, three);
    let five = worth(vertices, p, c, w.e, bits / 16 % 2, four);
    let six = worth(vertices, p, c, w.f, bits / 32 % 2, five);
    let seven = worth(vertices, p, c, w.g, bits / 64 % 2, six);
    worth(vertices, p, c, w.h, bits / 128 % 2, seven)
}

// What all_worth gives. Mostly no vertex ahead is near, and then nothing is worth anything.
fn best_of(vertices: &[f64], g: VertexMerger, p: Vector, c: Cube, w: Ways, best: u64) -> u64
    requires count_in_bounds { g.count * 3 ≤ length vertices.now }
    requires each { Each (NoMore g.count) (all_ways w) }
    requires c_value { (c ≡ cube_of p) × (best ≤ top) }
    ensures { result ≡ all_worth (score_at vertices.now p c) best (all_ways w) }
{
    let bits = all_close(vertices, g, p, w);
    if bits == 0 {
        return best;
    }
    all_worth(vertices, p, c, w, bits, best)
}

// Zero once all have ended.
fn ahead(w: Ways) -> usize
    requires { Each (NoMore (2 ^ 20)) (all_ways w) }
    ensures { result ≡ nexts (all_ways w) }
{
    w.a.next + w.b.next + w.c.next + w.d.next + w.e.next + w.f.next + w.g.next + w.h.next
}

// The least that a vertex is worth to p, in cell c, or TOP: every vertex of the 27 cells is on one of the eight ways.
fn look(vertices: &[f64], scratch: &[u32], g: VertexMerger, p: Vector, c: Cube) -> u64
    requires ready { Ready scratch.now vertices.now g.buckets g.count }
    requires c_value { c ≡ cube_of p }
    ensures { Least (About vertices.now c) (score_at vertices.now p c) g.count top result }
{
    let mut best = TOP;
    let mut w = all_begin(scratch, g, (c.x - 1) / 2, (c.y - 1) / 2, (c.z - 1) / 2);
    // A `while`: how many turns there are is known only when all ways have ended.
    while ahead(w) != 0 {
        let next = all_onward(scratch, g, w);
        best = best_of(vertices, g, p, c, w, best);
        w = next;
    }
    best
}

// The vertex that p, in cell c, is welded to, or none.
fn find(vertices: &[f64], scratch: &[u32], g: VertexMerger, p: Vector, c: Cube) -> Option<usize>
    requires ready { Ready scratch.now vertices.now g.buckets g.count }
    requires c_value { c ≡ cube_of p }
    ensures { result ≡ find_of vertices.now g.count p }
{
    let r = look(vertices, scratch, g, p, c);
    if r < TOP {
        return Some((r % PLACE) as usize);
    }
    None
}

// The empty slot that the way of a coarse cell ends at.
fn end(scratch: &[u32], g: VertexMerger, home: Cube) -> usize
    requires older { Older scratch.now g.buckets g.count }
    requires count_in_bounds { g.buckets + g.count * 2 ≤ length scratch.now }
    ensures { Ends scratch.now g.buckets result (bucket_of home g.buckets) home × (result < g.buckets + g.count * 2) }
{
    let mut q = home;
    let mut at = bucket(home, g);
    let mut next = scratch[at] as usize;
    // A `while`: it follows links, and counts nothing.
    while next != 0 {
        at = link(next - 1, q, g);
        next = scratch[at] as usize;
        q = turned(q);
    }
    at
}

// Puts vertex number g.count, of this coarse cell, there.
fn insert(scratch: &mut [u32], g: VertexMerger, home: Cube)
    requires older { Older scratch.old g.buckets g.count }
    requires count_in_bounds { (g.buckets + g.count * 2 ≤ length scratch.old) × (g.count < 2 ^ 20) }
    ensures { Hung scratch.old g.buckets g.count home scratch.new }
{
    let at = end(scratch, g, home);
    scratch[at] = g.count as u32 + 1;
}

// Welds corner i, the point p, and answers how many vertices there are then.
fn get_or_insert(
    scratch: &mut [u32],
    vertices: &mut [f64],
    indices: &mut [u32],
    g: VertexMerger,
    i: usize,
    p: Vector,
) -> usize
    requires ready { Ready scratch.old vertices.old g.buckets g.count }
    requires count_in_bounds { (g.count * 3 + 2 < length vertices.old) × (i < length indices.old) × (g.count < 2 ^ 20) }
    ensures { Placed vertices.old indices.old g.buckets g.count i p scratch.new vertices.new indices.new result }
{
    let k = g.count;
    let c = cube_of(p);
    match find(vertices, scratch, g, p, c) {
        Some(v) => {
            indices[i] = v as u32;
            k
        }
        None => {
            put_point(vertices, k, p);
            insert(scratch, g, coarse_of(c));
            indices[i] = k as u32;
            k + 1
        }
    }
}

// Where the corners of faces stand, three coordinates each: in a list, or in the bytes of a file.
trait Corners: Copy {
    ghost coordinates: { Self → List Float };

    fn corner(self, i: usize) -> Vector
        requires { i < length (coordinates self) / 3 }
        ensures { result ≡ point_at (coordinates self) i };
}

impl Corners for &[f64] {
    ghost coordinates = { λ xs. xs.now };

    fn corner(self, i: usize) -> Vector {
        point_at(self, i)
    }
}

// Welds all n corners, with a table of two buckets a corner and two links a vertex, and answers how many vertices there are.
fn weld_all<C: Corners>(
    corners: C,
    n: usize,
    scratch: &mut [u32],
    vertices: &mut [f64],
    indices: &mut [u32],
) -> usize
    requires scratch_value { scratch.old ≡ replicate (length scratch.old) 0 }
    requires n_value { (n ≡ length (C.coordinates corners) / 3) × (n ≤ 3 * most_faces) × (n * 4 ≤ length scratch.old) × (n * 3 ≤ length vertices.old) × (n ≤ length indices.old) }
    ensures { Laid (C.coordinates corners) vertices.old indices.old vertices.new indices.new result }
{
    let m = n * 2;
    let mut k = 0;
    for i in 0..n {
        k = get_or_insert(
            scratch,
            vertices,
            indices,
            VertexMerger {
                buckets: m,
                count: k,
            },
            i,
            corners.corner(i),
        );
    }
    k
}

// Whether enough is lent to weld so many faces: the lowest refusal that applies.
fn lent_verdict(faces: usize, words: usize, room: usize, numbers: usize) -> Result<(), Refusal>
    requires { faces ≤ most_faces }
    ensures { result ≡ lent_verdict faces words room numbers }
{
    if words < faces * 12 {
        return Err(Refusal::Scratch);
    }
    if room < faces * 9 {
        return Err(Refusal::Room);
    }
    if numbers < faces * 3 {
        return Err(Refusal::Room);
    }
    Ok(())
}

// The tests before welding. Nothing lent is touched.
fn weld_verdict(coords: &[f64], words: usize, room: usize, numbers: usize) -> Result<(), Refusal>
    ensures { result ≡ verdict_of coords.now words room numbers }
{
    if coords.len() % 9 != 0 {
        return Err(Refusal::Shape);
    }
    let faces = coords.len() / 9;
    if MOST_FACES < faces {
        return Err(Refusal::Count);
    }
    if !coordinates_good(coords) {
        return Err(Refusal::Number);
    }
    lent_verdict(faces, words, room, numbers)
}

// Welds the corners of faces, nine coordinates a face: the vertices in the order in which they are met, and the vertex of each corner.
pub fn weld(
    coords: &[f64],
    scratch: &mut [u32],
    vertices: &mut [f64],
    indices: &mut [u32],
) -> Result<Welded, Refusal>
    ensures { left (said result) scratch.new vertices.new indices.new
        ≡ weld_left coords.now scratch.old vertices.old indices.old }
{
    weld_verdict(coords, scratch.len(), vertices.len(), indices.len())?;
    clear(scratch);
    let n = coords.len() / 3;
    let k = weld_all(coords, n, scratch, vertices, indices);
    clear(scratch);
    Ok(Welded {
        vertices: k,
        indices: n,
    })
}
