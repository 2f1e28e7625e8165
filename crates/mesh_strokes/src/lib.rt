// The strokes of a drawing, into room that is there: the sides of the mesh by their pairs, the edges that the mode keeps after
// them, spliced.
#![tactic(auto)]

ghost use Rattle.std.specs.Prelude.{◌≡◌, true, ◌&&◌, [], ◌∷◌, ◌+◌, ◌-◌, ◌*◌, ◌/◌, ◌<◌, ◌≤◌, length, get_or};
ghost use Rattle.refusal.specs.Limits.{most_faces};
ghost use Rattle.refusal.specs.Said.{accepted};
ghost use Rattle.order.specs.Regions.{region};
ghost use Rattle.path_splice.specs.InnerText.{LaidOut};
ghost use Rattle.mesh.specs.Meshes.{all_below};
ghost use Rattle.mesh_edges.specs.InnerWords.{edges_in};
ghost use Rattle.mesh_keep.specs.Keep.{kept_by, faces_of, seen_in};
ghost use Rattle.mesh_strokes.specs.Draw.{drawing_of};
ghost use Rattle.mesh_strokes.specs.InnerWalk.{Room, Listed, flip_at, with_pair, written, edge_kept, KeptIn, look_in, flips_for, Fitting};
ghost use Rattle.mesh_strokes.specs.Call.{scratch_for, room_for, fits as fits_of, left, strokes_left};

use mesh::{Mesh, all_below};
use mesh_edges::{edge_end, edges};
use mesh_keep::kept;
use mesh_mode::{Mode, needs_of};
use mesh_seen::see;
use order::clear;
use path::{Place, clear_numbers};
use path_splice::splice_pairs;
use refusal::MOST_FACES;
use vector::Vector;

// Whether the mode keeps the edge of the sides at the places from p up to q. (Mode, seen and tolerance are handed on as they are: a struct
// of them would be taken apart again at the next call.)
fn keeps(mode: Mode, seen: &[f64], s: &[u32], n: usize, tolerance: f64, p: usize, q: usize) -> bool
    requires room { Room s.now n }
    requires p_lt_q { (p < q) × (q ≤ n) × (get_or s.now (2 * n + p) 0 < n) }
    ensures { result ≡ kept_by mode (seen_in seen.now) (flip_at s.now n p) tolerance (faces_of (region s.now (2 * n + p) (q - p))) }
{
    let k = s[2 * n + p] as usize;
    let flip = s[4 * n + k] == 1;
    let a = 2 * n + p;
    let b = 2 * n + q;
    kept(mode, seen, &s[a..b], flip, tolerance)
}

// Writes the pair of the side at place p as pair m, past the words of the sides.
fn put_pair(s: &mut [u32], n: usize, p: usize, m: usize)
    requires room { Room s.old n }
    requires p_lt_n { (p < n) × (m < n) × (get_or s.old (2 * n + p) 0 < n) }
    ensures { s.new ≡ with_pair s.old n (get_or s.old (2 * n + p) 0) m }
{
    let k = s[2 * n + p] as usize;
    let low = s[k];
    let high = s[n + k];
    s[5 * n + 2 * m] = low;
    s[5 * n + 2 * m + 1] = high;
}

// Writes the edge at the places from p up to q after m pairs where it is kept, and answers how many pairs there are then.
fn keep_edge(
    mode: Mode,
    seen: &[f64],
    s: &mut [u32],
    n: usize,
    tolerance: f64,
    p: usize,
    q: usize,
    m: usize,
) -> usize
    requires room { Room s.old n }
    requires p_lt_q { (p < q) × (q ≤ n) × (m ≤ p) × (get_or s.old (2 * n + p) 0 < n) }
    ensures s_after { written result s.new ≡ edge_kept
        (kept_by mode (seen_in seen.now) (flip_at s.old n p) tolerance (faces_of (region s.old (2 * n + p) (q - p))))
        s.old n (get_or s.old (2 * n + p) 0) m }
    ensures upper_bound { result ≤ m + 1 }
{
    if keeps(mode, seen, s, n, tolerance, p, q) {
        put_pair(s, n, p, m);
        return m + 1;
    }
    m
}

// Writes the kept edges as pairs, past the words of the sides, and answers how many there are.
fn keep_edges(mode: Mode, seen: &[f64], indices: &[u32], s: &mut [u32], tolerance: f64) -> usize
    requires room { Room s.old (length indices.now) }
    requires listed { Listed indices.now s.old }
    ensures { KeptIn mode seen.now tolerance indices.now s.old s.new result }
{
    let mut p: usize = 0;
    let mut m: usize = 0;
    // A `while`: p steps from the first side of an edge to that of the next.
    while p < indices.len() {
        let q = edge_end(s, indices.len(), p);
        m = keep_edge(mode, seen, s, indices.len(), tolerance, p, q, m);
        p = q;
    }
    m
}

// Stores what is seen of the faces where the mode needs their normals.
fn look(mode: Mode, mesh: Mesh, eye: Vector, seen: &mut [f64])
    requires { length mesh.indices.now / 3 ≤ most_faces }
    ensures { seen.new ≡ look_in mode eye mesh.entry.vertices.now mesh.entry.indices.now seen.old }
{
    let n = (mesh.indices.len() / 3) as u32;
    let needs = needs_of(mode);
    if needs.normals {
        see(mesh.vertices, mesh.indices, eye, n, seen);
    }
}

// Writes the sides by their pairs, with the flips where the mode needs them.
fn list_edges(mode: Mode, indices: &[u32], flips: &[u32], s: &mut [u32])
    ensures { s.new ≡ edges_in s.old indices.now (flips_for mode flips.now) }
{
    let needs = needs_of(mode);
    if needs.flips {
        edges(indices, flips, s);
        return;
    }
    edges(indices, &flips[..0], s);
}

// Draws into room that is there: the sides by their pairs, the kept edges after them, spliced.
fn draw_in(
    mesh: Mesh,
    flips: &[u32],
    mode: Mode,
    eye: Vector,
    tolerance: f64,
    scratch: &mut [u32],
    seen: &mut [f64],
    out_points: &mut [u32],
    out_starts: &mut [u32],
) -> Place
    requires { Fitting mesh.indices.now (length scratch.old) (length seen.old) (length out_points.old) (length out_starts.old) }
    ensures { LaidOut (drawing_of mode eye tolerance flips.now mesh.entry.vertices.now mesh.entry.indices.now) out_points.old out_starts.old
        out_points.new out_starts.new result.points result.starts }
{
    look(mode, mesh, eye, seen);
    list_edges(mode, mesh.indices, flips, scratch);
    let m = keep_edges(mode, seen, mesh.indices, scratch, tolerance);
    let a = 5 * mesh.indices.len();
    splice_pairs(&mut scratch[a..], m, out_points, out_starts)
}

// Whether there are 64 words and 4 numbers of scratch a face.
#[tactic(auto, unfolding(crate::specs::Call::scratch_for))]
pub fn scratch_for(faces: usize, words: usize, numbers: usize) -> bool
    ensures { result ≡ scratch_for faces words numbers }
{
    if words / 64 < faces {
        return false;
    }
    faces <= numbers / 4
}

// Whether there is room for 6 points and 3 starts a face.
#[tactic(auto, unfolding(crate::specs::Call::room_for))]
pub fn room_for(faces: usize, room: usize, start_room: usize) -> bool
    ensures { result ≡ room_for faces room start_room }
{
    if room / 6 < faces {
        return false;
    }
    faces <= start_room / 3
}

// How long the lists are that a drawing is lent: words and numbers of scratch, and the room for points and for starts.
#[derive(Clone, Copy, Debug, PartialEq, Eq)]
pub struct Lengths {
    pub words: usize,
    pub seen: usize,
    pub points: usize,
    pub starts: usize,
}

// Whether so many indices are faces, not too many, and all has room.
#[tactic(auto, unfolding(crate::specs::Call::fits))]
fn fits(indices: usize, lengths: Lengths) -> bool
    ensures { result ≡ fits_of indices lengths.words lengths.seen lengths.points lengths.starts }
{
    if indices % 3 != 0 {
        return false;
    }
    if MOST_FACES < indices / 3 {
        return false;
    }
    if !scratch_for(indices / 3, lengths.words, lengths.seen) {
        return false;
    }
    room_for(indices / 3, lengths.points, lengths.starts)
}

// Whether all has room, and with so many numbers of vertices every index is that of a vertex.
fn ready(vertices: usize, indices: &[u32], lengths: Lengths) -> bool
    ensures { result ≡ (fits_of (length indices.now) lengths.words lengths.seen lengths.points lengths.starts && all_below (vertices / 3) indices.now) }
{
    if !fits(indices.len(), lengths) {
        return false;
    }
    all_below(indices, vertices / 3)
}

// Draws in a mode, and leaves scratch all zero. Where it does not fit, or an index is that of no vertex, nothing is
// changed and nothing written.
pub fn draw_strokes(
    vertices: &[f64],
    indices: &[u32],
    flips: &[u32],
    mode: Mode,
    eye: Vector,
    tolerance: f64,
    scratch: &mut [u32],
    seen: &mut [f64],
    out_points: &mut [u32],
    out_starts: &mut [u32],
) -> Place
    ensures { left (accepted (result.points ∷ result.starts ∷ [])) scratch.new seen.new out_points.new out_starts.new
        ≡ strokes_left vertices.now indices.now flips.now mode eye tolerance
        scratch.old seen.old out_points.old out_starts.old }
{
    let lengths = Lengths {
        words: scratch.len(),
        seen: seen.len(),
        points: out_points.len(),
        starts: out_starts.len(),
    };
    if !ready(vertices.len(), indices, lengths) {
        return Place {
            points: 0,
            starts: 0,
        };
    }
    let mesh = Mesh { vertices, indices };
    let p = draw_in(
        mesh, flips, mode, eye, tolerance, scratch, seen, out_points, out_starts,
    );
    clear(scratch);
    clear_numbers(seen);
    p
}
