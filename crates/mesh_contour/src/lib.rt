// The contour of a mesh cut by a plane: a segment for each face that the plane parts, joined into as few strokes as they allow.
#![tactic(auto)]

ghost use Rattle.std.specs.Prelude.{◌≡◌, ◌+◌, ◌*◌, ◌≤◌, ◌<◌, length};
ghost use Rattle.refusal.specs.Limits.{most_faces};
ghost use Rattle.path.specs.Laid.{joined};
ghost use Rattle.path.specs.Call.{placed_said};
ghost use Rattle.path.specs.InnerPushes.{put_points};
ghost use Rattle.mesh_section.specs.Section.{cut_stroke};
ghost use Rattle.mesh_contour_rule.specs.Contour.{corner_of, segment_of, segments_from};
ghost use Rattle.mesh_contour.specs.Call.{left, scratch_for, verdict_of, contour_left};

use mesh::Mesh;
use mesh_contour_rule::{Corner, corner_at, cut_face};
use mesh_section::{Plane, cut_verdict, room_for};
use order::clear;
use path::{Place, clear_numbers, put_point};
use path_segments::join_segments;
use refusal::Refusal;
use vector::Vector;

// Corner k of the list of indices.
fn corner_in(mesh: Mesh, plane: Plane, tolerance: f64, k: usize) -> Corner
    requires { k < length mesh.indices.now }
    ensures { result ≡ corner_of plane tolerance mesh.entry.vertices.now mesh.entry.indices.now k }
{
    corner_at(plane, tolerance, mesh.indices[k], mesh.corner(k))
}

// The segment of face f. (Plane and tolerance are two, here and in mesh_section, as the calls have them.)
fn cut_in(mesh: Mesh, plane: Plane, tolerance: f64, f: u32) -> Option<(Vector, Vector)>
    requires { f * 3 + 2 < length mesh.indices.now }
    ensures { cut_stroke result ≡ segment_of (corner_of plane tolerance mesh.entry.vertices.now mesh.entry.indices.now) f }
{
    let k = f as usize * 3;
    cut_face(
        corner_in(mesh, plane, tolerance, k),
        corner_in(mesh, plane, tolerance, k + 1),
        corner_in(mesh, plane, tolerance, k + 2),
    )
}

// Stores a segment as number k, if there is one, and answers the number of the next.
fn put_segment(c: Option<(Vector, Vector)>, out: &mut [f64], k: usize) -> usize
    requires { k ≤ most_faces }
    ensures { (out.new ≡ put_points out.old (2 * k) (cut_stroke c)) × (2 * result ≡ 2 * k + length (cut_stroke c)) × (result ≤ k + 1) }
{
    match c {
        Some((a, b)) => {
            put_point(out, 2 * k, a);
            put_point(out, 2 * k + 1, b);
            k + 1
        }
        None => k,
    }
}

// Stores the segments of the first n faces one after the other, and answers how many there are.
fn put_segments(mesh: Mesh, plane: Plane, tolerance: f64, n: u32, out: &mut [f64]) -> usize
    requires n_le_most_faces { n ≤ most_faces }
    requires n_there { n * 3 ≤ length mesh.indices.now }
    ensures { (out.new ≡ put_points out.old 0 (joined (segments_from (corner_of plane tolerance mesh.entry.vertices.now mesh.entry.indices.now) 0 n)))
        × (result ≡ length (segments_from (corner_of plane tolerance mesh.entry.vertices.now mesh.entry.indices.now) 0 n)) }
{
    let mut k: usize = 0;
    for f in 0..n {
        let c = cut_in(mesh, plane, tolerance, f);
        k = put_segment(c, out, k);
    }
    k
}

// Whether there are 16 words and 8 numbers of scratch a face.
#[tactic(auto, unfolding(crate::specs::Call::scratch_for))]
fn scratch_for(faces: usize, words: usize, numbers: usize) -> bool
    ensures { result ≡ scratch_for faces words numbers }
{
    if words / 16 < faces {
        return false;
    }
    if numbers / 8 < faces {
        return false;
    }
    true
}

// The tests before a contour. Nothing lent is touched.
fn contour_verdict(
    vertices: &[f64],
    indices: &[u32],
    plane: Plane,
    tolerance: f64,
    words: usize,
    numbers: usize,
    room: usize,
    start_room: usize,
) -> Result<(), Refusal>
    ensures { result ≡ verdict_of vertices.now indices.now plane tolerance words numbers room start_room }
{
    cut_verdict(vertices, indices, plane, tolerance)?;
    if !scratch_for(indices.len() / 3, words, numbers) {
        return Err(Refusal::Scratch);
    }
    if !room_for(indices.len() / 3, room, start_room) {
        return Err(Refusal::Room);
    }
    Ok(())
}

// Cuts every face by the plane and joins the segments into strokes with as few of them open as the segments allow. Scratch
// is all zero after it.
pub fn contour(
    vertices: &[f64],
    indices: &[u32],
    plane: Plane,
    tolerance: f64,
    scratch: &mut [u32],
    numbers: &mut [f64],
    out_points: &mut [f64],
    out_starts: &mut [u32],
) -> Result<Place, Refusal>
    ensures { left (placed_said result) scratch.new numbers.new out_points.new out_starts.new
        ≡ contour_left vertices.now indices.now plane tolerance scratch.old numbers.old
        out_points.old out_starts.old }
{
    contour_verdict(
        vertices,
        indices,
        plane,
        tolerance,
        scratch.len(),
        numbers.len(),
        out_points.len(),
        out_starts.len(),
    )?;
    let n = (indices.len() / 3) as u32;
    let k = put_segments(Mesh { vertices, indices }, plane, tolerance, n, numbers);
    let p = join_segments(numbers, k, scratch, out_points, out_starts);
    clear(scratch);
    clear_numbers(numbers);
    Ok(p)
}
