// Drawing a mesh: its kept edges, each once, spliced into strokes with as few pen lifts as those edges allow.
#![tactic(auto)]

ghost use Rattle.std.specs.Prelude.{◌≡◌, ◌&&◌, ◌/◌, ◌≤◌, length};
ghost use Rattle.refusal.specs.Limits.{most_faces};
ghost use Rattle.path.specs.Tests.{coordinates_good, tolerance_good};
ghost use Rattle.path.specs.Call.{placed_said};
ghost use Rattle.mesh.specs.Meshes.{vector_good};
ghost use Rattle.mesh_draw.specs.Call.{sight, mode_named, flat_in, work_verdict, verdict_of, draw_left};
ghost use Rattle.mesh_draw.specs.InnerMode.{with_mode};
ghost use Rattle.mesh_strokes.specs.Call.{lent, left};

use mesh::{Mesh, mesh_verdict, vector_good};
use mesh_mode::{Mode, mode_of, needs_of};
use mesh_seen::flat_verdict;
use mesh_strokes::{Lengths, draw_strokes, room_for, scratch_for};
use path::{Place, coordinates_good, tolerance_good};
use refusal::Refusal;
use vector::Vector;

// How a mesh is looked at: the number of a mode and its cosine, the eye, the tolerance.
#[derive(Clone, Copy, Debug, PartialEq)]
pub struct Sight {
    pub number: u32,
    pub cosine: f64,
    pub eye: Vector,
    pub tolerance: f64,
}

// Whether coordinates, eye and tolerance are within their ranges.
fn numbers_good(vertices: &[f64], eye: Vector, tolerance: f64) -> bool
    ensures { result ≡ (coordinates_good vertices.now && vector_good eye && tolerance_good tolerance) }
{
    if !coordinates_good(vertices) {
        return false;
    }
    if !vector_good(eye) {
        return false;
    }
    tolerance_good(tolerance)
}

// The mode that a number names. (`work_verdict` has it of `mode_of`; the test of flat faces asks for it here, so that an edit can have it, and
// not the drawing, take another.)
fn mode_named(number: u32, cos_theta: f64) -> Mode
    ensures { result ≡ mode_named number cos_theta }
{
    match mode_of(number, cos_theta) {
        Ok(mode) => mode,
        Err(_) => Mode::Triangles,
    }
}

// The verdict on the faces, where the mode needs normals: the first that has none decides.
fn flat_in(mode: Mode, mesh: Mesh) -> Result<(), Refusal>
    requires { length mesh.indices.now / 3 ≤ most_faces }
    ensures { result ≡ flat_in mode mesh.entry.vertices.now mesh.entry.indices.now }
{
    let n = (mesh.indices.len() / 3) as u32;
    let needs = needs_of(mode);
    if needs.normals {
        return flat_verdict(mesh.vertices, mesh.indices, n);
    }
    Ok(())
}

// The tests of what a drawing works with and on, and the mode that its number names. Nothing lent is touched.
fn work_verdict(mesh: Mesh, sight: Sight, lengths: Lengths) -> Result<Mode, Refusal>
    requires { length mesh.indices.now / 3 ≤ most_faces }
    ensures { result ≡ with_mode (work_verdict mesh.entry.vertices.now mesh.entry.indices.now sight lengths) (mode_named sight.number sight.cosine) }
{
    if !numbers_good(mesh.vertices, sight.eye, sight.tolerance) {
        return Err(Refusal::Number);
    }
    let mode = mode_of(sight.number, sight.cosine)?;
    if !scratch_for(mesh.indices.len() / 3, lengths.words, lengths.seen) {
        return Err(Refusal::Scratch);
    }
    if !room_for(mesh.indices.len() / 3, lengths.points, lengths.starts) {
        return Err(Refusal::Room);
    }
    flat_in(mode_named(sight.number, sight.cosine), mesh)?;
    Ok(mode)
}

// All tests before a drawing, the lowest number first, and its mode.
fn draw_verdict(
    vertices: &[f64],
    indices: &[u32],
    flips: usize,
    sight: Sight,
    lengths: Lengths,
) -> Result<Mode, Refusal>
    ensures { result ≡ with_mode (verdict_of vertices.now indices.now flips sight lengths) (mode_named sight.number sight.cosine) }
{
    if flips % 2 != 0 {
        return Err(Refusal::Shape);
    }
    mesh_verdict(vertices, indices)?;
    work_verdict(Mesh { vertices, indices }, sight, lengths)
}

// Draws a mesh: the edges that its mode keeps, each once, in strokes of vertex numbers with as few of them open as those edges
// allow. Scratch is all zero after it.
pub fn draw(
    vertices: &[f64],
    indices: &[u32],
    flips: &[u32],
    number: u32,
    cos_theta: f64,
    eye: Vector,
    tolerance: f64,
    scratch: &mut [u32],
    seen: &mut [f64],
    out_points: &mut [u32],
    out_starts: &mut [u32],
) -> Result<Place, Refusal>
    ensures { left (placed_said result) scratch.new seen.new out_points.new out_starts.new
        ≡ draw_left vertices.now indices.now flips.now (sight number cos_theta eye tolerance)
        (lent scratch.old seen.old out_points.old out_starts.old) }
{
    let sight = Sight {
        number,
        cosine: cos_theta,
        eye,
        tolerance,
    };
    let lengths = Lengths {
        words: scratch.len(),
        seen: seen.len(),
        points: out_points.len(),
        starts: out_starts.len(),
    };
    let mode = draw_verdict(vertices, indices, flips.len(), sight, lengths)?;
    Ok(draw_strokes(
        vertices, indices, flips, mode, eye, tolerance, scratch, seen, out_points, out_starts,
    ))
}
