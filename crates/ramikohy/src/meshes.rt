// The calls on meshes for C and Rust. The result is the status, 0 or the refusal's number; the counts go out
// through the last parameters, which a refusal leaves as they were, and behind them the face that a refusal carries.
ghost use Rattle.std.specs.Prelude.{◌≡◌, [], ◌∷◌, get_or};
ghost use Rattle.refusal.specs.Refusals.{number_of, carried_by};
ghost use Rattle.path.specs.Call.{lent};
ghost use Rattle.mesh_weld.specs.Call.{lent as weld_lent, weld_left};
ghost use Rattle.mesh_section.specs.Call.{section_left};
ghost use Rattle.mesh_contour.specs.Call.{lent as contour_lent, contour_left};
ghost use Rattle.mesh_strokes.specs.Call.{lent as draw_lent};
ghost use Rattle.mesh_draw.specs.Call.{sight, draw_left};
ghost use Rattle.ramikohy.specs.Points.{point_of};
ghost use Rattle.ramikohy.specs.Calls.{called, called_by, faced, faced_by};

use crate::point;
use mesh_section::Plane;
use refusal::Refusal;

// Welds the corners of faces.
#[unsafe(no_mangle)]
pub extern "C" fn ramikohy_weld(
    coords: &[f64],
    scratch: &mut [u32],
    vertices: &mut [f64],
    indices: &mut [u32],
    vertex_count: &mut usize,
    index_count: &mut usize,
) -> u32
    ensures { called result (vertex_count.new ∷ index_count.new ∷ []) (weld_lent scratch.new vertices.new indices.new)
        ≡ called_by (weld_left coords.now scratch.old vertices.old indices.old)
        (vertex_count.old ∷ index_count.old ∷ []) }
{
    match mesh_weld::weld(coords, scratch, vertices, indices) {
        Ok(answer) => {
            *vertex_count = answer.vertices;
            *index_count = answer.indices;
            0
        }
        Err(why) => refusal::number(why),
    }
}

// Cuts the faces of a mesh by a plane.
#[unsafe(no_mangle)]
pub extern "C" fn ramikohy_section(
    vertices: &[f64],
    indices: &[u32],
    plane_point: &[f64; 3],
    plane_normal: &[f64; 3],
    tolerance: f64,
    out_points: &mut [f64],
    out_starts: &mut [u32],
    point_count: &mut usize,
    start_count: &mut usize,
) -> u32
    ensures { called result (point_count.new ∷ start_count.new ∷ []) (lent out_points.new out_starts.new)
        ≡ called_by
        (section_left vertices.now indices.now (record { point = point_of plane_point.now; normal = point_of plane_normal.now }) tolerance out_points.old out_starts.old)
        (point_count.old ∷ start_count.old ∷ []) }
{
    let plane = Plane {
        point: point(plane_point),
        normal: point(plane_normal),
    };
    match mesh_section::section(vertices, indices, plane, tolerance, out_points, out_starts) {
        Ok(answer) => {
            *point_count = answer.points;
            *start_count = answer.starts;
            0
        }
        Err(why) => refusal::number(why),
    }
}

// The outline in which a plane cuts a mesh.
#[unsafe(no_mangle)]
pub extern "C" fn ramikohy_contour(
    vertices: &[f64],
    indices: &[u32],
    plane_point: &[f64; 3],
    plane_normal: &[f64; 3],
    tolerance: f64,
    scratch: &mut [u32],
    numbers: &mut [f64],
    out_points: &mut [f64],
    out_starts: &mut [u32],
    point_count: &mut usize,
    start_count: &mut usize,
) -> u32
    ensures { called result (point_count.new ∷ start_count.new ∷ []) (contour_lent scratch.new numbers.new out_points.new out_starts.new)
        ≡ called_by
        (contour_left vertices.now indices.now (record { point = point_of plane_point.now; normal = point_of plane_normal.now }) tolerance
        scratch.old numbers.old out_points.old out_starts.old)
        (point_count.old ∷ start_count.old ∷ []) }
{
    let plane = Plane {
        point: point(plane_point),
        normal: point(plane_normal),
    };
    match mesh_contour::contour(
        vertices, indices, plane, tolerance, scratch, numbers, out_points, out_starts,
    ) {
        Ok(answer) => {
            *point_count = answer.points;
            *start_count = answer.starts;
            0
        }
        Err(why) => refusal::number(why),
    }
}

// The number of a refusal. The face that it carries goes to its place, which is left alone where it carries none.
fn told(why: Refusal, face: &mut u32) -> u32
    ensures { (result ≡ number_of why) × (face.new ≡ get_or (carried_by why) 0 face.old) }
{
    match refusal::carried_by(why) {
        Some(f) => {
            *face = f;
            refusal::number(why)
        }
        None => refusal::number(why),
    }
}

// Draws a mesh in the mode of a number. A refusal for a flat face says which; nothing else touches the face's place.
#[unsafe(no_mangle)]
pub extern "C" fn ramikohy_draw(
    vertices: &[f64],
    indices: &[u32],
    flips: &[u32],
    mode: u32,
    cos_theta: f64,
    eye: &[f64; 3],
    tolerance: f64,
    scratch: &mut [u32],
    seen: &mut [f64],
    out_points: &mut [u32],
    out_starts: &mut [u32],
    point_count: &mut usize,
    start_count: &mut usize,
    face: &mut u32,
) -> u32
    ensures { faced (called result (point_count.new ∷ start_count.new ∷ []) (draw_lent scratch.new seen.new out_points.new out_starts.new)) face.new
        ≡ faced_by
        (draw_left vertices.now indices.now flips.now (sight mode cos_theta (point_of eye.now) tolerance)
        (draw_lent scratch.old seen.old out_points.old out_starts.old))
        (point_count.old ∷ start_count.old ∷ []) face.old }
{
    let e = point(eye);
    match mesh_draw::draw(
        vertices, indices, flips, mode, cos_theta, e, tolerance, scratch, seen, out_points,
        out_starts,
    ) {
        Ok(answer) => {
            *point_count = answer.points;
            *start_count = answer.starts;
            0
        }
        Err(why) => told(why, face),
    }
}
