// The section of a mesh by a plane: a stroke of two points for each face that the plane cuts.
#![tactic(auto)]

ghost use Rattle.std.specs.Prelude.{◌≡◌, true, false, Ok, ◌+◌, ◌*◌, ◌≤◌, length};
ghost use Rattle.std.specs.Float.{binary64};
ghost use Rattle.std.specs.Float.Ieee.{div};
ghost use Rattle.mesh.specs.Meshes.{face_at};
ghost use Rattle.refusal.specs.Limits.{most_faces, most_strokes, most_points};
ghost use Rattle.path.specs.InnerPushes.{out, push, push_all, put_points};
ghost use Rattle.path.specs.Call.{left, placed_said};
ghost use Rattle.mesh_section.specs.Section.{segment_hit, runs_along, within, two_of, triangle_cut, cut_stroke, faces_cut};
ghost use Rattle.mesh_section.specs.Call.{numbers_good, cut_verdict, room_for, verdict_of, section_left};

use mesh::{Mesh, Triangle, mesh_verdict, vector_good};
use path::{Place, coordinates_good, put, put_point, tolerance_good};
use refusal::Refusal;
use vector::Vector;

// A plane by one of its points and its normal.
#[derive(Clone, Copy, Debug, PartialEq)]
pub struct Plane {
    pub point: Vector,
    pub normal: Vector,
}

// Whether a share lies on the segment; a NaN does not.
fn on_segment(t: f64) -> bool
    ensures { result ≡ within t }
{
    if 0.0 <= t {
        return t <= 1.0;
    }
    false
}

// Whether a segment that rises by d over the plane runs along it.
fn runs_along(d: f64, tolerance: f64) -> bool
    ensures { result ≡ runs_along tolerance d }
{
    if d > -tolerance {
        return d < tolerance;
    }
    false
}

// Whether n is more than twice d in size, so that n / d lies on no segment. By squares, as no sign then decides a branch.
fn far(n: f64, d: f64) -> bool
    ensures { result ≡ true → within (div binary64 n d) ≡ false }
{
    let e = d + d;
    n * n > e * e
}

impl Plane {
    // Where the segment from v0 to v1 meets the plane, unless it runs along it. Most segments are far, and spare the division.
    fn intersect_segment(self, v0: Vector, v1: Vector, tolerance: f64) -> Option<Vector>
        ensures { result ≡ segment_hit self tolerance v0 v1 }
    {
        let u = v1.sub(v0);
        let w = v0.sub(self.point);
        let d = self.normal.dot(u);
        let n = -self.normal.dot(w);
        if far(n, d) {
            return None;
        }
        if runs_along(d, tolerance) {
            return None;
        }
        let t = n / d;
        if !on_segment(t) {
            return None;
        }
        Some(v0.add(u.mul_scalar(t)))
    }

    // The first two hits among the sides 12, 23, 31.
    fn intersect_triangle(self, t: Triangle, tolerance: f64) -> Option<(Vector, Vector)>
        ensures { result ≡ triangle_cut self tolerance t }
    {
        let v1 = self.intersect_segment(t.v1, t.v2, tolerance);
        let v2 = self.intersect_segment(t.v2, t.v3, tolerance);
        let v3 = self.intersect_segment(t.v3, t.v1, tolerance);
        first_two(v1, v2, v3)
    }
}

// The first two of three hits.
#[tactic(auto, unfolding(crate::specs::Section::two_of))]
fn first_two(v1: Option<Vector>, v2: Option<Vector>, v3: Option<Vector>) -> Option<(Vector, Vector)>
    ensures { result ≡ two_of v1 v2 v3 }
{
    match (v1, v2, v3) {
        (Some(a), Some(b), _) => Some((a, b)),
        (Some(a), None, Some(c)) => Some((a, c)),
        (None, Some(b), Some(c)) => Some((b, c)),
        _ => None,
    }
}

// Writes the stroke of a cut and its start; of no cut nothing.
fn write_cut(
    c: Option<(Vector, Vector)>,
    out_points: &mut [f64],
    out_starts: &mut [u32],
    p: Place,
) -> Place
    requires { (p.points ≤ most_points) × (p.starts ≤ most_strokes) }
    ensures result_after { out out_points.new out_starts.new result
        ≡ push put_points (out out_points.old out_starts.old p) (cut_stroke c) }
    ensures points_bound { (result.points ≤ p.points + 2) × (result.starts ≤ p.starts + 1) }
{
    match c {
        Some((a, b)) => {
            let at = p.points;
            let k = p.starts;
            put(out_starts, k, at as u32);
            put_point(out_points, at, a);
            put_point(out_points, at + 1, b);
            Place {
                points: at + 2,
                starts: k + 1,
            }
        }
        None => p,
    }
}

// Writes the strokes of the first n faces, which are there.
fn write_faces(
    mesh: Mesh,
    plane: Plane,
    tolerance: f64,
    n: u32,
    out_points: &mut [f64],
    out_starts: &mut [u32],
) -> Place
    requires n_le_most_faces { n ≤ most_faces }
    requires n_there { n * 3 ≤ length mesh.indices.now }
    ensures { out out_points.new out_starts.new result
        ≡ push_all put_points (out out_points.old out_starts.old (record { points = 0; starts = 0 }))
        (faces_cut (face_at mesh.entry.vertices.now mesh.entry.indices.now) plane tolerance 0 n) }
{
    let mut p = Place {
        points: 0,
        starts: 0,
    };
    for f in 0..n {
        let c = plane.intersect_triangle(mesh.face(f), tolerance);
        p = write_cut(c, out_points, out_starts, p);
    }
    p
}

// Whether coordinates, plane and tolerance are within their ranges.
#[tactic(auto, unfolding(crate::specs::Call::numbers_good))]
pub fn numbers_good(vertices: &[f64], plane: Plane, tolerance: f64) -> bool
    ensures { result ≡ numbers_good vertices.now plane tolerance }
{
    if !coordinates_good(vertices) {
        return false;
    }
    if !vector_good(plane.point) {
        return false;
    }
    if !vector_good(plane.normal) {
        return false;
    }
    tolerance_good(tolerance)
}

// Whether there is room for two points and a start a face.
#[tactic(auto, unfolding(crate::specs::Call::room_for))]
pub fn room_for(faces: usize, room: usize, start_room: usize) -> bool
    ensures { result ≡ room_for faces room start_room }
{
    if room / 6 < faces {
        return false;
    }
    faces <= start_room
}

// The tests of a mesh, of the plane that cuts it and of the tolerance.
pub fn cut_verdict(
    vertices: &[f64],
    indices: &[u32],
    plane: Plane,
    tolerance: f64,
) -> Result<(), Refusal>
    ensures { result ≡ cut_verdict vertices.now indices.now plane tolerance (Ok tt) }
{
    mesh_verdict(vertices, indices)?;
    if !numbers_good(vertices, plane, tolerance) {
        return Err(Refusal::Number);
    }
    Ok(())
}

// The tests before a section. Nothing lent is touched.
fn section_verdict(
    vertices: &[f64],
    indices: &[u32],
    plane: Plane,
    tolerance: f64,
    room: usize,
    start_room: usize,
) -> Result<(), Refusal>
    ensures { result ≡ verdict_of vertices.now indices.now plane tolerance room start_room }
{
    cut_verdict(vertices, indices, plane, tolerance)?;
    if !room_for(indices.len() / 3, room, start_room) {
        return Err(Refusal::Room);
    }
    Ok(())
}

// Cuts every face by the plane, in list order: two points and a start for each face that is cut.
pub fn section(
    vertices: &[f64],
    indices: &[u32],
    plane: Plane,
    tolerance: f64,
    out_points: &mut [f64],
    out_starts: &mut [u32],
) -> Result<Place, Refusal>
    ensures { left (placed_said result) out_points.new out_starts.new
        ≡ section_left vertices.now indices.now plane tolerance out_points.old out_starts.old }
{
    section_verdict(
        vertices,
        indices,
        plane,
        tolerance,
        out_points.len(),
        out_starts.len(),
    )?;
    let n = (indices.len() / 3) as u32;
    Ok(write_faces(
        Mesh { vertices, indices },
        plane,
        tolerance,
        n,
        out_points,
        out_starts,
    ))
}
