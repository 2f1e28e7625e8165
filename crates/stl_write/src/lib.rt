// Writing a mesh as a binary STL file.
#![tactic(auto)]

ghost use Rattle.std.specs.Prelude.{◌≡◌, true, ◌&&◌, ◌+◌, ◌*◌, ◌/◌, ◌≤◌, ◌<◌, length, get_or, leb};
ghost use Rattle.std.proofs.lemmas.List.Edits.{sets};
ghost use Rattle.refusal.specs.Limits.{most_faces};
ghost use Rattle.refusal.specs.Said.{value_said};
ghost use Rattle.single.specs.Singles.{is_single};
ghost use Rattle.path.specs.Tests.{coordinates_good};
ghost use Rattle.mesh.specs.Meshes.{gathered};
ghost use Rattle.stl.specs.Files.{size_of, faces_of, stl_of, all_single};
ghost use Rattle.stl_write.specs.Call.{numbers_good, verdict_of, left, write_left};

use mesh::{Mesh, mesh_verdict};
use path::coordinates_good;
use refusal::Refusal;
use single::is_single;
use stl::{FACE_BYTES, FACES_FROM, put_face, put_head};
use vector::Vector;

// Whether all three coordinates of a corner are exactly f32.
fn is_exact(v: Vector) -> bool
    ensures { result ≡ (is_single v.x && is_single v.y && is_single v.z) }
{
    if !is_single(v.x) {
        return false;
    }
    if !is_single(v.y) {
        return false;
    }
    is_single(v.z)
}

// Whether all coordinates of vertices are exactly f32. NaN, which would pass, is within no bound.
fn all_exact(vertices: &[f64]) -> bool
    requires { coordinates_good vertices.now ≡ true }
    ensures { result ≡ all_single vertices.now }
{
    for x in vertices {
        if !is_single(*x) {
            return false;
        }
    }
    true
}

// Whether every corner, looked at one by one, is exactly f32.
fn named_exact(mesh: Mesh) -> bool
    requires { coordinates_good mesh.vertices.now ≡ true }
    ensures { result ≡ all_single (gathered mesh.entry.vertices.now mesh.entry.indices.now) }
{
    for k in 0..mesh.indices.len() {
        if !is_exact(mesh.corner(k)) {
            return false;
        }
    }
    true
}

// Whether every corner is exactly f32. Most often all vertices are, which are fewer than the corners.
fn corners_exact(mesh: Mesh) -> bool
    requires { coordinates_good mesh.vertices.now ≡ true }
    ensures { result ≡ all_single (gathered mesh.entry.vertices.now mesh.entry.indices.now) }
{
    if all_exact(mesh.vertices) {
        return true;
    }
    named_exact(mesh)
}

// Whether the coordinates of all vertices are within their bound, and those of all corners exactly f32.
fn numbers_good(mesh: Mesh) -> bool
    ensures { result ≡ numbers_good mesh.entry.vertices.now mesh.entry.indices.now }
{
    if !coordinates_good(mesh.vertices) {
        return false;
    }
    corners_exact(mesh)
}

// Whether the file of so many faces fits so many bytes.
fn room_for(faces: usize, room: usize) -> bool
    requires { faces ≤ most_faces }
    ensures { result ≡ leb (size_of faces) room }
{
    FACES_FROM + FACE_BYTES * faces <= room
}

// The tests before the call's work: the lowest refusal that applies. Nothing lent is touched.
fn write_verdict(vertices: &[f64], indices: &[u32], room: usize) -> Result<(), Refusal>
    ensures { result ≡ verdict_of vertices.now indices.now room }
{
    mesh_verdict(vertices, indices)?;
    if !numbers_good(Mesh { vertices, indices }) {
        return Err(Refusal::Number);
    }
    if !room_for(indices.len() / 3, room) {
        return Err(Refusal::Room);
    }
    Ok(())
}

// Stores all n faces behind the head.
fn write_faces(mesh: Mesh, n: u32, out: &mut [u8])
    requires { length mesh.indices.now ≡ n * 3 }
    ensures { out.new ≡ sets out.old (size_of 0) (faces_of n (gathered mesh.entry.vertices.now mesh.entry.indices.now)) }
{
    for f in 0..n {
        let t = mesh.face(f);
        put_face(out, f, t.v1, t.v2, t.v3);
    }
}

// Stores head and faces, and answers how many bytes they are.
fn write_all(mesh: Mesh, out: &mut [u8]) -> usize
    requires { (length mesh.indices.now ≡ length mesh.indices.now / 3 * 3) × (length mesh.indices.now / 3 ≤ most_faces) }
    ensures out_after { out.new ≡ sets out.old 0 (stl_of (gathered mesh.entry.vertices.now mesh.entry.indices.now)) }
    ensures value { result ≡ size_of (length mesh.entry.indices.now / 3) }
{
    let n = (mesh.indices.len() / 3) as u32;
    put_head(out, n);
    write_faces(mesh, n, out);
    FACES_FROM + FACE_BYTES * (n as usize)
}

// Writes a mesh as a binary STL file, and answers how many bytes it is. Nothing is rounded: a corner that is not exactly f32 is refused.
pub fn write_stl(vertices: &[f64], indices: &[u32], out: &mut [u8]) -> Result<usize, Refusal>
    ensures { left (value_said result) out.new ≡ write_left vertices.now indices.now out.old }
{
    write_verdict(vertices, indices, out.len())?;
    Ok(write_all(Mesh { vertices, indices }, out))
}
