// The first face that has no normal, and what is kept of each face while a mesh is drawn: its normal, and how it faces the eye.
#![tactic(auto)]

ghost use Rattle.std.specs.Prelude.{◌≡◌, Ok, ◌*◌, ◌≤◌, length};
ghost use Rattle.mesh.specs.Meshes.{face_at};
ghost use Rattle.refusal.specs.Said.{verdict_said};
ghost use Rattle.mesh_seen.specs.Normals.{across_of, flat_of, alike_of, normal_of, normal_said, normal_found};
ghost use Rattle.mesh_seen.specs.Seen.{face_verdict, flat_from, flat_verdict, put_seen, seen_from, seen_all, normal_at, facing_at};

use mesh::{Mesh, Triangle, reaches};
use path::{number_at, put};
use refusal::Refusal;
use vector::Vector;

// Why a face has no normal: two corners compare equal; or three different corners have none.
#[derive(Clone, Copy, Debug, PartialEq, Eq)]
pub enum Flat {
    Alike,
    NoLength,
}

// The cross product of two sides of a face, which its normal has the direction of.
fn across(t: Triangle) -> Vector
    ensures { result ≡ across_of t }
{
    t.v2.sub(t.v1).cross(t.v3.sub(t.v1))
}

// Whether a face has no normal. The length is 0 exactly if its square is, so no root is worked out.
fn is_flat(t: Triangle) -> bool
    ensures { result ≡ flat_of t }
{
    across(t).length_squared() == 0.0
}

// Whether two corners of a face compare equal.
#[tactic(auto, unfolding(crate::specs::Normals::alike_of, vector::specs::Vectors::equal_of))]
fn is_alike(t: Triangle) -> bool
    ensures { result ≡ alike_of t }
{
    t.v1 == t.v2 || t.v1 == t.v3 || t.v2 == t.v3
}

// The cross product normalised twice, as the source's `normal` and its callers do; of a flat face no number comes out.
fn twice_normalized(t: Triangle) -> Vector
    ensures { result ≡ normal_of t }
{
    let n = across(t);
    let u = n.div_scalar(n.length());
    u.div_scalar(u.length())
}

// The normal of a face, or why it has none.
#[tactic(auto, unfolding(crate::specs::Normals::normal_found))]
pub fn normal(t: Triangle) -> Result<Vector, Flat>
    ensures { normal_said result ≡ normal_found t }
{
    if !is_flat(t) {
        return Ok(twice_normalized(t));
    }
    if is_alike(t) {
        return Err(Flat::Alike);
    }
    Err(Flat::NoLength)
}

// The verdict on face f, by what its normal answers.
fn face_verdict(t: Triangle, f: u32) -> Result<(), Refusal>
    ensures { result ≡ face_verdict t f (Ok tt) }
{
    match normal(t) {
        Ok(_) => Ok(()),
        Err(Flat::Alike) => Err(Refusal::Alike(f)),
        Err(Flat::NoLength) => Err(Refusal::NoLength(f)),
    }
}

// The verdict on the first n faces, which are there: the first that has no normal decides.
fn flat_among(mesh: Mesh, n: u32) -> Result<(), Refusal>
    requires { n * 3 ≤ length mesh.indices.now }
    ensures { result ≡ flat_from (face_at mesh.entry.vertices.now mesh.entry.indices.now) 0 n }
{
    for f in 0..n {
        let t = mesh.face(f);
        if is_flat(t) {
            return face_verdict(t, f);
        }
    }
    Ok(())
}

// The verdict on the first n faces, where all their corners are there.
#[tactic(auto, using(mesh::proofs::Tests::reached), unfolding(crate::specs::Seen::flat_verdict))]
pub fn flat_verdict(vertices: &[f64], indices: &[u32], n: u32) -> Result<(), Refusal>
    ensures { verdict_said result ≡ verdict_said (flat_verdict vertices.now indices.now n) }
{
    if !reaches(indices, vertices.len() / 3, n) {
        return Ok(());
    }
    flat_among(Mesh { vertices, indices }, n)
}

// Stores the normal of face f and its dot with eye minus the face's first corner.
fn put_seen(t: Triangle, eye: Vector, out: &mut [f64], f: u32)
    ensures { out.new ≡ put_seen eye t out.old f }
{
    let k = f as usize * 4;
    let v = twice_normalized(t);
    put(out, k, v.x);
    put(out, k + 1, v.y);
    put(out, k + 2, v.z);
    put(out, k + 3, v.dot(eye.sub(t.v1)));
}

// Stores what is seen of the first n faces, which are there, four numbers each.
fn see_in(mesh: Mesh, eye: Vector, n: u32, out: &mut [f64])
    requires { n * 3 ≤ length mesh.indices.now }
    ensures { out.new ≡ seen_from eye (face_at mesh.entry.vertices.now mesh.entry.indices.now) 0 n out.old }
{
    for f in 0..n {
        put_seen(mesh.face(f), eye, out, f);
    }
}

// Stores what is seen of the first n faces where all their corners are there, and otherwise nothing. One test of all
// serves every face.
#[tactic(auto, using(mesh::proofs::Tests::reached), unfolding(crate::specs::Seen::seen_all))]
pub fn see(vertices: &[f64], indices: &[u32], eye: Vector, n: u32, out: &mut [f64])
    ensures { out.new ≡ seen_all eye vertices.now indices.now n out.old }
{
    if reaches(indices, vertices.len() / 3, n) {
        see_in(Mesh { vertices, indices }, eye, n, out);
    }
}

// The normal of face f, as it was stored.
pub fn normal_at(seen: &[f64], f: u32) -> Vector
    ensures { result ≡ normal_at seen.now f }
{
    let k = f as usize * 4;
    Vector {
        x: number_at(seen, k),
        y: number_at(seen, k + 1),
        z: number_at(seen, k + 2),
    }
}

// Its dot with the eye, as it was stored.
pub fn facing_at(seen: &[f64], f: u32) -> f64
    ensures { result ≡ facing_at seen.now f }
{
    number_at(seen, f as usize * 4 + 3)
}
