// What the calls on meshes share: a face by its corners, and the tests of a mesh.
#![tactic(auto)]

ghost use Rattle.std.specs.Prelude.{◌≡◌, Ok, true, ◌&&◌, ℕ, ◌+◌, ◌*◌, ◌/◌, ◌≤◌, ◌<◌, length, ltb};
ghost use Rattle.mesh.specs.Meshes.{corner_at, face_at, shaped_of, counted_of, all_below, mesh_verdict, reach_of, vector_good};

use path::{coordinate_good, point_at};
use refusal::{MOST_FACES, MOST_VERTICES, Refusal};
use vector::Vector;

// The three corners of a face.
#[derive(Clone, Copy, Debug, PartialEq)]
pub struct Triangle {
    pub v1: Vector,
    pub v2: Vector,
    pub v3: Vector,
}

// A mesh whose indices are all those of its vertices: a corner that is there is read with no test of its index.
#[derive(Clone, Copy)]
pub struct Mesh<'a> {
    pub vertices: &'a [f64],
    pub indices: &'a [u32],
    pub ghost below: { all_below (length vertices.now / 3) indices.now ≡ true },
}

impl<'a> Mesh<'a> {
    // The vertex of corner k, which is there.
    #[tactic(auto, using(crate::proofs::Tests::index_below), unfolding(path::specs::Strokes::point_at))]
    fn corner_in(self, k: usize) -> Vector
        requires { k < length self.indices.now }
        ensures { result ≡ corner_at self.entry.vertices.now self.entry.indices.now k }
    {
        let i = self.indices[k] as usize * 3;
        Vector {
            x: self.vertices[i],
            y: self.vertices[i + 1],
            z: self.vertices[i + 2],
        }
    }

    // The vertex of corner k; past the end that of index 0, NaN where there is none.
    #[tactic(auto, using(crate::proofs::Tests::index_past))]
    pub fn corner(self, k: usize) -> Vector
        ensures { result ≡ corner_at self.entry.vertices.now self.entry.indices.now k }
    {
        if k < self.indices.len() {
            return self.corner_in(k);
        }
        point_at(self.vertices, 0)
    }

    // The corners of face f, where not all of them are there.
    #[cold]
    fn face_past(self, f: u32) -> Triangle
        ensures { result ≡ face_at self.entry.vertices.now self.entry.indices.now f }
    {
        let k = f as usize * 3;
        Triangle {
            v1: self.corner(k),
            v2: self.corner(k + 1),
            v3: self.corner(k + 2),
        }
    }

    // The corners of face f. One test serves all three.
    pub fn face(self, f: u32) -> Triangle
        ensures { result ≡ face_at self.entry.vertices.now self.entry.indices.now f }
    {
        let k = f as usize * 3;
        if self.indices.len() <= k + 2 {
            return self.face_past(f);
        }
        Triangle {
            v1: self.corner_in(k),
            v2: self.corner_in(k + 1),
            v3: self.corner_in(k + 2),
        }
    }
}

// Whether so many numbers are vertices and so many indices faces, three each.
pub fn shaped(vertices: usize, indices: usize) -> bool
    ensures { result ≡ shaped_of vertices indices }
{
    if vertices % 3 != 0 {
        return false;
    }
    indices % 3 == 0
}

// Whether so many numbers and indices are within the limits of vertices and faces.
pub fn counted(vertices: usize, indices: usize) -> bool
    ensures { result ≡ counted_of vertices indices }
{
    if MOST_VERTICES < vertices / 3 {
        return false;
    }
    indices / 3 <= MOST_FACES
}

// The larger of two numbers: below n exactly if both are.
fn larger(a: u32, b: u32) -> u32
    ensures { (n : ℕ) → ltb result n ≡ (ltb a n && ltb b n) }
{
    if a < b { b } else { a }
}

// The largest of the numbers, 0 of none. No number ends the loop, so that several are compared at a time.
fn largest(indices: &[u32]) -> u32
    ensures { (n : ℕ) → 0 < n → all_below n indices.now ≡ ltb result n }
{
    let mut m = 0;
    for index in indices {
        m = larger(m, *index);
    }
    m
}

// Whether every index is below n.
pub fn all_below(indices: &[u32], n: usize) -> bool
    ensures { result ≡ all_below n indices.now }
{
    if n == 0 {
        return indices.len() == 0;
    }
    (largest(indices) as usize) < n
}

// The tests of a mesh that a call is lent.
#[tactic(auto, unfolding(crate::specs::Meshes::mesh_verdict, refusal::specs::Refusals::unless))]
pub fn mesh_verdict(vertices: &[f64], indices: &[u32]) -> Result<(), Refusal>
    ensures { result ≡ mesh_verdict vertices.now indices.now (Ok tt) }
{
    if !shaped(vertices.len(), indices.len()) {
        return Err(Refusal::Shape);
    }
    if !counted(vertices.len(), indices.len()) {
        return Err(Refusal::Count);
    }
    if !all_below(indices, vertices.len() / 3) {
        return Err(Refusal::Vertex);
    }
    Ok(())
}

// Whether the first n faces are there, and with v vertices all their corners.
pub fn reaches(indices: &[u32], v: usize, n: u32) -> bool
    ensures { result ≡ reach_of v indices.now n }
{
    if indices.len() < n as usize * 3 {
        return false;
    }
    all_below(indices, v)
}

// Whether a point that is handed to a call is within the bound.
pub fn vector_good(v: Vector) -> bool
    ensures { result ≡ vector_good v }
{
    if !coordinate_good(v.x) {
        return false;
    }
    if !coordinate_good(v.y) {
        return false;
    }
    coordinate_good(v.z)
}
