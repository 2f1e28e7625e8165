// Reading a binary STL file: its corners are welded where they stand in the bytes, by the step that welds those of a list.
ghost use Rattle.std.specs.Prelude.{◌≡◌, ◌*◌, ◌≤◌, length, replicate};
ghost use Rattle.refusal.specs.Limits.{most_faces};
ghost use Rattle.path.specs.Tests.{coordinates_good};
ghost use Rattle.stl.specs.Files.{faces_in, coordinates_in};
ghost use Rattle.mesh_weld.specs.InnerTable.{Laid};
ghost use Rattle.mesh_weld.specs.Call.{said, left};
ghost use Rattle.mesh_weld.specs.Read.{read_verdict, read_left};

use crate::{Corners, Welded, lent_verdict, weld_all};
use order::clear;
use refusal::{MOST_FACES, Refusal};
use stl::{corner_good, corner_in, faces_in, is_stl};
use vector::Vector;

// Whether the coordinates of all n corners are within their bound, told by their patterns.
fn corners_good(bytes: &[u8], n: usize) -> bool
    requires { n ≡ 3 * faces_in bytes.now }
    ensures { result ≡ coordinates_good (coordinates_in bytes.now) }
{
    for i in 0..n {
        if !corner_good(bytes, i) {
            return false;
        }
    }
    true
}

impl Corners for &[u8] {
    ghost coordinates = { λ bs. coordinates_in bs.now };

    fn corner(self, i: usize) -> Vector {
        corner_in(self, i)
    }
}

// The tests before reading: that the bytes are a file comes first. Nothing lent is touched.
fn read_verdict(bytes: &[u8], words: usize, room: usize, numbers: usize) -> Result<(), Refusal>
    ensures { result ≡ read_verdict bytes.now words room numbers }
{
    if !is_stl(bytes) {
        return Err(Refusal::Stl);
    }
    let faces = faces_in(bytes) as usize;
    if MOST_FACES < faces {
        return Err(Refusal::Count);
    }
    if !corners_good(bytes, 3 * faces) {
        return Err(Refusal::Number);
    }
    lent_verdict(faces, words, room, numbers)
}

// Reads a binary STL file into a welded mesh. Normals, the header and the two bytes after each face are not looked at.
pub fn read_stl(
    bytes: &[u8],
    scratch: &mut [u32],
    vertices: &mut [f64],
    indices: &mut [u32],
) -> Result<Welded, Refusal>
    ensures { left (said result) scratch.new vertices.new indices.new
        ≡ read_left bytes.now scratch.old vertices.old indices.old }
{
    read_verdict(bytes, scratch.len(), vertices.len(), indices.len())?;
    clear(scratch);
    let n = 3 * (faces_in(bytes) as usize);
    let k = weld_all(bytes, n, scratch, vertices, indices);
    clear(scratch);
    Ok(Welded {
        vertices: k,
        indices: n,
    })
}
