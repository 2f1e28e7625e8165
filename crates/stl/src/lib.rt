// Binary STL files as bytes: a header, the count of faces, then for each face its normal, three corners and two bytes more.
// Only the count and the corners are read; all else is written as 0.
#![tactic(auto)]

ghost use Rattle.std.specs.Prelude.{◌≡◌, [], ◌∷◌, map, ◌^◌, ◌<◌};
ghost use Rattle.std.proofs.lemmas.List.Edits.{sets};
ghost use Rattle.byte_words.specs.Bytes.{bytes_all};
ghost use Rattle.single.specs.Singles.{pattern_of, value_of};
ghost use Rattle.path.specs.Laid.{flat};
ghost use Rattle.path.specs.Tests.{coordinate_good};
ghost use Rattle.stl.specs.Files.{header_bytes, size_of, faces_in, is_stl, corner_in, corner_good, zeros, face_of, head_of};

use byte_words::{put_byte, put_word_from, word_from};
use single::{pattern, value};
use vector::Vector;

// How many bytes the header has; the count of faces follows.
pub const HEADER_BYTES: usize = 80;

// Where the faces begin: after the header and the count.
pub const FACES_FROM: usize = 84;

// How many bytes a face has.
pub const FACE_BYTES: usize = 50;

// How many bytes a normal or a corner has; the normal stands first.
pub const POINT_BYTES: usize = 12;

// The pattern of 1048576.0, the greatest magnitude of a coordinate, as an f32. Larger numbers, infinity and NaN have greater ones.
const MOST_PATTERN: u32 = 0x4980_0000;

// How many faces a file says that it has.
pub fn faces_in(bytes: &[u8]) -> u32
    ensures { result ≡ faces_in bytes.now }
{
    word_from(bytes, HEADER_BYTES)
}

// Whether bytes are a binary STL file: they are as many as its count of faces asks, so that nothing is missing or follows.
pub fn is_stl(bytes: &[u8]) -> bool
    ensures { result ≡ is_stl bytes.now }
{
    bytes.len() == FACES_FROM + FACE_BYTES * (faces_in(bytes) as usize)
}

// Corner i of a file, three a face; 0 past the end. The first test keeps the place from wrapping.
pub fn corner_in(bytes: &[u8], i: usize) -> Vector
    ensures { result ≡ corner_in bytes.now i }
{
    let f = i / 3;
    if bytes.len() / FACE_BYTES < f {
        return Vector::new(0.0, 0.0, 0.0);
    }
    let from = FACES_FROM + FACE_BYTES * f + POINT_BYTES + POINT_BYTES * (i % 3);
    Vector {
        x: value(word_from(bytes, from)),
        y: value(word_from(bytes, from + 4)),
        z: value(word_from(bytes, from + 8)),
    }
}

// Whether the number of a pattern is within the bound of coordinates: one comparison, of the pattern without the sign's bit.
fn pattern_good(pattern: u32) -> bool
    ensures { result ≡ coordinate_good (value_of pattern) }
{
    pattern % 0x8000_0000 <= MOST_PATTERN
}

// Whether the coordinates of corner i are within their bound; past the end they are. (Not by `corner_in`: it compares patterns, and makes
// no f64 of what a refused file holds.)
pub fn corner_good(bytes: &[u8], i: usize) -> bool
    ensures { result ≡ corner_good bytes.now i }
{
    let f = i / 3;
    if bytes.len() / FACE_BYTES < f {
        return true;
    }
    let at = FACES_FROM + FACE_BYTES * f + POINT_BYTES + POINT_BYTES * (i % 3);
    if !pattern_good(word_from(bytes, at)) {
        return false;
    }
    if !pattern_good(word_from(bytes, at + 4)) {
        return false;
    }
    pattern_good(word_from(bytes, at + 8))
}

// Stores zeros in place of the header.
fn clear_header(out: &mut [u8])
    ensures { out.new ≡ sets out.old 0 (zeros header_bytes) }
{
    for i in 0..HEADER_BYTES {
        put_byte(out, i, 0);
    }
}

// Stores what stands before the faces: an empty header, and how many faces there are. Past the end nothing.
pub fn put_head(out: &mut [u8], faces: u32)
    ensures { out.new ≡ sets out.old 0 (head_of faces) }
{
    clear_header(out);
    put_word_from(out, HEADER_BYTES, faces);
}

// Stores three words from place i on, which is far from the greatest; past the end nothing.
fn put_three(out: &mut [u8], i: usize, x: u32, y: u32, z: u32)
    requires { i < 2 ^ 40 }
    ensures { out.new ≡ sets out.old i (bytes_all (x ∷ y ∷ z ∷ [])) }
{
    put_word_from(out, i, x);
    put_word_from(out, i + 4, y);
    put_word_from(out, i + 8, z);
}

// Stores the patterns of a corner's coordinates from place i on.
fn put_corner(out: &mut [u8], i: usize, v: Vector)
    requires { i < 2 ^ 40 }
    ensures { out.new ≡ sets out.old i (bytes_all (map pattern_of (flat (v ∷ [])))) }
{
    put_three(out, i, pattern(v.x), pattern(v.y), pattern(v.z));
}

// Stores face f of a file: no normal, three corners, and two bytes that say nothing. Past the end nothing.
pub fn put_face(out: &mut [u8], f: u32, a: Vector, b: Vector, c: Vector)
    ensures { out.new ≡ sets out.old (size_of f) (face_of (flat (a ∷ b ∷ c ∷ []))) }
{
    let i = FACES_FROM + FACE_BYTES * (f as usize);
    put_three(out, i, 0, 0, 0);
    put_corner(out, i + POINT_BYTES, a);
    put_corner(out, i + 2 * POINT_BYTES, b);
    put_corner(out, i + 3 * POINT_BYTES, c);
    put_byte(out, i + 4 * POINT_BYTES, 0);
    put_byte(out, i + 4 * POINT_BYTES + 1, 0);
}
