// The cases of binary STL files: a line each, the case, what the call answers, and all that was lent to it. What is lent holds 7 in
// every place before the call, so that what was written, what was cleared and what was left alone are seen. Numbers are told by their
// patterns, in hexadecimal digits.
#![tactic(auto)]

ghost use Rattle.std.specs.Prelude.{◌≤◌};

use byte_words::{put_word_from, word_from};
use mesh_weld::Welded;
use mesh_weld::read::read_stl;
use refusal::{MOST_FACES, Refusal};
use std::io;
use stl_write::write_stl;

// The number of pattern 7.
const SEVEN: f64 = 3.5e-323;

// Patterns of f32.
const NAN: u32 = 0x7fc0_0000;

const INFINITY: u32 = 0x7f80_0000;

const MINUS_ZERO: u32 = 0x8000_0000;

const ONE: u32 = 0x3f80_0000;

const TWO: u32 = 0x4000_0000;

const MOST: u32 = 0x4980_0000;

const MINUS_MOST: u32 = 0xc980_0000;

fn digits(rt: &impl Print, pattern: u64) -> io::Result<()> {
    print!(rt; " {pattern:x}")
}

fn real(rt: &impl Print, x: f64) -> io::Result<()> {
    if x == x {
        return digits(rt, f64::to_bits(x));
    }
    print!(rt; " NaN")
}

fn numbers(rt: &impl Print, list: &[u32]) -> io::Result<()> {
    for x in list {
        print!(rt; " {x:x}")?;
    }
    Ok(())
}

fn reals(rt: &impl Print, list: &[f64]) -> io::Result<()> {
    for x in list {
        real(rt, *x)?;
    }
    Ok(())
}

// The word of a place, where it is another than the word before it.
fn word(rt: &impl Print, at: usize, w: u32, before: u32) -> io::Result<()> {
    if w != before {
        print!(rt; ", from {at} {w:x}")?;
    }
    Ok(())
}

// The words of 136 bytes; those past the end are 0.
fn words(rt: &impl Print, bytes: &[u8]) -> io::Result<()> {
    let mut last = 1;
    for i in 0..34 {
        let w = word_from(bytes, 4 * i);
        word(rt, 4 * i, w, last)?;
        last = w;
    }
    Ok(())
}

fn refused(rt: &impl Print, why: Refusal) -> io::Result<()> {
    print!(rt; " refused {}", refusal::number(why))
}

// ---- reading

fn welded(rt: &impl Print, r: Result<Welded, Refusal>) -> io::Result<()> {
    match r {
        Ok(w) => print!(rt; " wrote {} and {}", w.vertices, w.indices),
        Err(why) => refused(rt, why),
    }
}

// All that reading was lent.
fn lists(rt: &impl Print, scratch: &[u32], vertices: &[f64], indices: &[u32]) -> io::Result<()> {
    print!(rt; ", vertices")?;
    reals(rt, vertices)?;
    print!(rt; ", indices")?;
    numbers(rt, indices)?;
    print!(rt; ", scratch")?;
    numbers(rt, scratch)?;
    println!(rt;)
}

fn read(
    rt: &impl Print,
    what: &str,
    file: &[u8],
    scratch: &mut [u32],
    vertices: &mut [f64],
    indices: &mut [u32],
) -> io::Result<()> {
    print!(rt; "{what}")?;
    welded(rt, read_stl(file, scratch, vertices, indices))?;
    lists(rt, scratch, vertices, indices)
}

// Reads with ns words of scratch, and room for nv coordinates and ni indices.
fn read_with(
    rt: &impl Print,
    what: &str,
    file: &[u8],
    ns: usize,
    nv: usize,
    ni: usize,
) -> io::Result<()>
    requires { (ns ≤ 13) × (nv ≤ 10) × (ni ≤ 4) }
{
    let mut scratch = [7u32; 13];
    let mut vertices = [SEVEN; 10];
    let mut indices = [7u32; 4];
    read(
        rt,
        what,
        file,
        &mut scratch[..ns],
        &mut vertices[..nv],
        &mut indices[..ni],
    )
}

// Stores words from the count of faces on.
fn put_words(file: &mut [u8], words: &[u32; 14]) {
    for i in 0..14 {
        put_word_from(file, 80 + 4 * i, words[i]);
    }
}

// Stores a file whose face has its corners along x, the second at 1: the header "solid ..", the count, a normal that is NaN, the
// corners, 0xBEEF.
fn put_file(file: &mut [u8], count: u32, a: u32, c: u32) {
    let words = [count, NAN, NAN, NAN, a, 0, 0, ONE, 0, 0, c, 0, 0, 0xbeef];
    put_words(file, &words);
    put_word_from(file, 0, 0x696c_6f73);
    put_word_from(file, 4, 0x2e2e_2064);
}

// Reads such a face, with so much lent.
fn read_face(
    rt: &impl Print,
    what: &str,
    a: u32,
    c: u32,
    ns: usize,
    nv: usize,
    ni: usize,
) -> io::Result<()>
    requires { (ns ≤ 13) × (nv ≤ 10) × (ni ≤ 4) }
{
    let mut file = [0u8; 134];
    put_file(&mut file, 1, a, c);
    read_with(rt, what, &file, ns, nv, ni)
}

// Reads the first n bytes of a file of one face that says it has so many.
fn read_cut(rt: &impl Print, what: &str, count: u32, n: usize) -> io::Result<()>
    requires { n ≤ 135 }
{
    let mut file = [0u8; 135];
    put_file(&mut file, count, 0, TWO);
    read_with(rt, what, &file[..n], 13, 10, 4)
}

// Reads a file of one face too many, where every number is NaN.
fn read_one_face_more(rt: &impl Print) -> io::Result<()> {
    let mut file = [255u8; 50 * MOST_FACES + 134];
    put_word_from(&mut file, 80, 65537);
    read_with(
        rt,
        "65,537 faces in full, all NaN, room for one:",
        &file,
        13,
        10,
        4,
    )
}

fn read_faces(rt: &impl Print) -> io::Result<()> {
    read_face(
        rt,
        "\"solid ..\", normal NaN, 0xBEEF, x = 0, 1, -0:",
        0,
        MINUS_ZERO,
        13,
        10,
        4,
    )?;
    read_face(rt, "x = -0, 1, 0:", MINUS_ZERO, 0, 13, 10, 4)?;
    read_face(rt, "x = 2^-149, 1, 2:", 1, TWO, 13, 10, 4)?;
    read_face(rt, "x = 1048576, 1, -1048576:", MOST, MINUS_MOST, 13, 10, 4)?;
    read_face(rt, "1048576.125, 11 words:", MOST + 1, TWO, 11, 10, 4)?;
    read_face(rt, "NaN, 11 words:", NAN, TWO, 11, 10, 4)?;
    read_face(rt, "infinity, 11 words:", INFINITY, TWO, 11, 10, 4)?;
    read_face(rt, "11 words:", 0, TWO, 11, 10, 4)?;
    read_face(rt, "room for 8 coordinates:", 0, TWO, 12, 8, 4)?;
    read_face(rt, "room for 2 indices:", 0, TWO, 12, 9, 2)
}

fn read_cuts(rt: &impl Print) -> io::Result<()> {
    read_cut(rt, "83 bytes:", 1, 83)?;
    read_cut(rt, "one face, a byte more:", 1, 135)?;
    read_cut(rt, "one face, a byte less:", 1, 133)?;
    read_cut(rt, "no bytes:", 1, 0)?;
    read_cut(rt, "count 65,537 in 134 bytes:", 65537, 134)?;
    read_cut(rt, "count 85,899,346 in 88 bytes:", 85899346, 88)
}

// ---- writing

fn written(rt: &impl Print, r: Result<usize, Refusal>) -> io::Result<()> {
    match r {
        Ok(bytes) => print!(rt; " wrote {bytes}"),
        Err(why) => refused(rt, why),
    }
}

fn write(
    rt: &impl Print,
    what: &str,
    vertices: &[f64],
    indices: &[u32],
    out: &mut [u8],
) -> io::Result<()> {
    print!(rt; "{what}")?;
    written(rt, write_stl(vertices, indices, out))?;
    words(rt, out)?;
    println!(rt;)
}

// Writes three vertices that are one face, and reads that again.
fn write_and_read(rt: &impl Print) -> io::Result<()> {
    let vertices = [
        -0.0,
        0.5,
        1.401298464324817e-45,
        1048576.0,
        0.0,
        0.0,
        0.0,
        1.0,
        0.0,
    ];
    let indices = [0u32, 1, 2];
    let mut out = [7u8; 136];
    write(
        rt,
        "writing (-0,0.5,2^-149) (1048576,0,0) (0,1,0):",
        &vertices,
        &indices,
        &mut out,
    )?;
    read_with(rt, "read again:", &out[..134], 13, 10, 4)
}

// Writes no faces, and reads that again with nothing lent.
fn write_none(rt: &impl Print) -> io::Result<()> {
    let vertices = [0.0; 3];
    let indices = [0u32; 3];
    let mut out = [7u8; 136];
    write(rt, "no faces:", &vertices[..0], &indices[..0], &mut out)?;
    read_with(rt, "read again, nothing lent:", &out[..84], 0, 0, 0)
}

// Writes the face of the vertices 0, 1 and `last` of four, where the fourth is (x,0,0), into so many bytes.
fn write_with(rt: &impl Print, what: &str, x: f64, last: u32, room: usize) -> io::Result<()>
    requires { room ≤ 136 }
{
    let vertices = [0.0, 0.0, 0.0, 1.0, 0.0, 0.0, 0.0, 1.0, 0.0, x, 0.0, 0.0];
    let indices = [0u32, 1, last];
    let mut out = [7u8; 136];
    write(rt, what, &vertices, &indices, &mut out[..room])
}

fn write_cases(rt: &impl Print) -> io::Result<()> {
    write_with(rt, "0.1 in a vertex that no face names:", 0.1, 2, 136)?;
    write_with(rt, "NaN in one that no face names:", 0.0 / 0.0, 2, 136)?;
    write_with(rt, "0.1 in one that a face names:", 0.1, 3, 136)?;
    write_with(rt, "2^-150:", 7.006492321624085e-46, 3, 136)?;
    write_with(rt, "1 + 2^-24:", 1.0000000596046448, 3, 136)?;
    write_with(rt, "room for 133 bytes:", 1.0, 3, 133)?;
    write_with(
        rt,
        "vertex 4 of four, one of which is NaN:",
        0.0 / 0.0,
        4,
        136,
    )
}

fn main(rt: HostRuntime) -> io::Result<()> {
    read_faces(&rt)?;
    read_cuts(&rt)?;
    read_one_face_more(&rt)?;
    write_and_read(&rt)?;
    write_none(&rt)?;
    write_cases(&rt)
}
