// Works the stored rows of read_stl and write_stl out by the proved crates, and counts those whose answer is another.
//
// A row is words of hexadecimal digits with a space between: the call's number, the status, how many numbers each list has, how much
// is lent, the lists and, where the call is accepted, its counts and what it wrote; a byte is a word. What is lent holds a pattern, so
// that what must stay is seen. A row that is no row of a call counts as one that differs.
#![tactic(auto)]

use mesh_weld::Welded;
use mesh_weld::read::read_stl;
use replay_rows::{DIRT, DUST, GRIT, Page, Rows, elements, past, replay_program, status};
use std::io;
use stl_write::write_stl;

// The calls by their numbers; 0 is that of no row.
const NAMES: [&str; 3] = ["no function", "read_stl", "write_stl"];

// ---- reading: how many words of scratch, coordinates and indices are lent, how many bytes there are, the bytes

fn welded(w: Welded) -> [u64; 2] {
    [w.vertices as u64, w.indices as u64]
}

// Whether read_stl leaves what the row says from place `at` on.
fn read_leaves(
    page: &Page,
    at: usize,
    file: &[u8],
    scratch: &mut [u32],
    vertices: &mut [f64],
    indices: &mut [u32],
) -> bool {
    let answer = read_stl(file, scratch, vertices, indices).map(welded);
    page.scratch_left(status(&answer), scratch, DIRT as u64)
        && page.points_left(at, &answer, vertices, indices)
}

// The same, with as much lent as the row says.
fn read_lent(page: &Page, at: usize, file: &[u8]) -> bool {
    let mut scratch = [DIRT; 96];
    let mut vertices = [GRIT; 96];
    let mut indices = [DIRT; 96];
    let ns = page.size(2);
    let nv = page.size(3);
    let ni = page.size(4);
    read_leaves(
        page,
        at,
        file,
        &mut scratch[..ns],
        &mut vertices[..nv],
        &mut indices[..ni],
    )
}

fn read_agrees(page: &Page) -> bool {
    let mut file = [0u8; 249];
    let nb = elements(page.word(5));
    page.fill(6, &mut file[..nb]);
    read_lent(page, past(6, nb), &file[..nb])
}

// ---- writing: how many coordinates and indices there are, how many bytes are lent, the lists

// Whether write_stl leaves what the row says from place `at` on: all as it was where the call was refused.
fn write_leaves(page: &Page, at: usize, vertices: &[f64], indices: &[u32], out: &mut [u8]) -> bool {
    let answer = write_stl(vertices, indices, out);
    page.bytes_left(at, &answer.map(|bytes| [bytes as u64]), out)
}

// The same, with as much lent as the row says.
fn write_lent(page: &Page, at: usize, vertices: &[f64], indices: &[u32]) -> bool {
    let mut out = [DUST; 249];
    let n = elements(page.word(4));
    write_leaves(page, at, vertices, indices, &mut out[..n])
}

fn write_agrees(page: &Page) -> bool {
    let mut vertices = [0.0; 96];
    let mut indices = [0; 96];
    let nv = page.size(2);
    let ni = page.size(3);
    let at = past(5, nv);
    page.fill(5, &mut vertices[..nv]);
    page.fill(at, &mut indices[..ni]);
    write_lent(page, past(at, ni), &vertices[..nv], &indices[..ni])
}

// The rows of this program. One of no call does not agree.
struct Replayed;

impl Rows for Replayed {
    fn agrees(&self, page: &Page) -> bool {
        match page.words[0] {
            1 => read_agrees(page),
            2 => write_agrees(page),
            _ => false,
        }
    }
}

fn main(rt: HostRuntime) -> io::Result<()> {
    replay_program(&rt, &mut rt.stdin(), &NAMES, &Replayed)?;
    Ok(())
}
