// Works the stored rows of write_sheet and read_sheet out by the proved crates, and counts those whose answer is another.
//
// A row is words of hexadecimal digits with a space between: the call's number, the status, how many numbers each list has, the
// other numbers, the lists and, where the call is accepted, its counts and what it wrote; a byte is a word. What is lent holds a
// pattern, so that what must stay is seen. A row that is no row of a call counts as one that differs.
#![tactic(auto)]

use replay_rows::{DIRT, DUST, Page, Rows, past, replay_program};
use sheet_read::SheetRead;
use std::io;

// The calls by their numbers; 0 is that of no row.
const NAMES: [&str; 3] = ["no function", "write_sheet", "read_sheet"];

// ---- writing: how many numbers the lists have, the mode, the vertices, the lists

// Whether write_sheet leaves what the row says from place `at` on.
fn write_leaves(page: &Page, at: usize, points: &[u32], starts: &[u32]) -> bool {
    let mut out = [DUST; 96];
    let mode = page.element(4);
    let vertices = page.element(5);
    let answer = sheet_write::write_sheet(mode, vertices, points, starts, &mut out);
    page.bytes_left(at, &answer.map(|bytes| [bytes as u64]), &out)
}

fn write_agrees(page: &Page) -> bool {
    let mut points = [0; 96];
    let mut starts = [0; 96];
    let nn = page.size(2);
    let ns = page.size(3);
    let at = past(6, nn);
    page.fill(6, &mut points[..nn]);
    page.fill(at, &mut starts[..ns]);
    write_leaves(page, past(at, ns), &points[..nn], &starts[..ns])
}

// ---- reading: how many bytes there are, the bytes

fn counts(s: SheetRead) -> [u64; 4] {
    [
        s.points as u64,
        s.starts as u64,
        s.mode as u64,
        s.vertices as u64,
    ]
}

// Whether read_sheet leaves what the row says from place `at` on. There is room for ten points and three strokes.
fn read_leaves(page: &Page, at: usize, sheet: &[u8]) -> bool {
    let mut points = [DIRT; 10];
    let mut starts = [DIRT; 3];
    let answer = sheet_read::read_sheet(sheet, &mut points, &mut starts).map(counts);
    page.numbers_left(at, &answer, &points, &starts)
}

fn read_agrees(page: &Page) -> bool {
    let mut sheet = [0u8; 96];
    let nb = page.size(2);
    page.fill(3, &mut sheet[..nb]);
    read_leaves(page, past(3, nb), &sheet[..nb])
}

// The rows of this program. One of no call does not agree.
struct Replayed;

impl Rows for Replayed {
    fn agrees(&self, page: &Page) -> bool {
        match page.words[0] {
            1 => write_agrees(page),
            2 => read_agrees(page),
            _ => false,
        }
    }
}

fn main(rt: HostRuntime) -> io::Result<()> {
    replay_program(&rt, &mut rt.stdin(), &NAMES, &Replayed)?;
    Ok(())
}
