// Works the stored rows of simplify and chop_adaptive out by the proved crates, and counts those whose answer is another.
//
// A row is words of hexadecimal digits with a space between: the call's number, the status, how many numbers the points and the
// starts have, the other numbers, the two lists and, where the call is accepted, its counts and what it wrote. What is lent has 96
// elements and holds a pattern, so that what must stay is seen. A row that is no row of a call counts as one that differs.
#![tactic(auto)]

use path_adaptive::Adapted;
use path_simplify::Simplified;
use replay_rows::{DIRT, GRIT, Page, Rows, past, replay_program};
use std::io;

// The calls by their numbers; 0 is that of no row.
const NAMES: [&str; 3] = ["no function", "simplify", "chop_adaptive"];

// ---- simplify: how many numbers the lists have, the threshold, the lists

fn simplified(s: Simplified) -> [u64; 3] {
    [s.points as u64, s.starts as u64, s.distances as u64]
}

// Whether simplify leaves what the row says from place `at` on.
fn simplify_leaves(page: &Page, at: usize, points: &[f64], starts: &[u32]) -> bool {
    let mut out = [GRIT; 96];
    let mut marks = [DIRT; 96];
    let x = page.element(4);
    let answer = path_simplify::simplify(points, starts, x, &mut out, &mut marks).map(simplified);
    page.points_left(at, &answer, &out, &marks)
}

fn simplify_agrees(page: &Page) -> bool {
    let mut points = [0.0; 96];
    let mut starts = [0; 96];
    let np = page.size(2);
    let ns = page.size(3);
    let at = past(5, np);
    page.fill(5, &mut points[..np]);
    page.fill(at, &mut starts[..ns]);
    simplify_leaves(page, past(at, ns), &points[..np], &starts[..ns])
}

// ---- chop_adaptive: how many numbers the lists have, a matrix, width, height, step and tolerance, the lists

fn adapted(a: Adapted) -> [u64; 3] {
    [a.points as u64, a.starts as u64, a.halvings as u64]
}

// Whether chop_adaptive leaves what the row says from place `at` on.
fn adaptive_leaves(page: &Page, at: usize, points: &[f64], starts: &[u32]) -> bool {
    let mut out = [GRIT; 96];
    let mut marks = [DIRT; 96];
    let answer = path_adaptive::chop_adaptive(
        points,
        starts,
        page.matrix(4),
        page.element(20),
        page.element(21),
        page.element(22),
        page.element(23),
        &mut out,
        &mut marks,
    )
    .map(adapted);
    page.points_left(at, &answer, &out, &marks)
}

fn adaptive_agrees(page: &Page) -> bool {
    let mut points = [0.0; 96];
    let mut starts = [0; 96];
    let np = page.size(2);
    let ns = page.size(3);
    let at = past(24, np);
    page.fill(24, &mut points[..np]);
    page.fill(at, &mut starts[..ns]);
    adaptive_leaves(page, past(at, ns), &points[..np], &starts[..ns])
}

// The rows of this program. One of no call does not agree.
struct Replayed;

impl Rows for Replayed {
    fn agrees(&self, page: &Page) -> bool {
        match page.words[0] {
            1 => simplify_agrees(page),
            2 => adaptive_agrees(page),
            _ => false,
        }
    }
}

fn main(rt: HostRuntime) -> io::Result<()> {
    replay_program(&rt, &mut rt.stdin(), &NAMES, &Replayed)?;
    Ok(())
}
