// Works the stored rows out by the proved crates, and counts those whose answer is another.
//
// A row is words of hexadecimal digits with a space between: the function's number, the status, the operands' bits and, where the
// status is 0, the values' bits. Two NaN count as equal. A row that is no row of a function counts as one that differs.
#![tactic(auto)]

use refusal::{Refusal, number};
use replay_rows::{DIRT, GRIT, Page, Rows, past, placed, replay_program, same, status};
use std::io;
use vector::Vector;

// The functions by their numbers; 0 is that of no row.
const NAMES: [&str; 23] = [
    "no function",
    "sqrt",
    "floor",
    "abs",
    "length",
    "distance",
    "length_squared",
    "distance_squared",
    "dot",
    "cross",
    "normalize",
    "add",
    "sub",
    "mul",
    "div",
    "add_scalar",
    "sub_scalar",
    "mul_scalar",
    "div_scalar",
    "segment_distance",
    "mul_position_w",
    "chop",
    "splice",
];

// The status of a vector that has no direction.
const NONE: u64 = 255;

// ---- the answers

// The whole number that a pattern is.
fn signed(bits: u64) -> i64 {
    if bits < 0x8000_0000_0000_0000 {
        return bits as i64;
    }
    !((0xffff_ffff_ffff_ffff - bits) as i64)
}

fn number_is(page: &Page, at: usize, x: f64) -> bool {
    page.ends(past(at, 1), 0) && same(x, page.word(at))
}

fn point_is(page: &Page, at: usize, v: Vector) -> bool {
    page.ends(past(at, 3), 0)
        && same(v.x, page.word(at))
        && same(v.y, page.word(past(at, 1)))
        && same(v.z, page.word(past(at, 2)))
}

fn root_is(page: &Page, root: Result<f64, Refusal>) -> bool {
    match root {
        Ok(y) => number_is(page, 3, y),
        Err(why) => page.ends(3, number(why) as u64),
    }
}

fn whole_is(page: &Page, whole: Result<i64, Refusal>) -> bool {
    match whole {
        Ok(z) => page.ends(4, 0) && z == signed(page.words[3]),
        Err(why) => page.ends(3, number(why) as u64),
    }
}

fn unit_is(page: &Page, unit: Option<Vector>) -> bool {
    match unit {
        Some(v) => point_is(page, 5, v),
        None => page.ends(5, NONE),
    }
}

// The rows of numbers, by the function's number: x is the first operand, a and b are the first two points.
fn numbers_agree(page: &Page, x: f64, a: Vector, b: Vector) -> bool {
    match page.words[0] {
        1 => root_is(page, vector::number::sqrt(x)),
        2 => whole_is(page, vector::number::floor(x)),
        3 => number_is(page, 3, vector::number::abs(x)),
        4 => number_is(page, 5, a.length()),
        5 => number_is(page, 8, a.distance(b)),
        6 => number_is(page, 5, a.length_squared()),
        7 => number_is(page, 8, a.distance_squared(b)),
        8 => number_is(page, 8, a.dot(b)),
        19 => number_is(page, 11, a.segment_distance(b, page.point(8))),
        _ => false,
    }
}

// The rows of points; s is the operand behind the first point.
fn points_agree(page: &Page, s: f64, a: Vector, b: Vector) -> bool {
    match page.words[0] {
        9 => point_is(page, 8, a.cross(b)),
        10 => unit_is(page, a.normalize()),
        11 => point_is(page, 8, a.add(b)),
        12 => point_is(page, 8, a.sub(b)),
        13 => point_is(page, 8, a.mul(b)),
        14 => point_is(page, 8, a.div(b)),
        15 => point_is(page, 6, a.add_scalar(s)),
        16 => point_is(page, 6, a.sub_scalar(s)),
        17 => point_is(page, 6, a.mul_scalar(s)),
        18 => point_is(page, 6, a.div_scalar(s)),
        20 => point_is(page, 21, page.matrix(2).mul_position_w(page.point(18))),
        _ => false,
    }
}

// The rows of a function of the arithmetic: after the status its operands.
fn values_agree(page: &Page) -> bool {
    let a = page.point(2);
    let b = page.point(5);
    match page.words[0] {
        1..=8 | 19 => numbers_agree(page, a.x, a, b),
        _ => points_agree(page, b.x, a, b),
    }
}

// ---- the rows of calls on lent lists

// After the status how many numbers each list has, the other numbers, the lists, and where the call is accepted its counts and
// what it wrote. What is lent has 96 elements and holds a pattern, so that what must stay is seen.

// Whether chop leaves what the row says from place `at` on.
fn chop_leaves(page: &Page, at: usize, points: &[f64], starts: &[u32]) -> bool {
    let mut out = [GRIT; 96];
    let mut marks = [DIRT; 96];
    let step = page.element(4);
    let answer = path_chop::chop(points, starts, step, &mut out, &mut marks).map(placed);
    page.points_left(at, &answer, &out, &marks)
}

fn chop_agrees(page: &Page) -> bool {
    let mut points = [0.0; 96];
    let mut starts = [0; 96];
    let np = page.size(2);
    let ns = page.size(3);
    let at = past(5, np);
    page.fill(5, &mut points[..np]);
    page.fill(at, &mut starts[..ns]);
    chop_leaves(page, past(at, ns), &points[..np], &starts[..ns])
}

// Whether splice leaves what the row says from place `at` on.
fn splice_leaves(page: &Page, at: usize, points: &[u32], starts: &[u32]) -> bool {
    let mut scratch = [DIRT; 96];
    let mut out = [DIRT; 96];
    let mut marks = [DIRT; 96];
    let answer = path_splice::splice(points, starts, &mut scratch, &mut out, &mut marks).map(
        placed,
    );
    page.scratch_left(status(&answer), &scratch, DIRT as u64)
        && page.numbers_left(at, &answer, &out, &marks)
}

fn splice_agrees(page: &Page) -> bool {
    let mut points = [0u32; 96];
    let mut starts = [0; 96];
    let np = page.size(2);
    let ns = page.size(3);
    let at = past(4, np);
    page.fill(4, &mut points[..np]);
    page.fill(at, &mut starts[..ns]);
    splice_leaves(page, past(at, ns), &points[..np], &starts[..ns])
}

// The rows of this program. One of no function does not agree.
struct Replayed;

impl Rows for Replayed {
    fn agrees(&self, page: &Page) -> bool {
        match page.words[0] {
            1..=20 => values_agree(page),
            21 => chop_agrees(page),
            22 => splice_agrees(page),
            _ => false,
        }
    }
}

fn main(rt: HostRuntime) -> io::Result<()> {
    replay_program(&rt, &mut rt.stdin(), &NAMES, &Replayed)?;
    Ok(())
}
