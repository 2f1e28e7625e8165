// Works the stored rows of draw, weld, section and contour out by the proved crates, and counts those whose answer is
// another.
//
// A row is words of hexadecimal digits with a space between: the call's number, the status, how many numbers each list has, the
// other numbers, the lists and, where the call is accepted, its counts and what it wrote, or else the face that the refusal carries, if
// it carries one. What is lent holds a pattern, so that what must stay is seen. A row that is no row of a call counts as one that differs.
#![tactic(auto)]

use mesh_section::Plane;
use mesh_weld::Welded;
use refusal::{Refusal, carried_by};
use replay_rows::{DIRT, GRIT, GRIT_BITS, Page, Rows, past, placed, replay_program, status};
use std::io;

// The calls by their numbers; 0 is that of no row.
const NAMES: [&str; 5] = ["no function", "draw", "weld", "section", "contour"];

// ---- drawing: how many numbers the lists have, mode, cosine, eye and tolerance, the lists

// How many words of a row are what a refusal carries; none where the row has another word there.
fn carried_words<T>(page: &Page, at: usize, answer: &Result<T, Refusal>) -> usize {
    match answer {
        Err(why) if carried_by(*why).is_some_and(|face| page.word(at) == face as u64) => 1,
        _ => 0,
    }
}

// Whether draw leaves what the row says from place `at` on. There is scratch for five faces and room for four.
fn draw_leaves(page: &Page, at: usize, vertices: &[f64], indices: &[u32], flips: &[u32]) -> bool {
    let mut scratch = [DIRT; 330];
    let mut seen = [GRIT; 22];
    let mut out = [DIRT; 27];
    let mut marks = [DIRT; 13];
    let answer = mesh_draw::draw(
        vertices,
        indices,
        flips,
        page.element(5),
        page.element(6),
        page.point(7),
        page.element(10),
        &mut scratch,
        &mut seen,
        &mut out,
        &mut marks,
    )
    .map(placed);
    let next = past(at, carried_words(page, at, &answer));
    page.scratch_left(status(&answer), &scratch, DIRT as u64)
        && page.scratch_left(status(&answer), &seen, GRIT_BITS)
        && page.numbers_left(next, &answer, &out, &marks)
}

fn draw_agrees(page: &Page) -> bool {
    let mut vertices = [0.0; 96];
    let mut indices = [0; 96];
    let mut flips = [0; 96];
    let nv = page.size(2);
    let ni = page.size(3);
    let nf = page.size(4);
    let i = past(11, nv);
    let f = past(i, ni);
    page.fill(11, &mut vertices[..nv]);
    page.fill(i, &mut indices[..ni]);
    page.fill(f, &mut flips[..nf]);
    draw_leaves(
        page,
        past(f, nf),
        &vertices[..nv],
        &indices[..ni],
        &flips[..nf],
    )
}

// ---- weld: how many numbers the corners have, the corners

fn welded(w: Welded) -> [u64; 2] {
    [w.vertices as u64, w.indices as u64]
}

// Whether weld leaves what the row says from place `at` on.
fn weld_leaves(page: &Page, at: usize, corners: &[f64]) -> bool {
    let mut scratch = [DIRT; 96];
    let mut out = [GRIT; 96];
    let mut marks = [DIRT; 96];
    let answer = mesh_weld::weld(corners, &mut scratch, &mut out, &mut marks).map(welded);
    page.scratch_left(status(&answer), &scratch, DIRT as u64)
        && page.points_left(at, &answer, &out, &marks)
}

fn weld_agrees(page: &Page) -> bool {
    let mut corners = [0.0; 96];
    let nc = page.size(2);
    page.fill(3, &mut corners[..nc]);
    weld_leaves(page, past(3, nc), &corners[..nc])
}

// ---- section and contour: how many numbers the lists have, tolerance, the plane's point and normal, the lists

fn plane(page: &Page) -> Plane {
    Plane {
        point: page.point(5),
        normal: page.point(8),
    }
}

// Whether section leaves what the row says from place `at` on.
fn section_leaves(page: &Page, at: usize, vertices: &[f64], indices: &[u32]) -> bool {
    let mut out = [GRIT; 96];
    let mut marks = [DIRT; 96];
    let answer = mesh_section::section(
        vertices,
        indices,
        plane(page),
        page.element(4),
        &mut out,
        &mut marks,
    )
    .map(placed);
    page.points_left(at, &answer, &out, &marks)
}

// Whether contour leaves what the row says from place `at` on. There is scratch for sixteen faces and room for
// thirteen.
fn contour_leaves(page: &Page, at: usize, vertices: &[f64], indices: &[u32]) -> bool {
    let mut scratch = [DIRT; 260];
    let mut store = [GRIT; 130];
    let mut out = [GRIT; 80];
    let mut marks = [DIRT; 13];
    let answer = mesh_contour::contour(
        vertices,
        indices,
        plane(page),
        page.element(4),
        &mut scratch,
        &mut store,
        &mut out,
        &mut marks,
    )
    .map(placed);
    page.scratch_left(status(&answer), &scratch, DIRT as u64)
        && page.scratch_left(status(&answer), &store, GRIT_BITS)
        && page.points_left(at, &answer, &out, &marks)
}

// Whether one of the two, which take the same, does.
fn plane_agrees<F: Fn(&Page, usize, &[f64], &[u32]) -> bool>(page: &Page, leaves: F) -> bool
    requires { F.IsAlwaysCallable leaves }
{
    let mut vertices = [0.0; 96];
    let mut indices = [0; 96];
    let nv = page.size(2);
    let ni = page.size(3);
    let at = past(11, nv);
    page.fill(11, &mut vertices[..nv]);
    page.fill(at, &mut indices[..ni]);
    leaves(page, past(at, ni), &vertices[..nv], &indices[..ni])
}

// The rows of this program. One of no call does not agree.
struct Replayed;

impl Rows for Replayed {
    fn agrees(&self, page: &Page) -> bool {
        match page.words[0] {
            1 => draw_agrees(page),
            2 => weld_agrees(page),
            3 => plane_agrees(page, section_leaves),
            4 => plane_agrees(page, contour_leaves),
            _ => false,
        }
    }
}

fn main(rt: HostRuntime) -> io::Result<()> {
    replay_program(&rt, &mut rt.stdin(), &NAMES, &Replayed)?;
    Ok(())
}
