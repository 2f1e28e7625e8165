// The paper's measured cases that are run and not proved: a line each, the case and what it comes to.
#![tactic(auto)]

use mesh_section::Plane;
use refusal::{MOST_FACES, Refusal, number};
use std::io;
use vector::Vector;
use vector::matrix::Matrix;

// Coordinates of a measured case, each of which is 0 or 1.
fn coordinates(rt: &impl Print, xs: &[f64]) -> io::Result<()> {
    for x in xs {
        if *x == 0.0 {
            print!(rt; " 0")?;
        } else if *x == 1.0 {
            print!(rt; " 1")?;
        } else {
            print!(rt; " other")?;
        }
    }
    println!(rt;)
}

// A case and the status that it comes to: 0, or the refusal's number.
fn line<T: Drop>(rt: &impl Print, what: &str, r: Result<T, Refusal>) -> io::Result<()> {
    let status = match r {
        Ok(_) => 0,
        Err(why) => number(why),
    };
    println!(rt; "{what}: {status}")
}

// The plane x = 1 through (1, 0, 0).
fn plane() -> Plane {
    Plane {
        point: Vector::new(1.0, 0.0, 0.0),
        normal: Vector::new(1.0, 0.0, 0.0),
    }
}

// The face (0,0,0) (1,1,0) (2,0,0) cut by it: its two points.
fn section_through_a_corner(rt: &impl Print) -> io::Result<()> {
    let vertices = [0.0, 0.0, 0.0, 1.0, 1.0, 0.0, 2.0, 0.0, 0.0];
    let indices = [0u32, 1, 2];
    let mut points = [0.0; 6];
    let mut starts = [0u32; 1];
    let r = mesh_section::section(
        &vertices,
        &indices,
        plane(),
        0.000000001,
        &mut points,
        &mut starts,
    );
    line(rt, "plane x = 1 and a face with a corner on it, status", r)?;
    print!(rt; "its points:")?;
    coordinates(rt, &points)
}

// The most faces that a mesh may have.
fn section_of_the_most_faces(rt: &impl Print) -> io::Result<()> {
    let vertices = [0.0; 9];
    let indices = [0u32; 3 * MOST_FACES];
    let mut points = [0.0; 6 * MOST_FACES];
    let mut starts = [0u32; MOST_FACES];
    let r = mesh_section::section(&vertices, &indices, plane(), 0.25, &mut points, &mut starts);
    line(rt, "section of 65,536 faces, status", r)
}

// One face more.
fn section_of_one_face_more(rt: &impl Print) -> io::Result<()> {
    let vertices = [0.0; 9];
    let indices = [0u32; 3 * MOST_FACES + 3];
    let mut points = [0.0; 6];
    let mut starts = [0u32; 1];
    let r = mesh_section::section(&vertices, &indices, plane(), 0.25, &mut points, &mut starts);
    line(rt, "section of 65,537 faces, status", r)
}

// A weld of one face too many.
fn weld_of_one_face_more(rt: &impl Print) -> io::Result<()> {
    let coords = [0.0; 9 * MOST_FACES + 9];
    let mut scratch = [0u32; 12];
    let mut vertices = [0.0; 9];
    let mut indices = [0u32; 3];
    let r = mesh_weld::weld(&coords, &mut scratch, &mut vertices, &mut indices);
    line(rt, "weld of 65,537 faces, status", r)
}

// A chop by a step of 0.
fn chop_by_nothing(rt: &impl Print) -> io::Result<()> {
    let points = [0.0, 0.0, 0.0, 1.0, 0.0, 0.0];
    let starts = [0u32; 1];
    let mut out_points = [0.0; 6];
    let mut out_starts = [0u32; 1];
    let r = path_chop::chop(&points, &starts, 0.0, &mut out_points, &mut out_starts);
    line(rt, "chop by step 0, status", r)
}

// The matrix that shows a point where it is.
fn identity() -> Matrix {
    Matrix {
        x00: 1.0,
        x01: 0.0,
        x02: 0.0,
        x03: 0.0,
        x10: 0.0,
        x11: 1.0,
        x12: 0.0,
        x13: 0.0,
        x20: 0.0,
        x21: 0.0,
        x22: 1.0,
        x23: 0.0,
        x30: 0.0,
        x31: 0.0,
        x32: 0.0,
        x33: 1.0,
    }
}

// An adaptive cut of a line along x, on a screen of 10 by 10.
fn adapt(rt: &impl Print, what: &str, from: f64, to: f64, step: f64) -> io::Result<()> {
    let points = [from, 0.0, 0.0, to, 0.0, 0.0];
    let starts = [0u32; 1];
    let mut out_points = [0.0; 15];
    let mut out_starts = [0u32; 1];
    let r = path_adaptive::chop_adaptive(
        &points,
        &starts,
        identity(),
        10.0,
        10.0,
        step,
        1e-9,
        &mut out_points,
        &mut out_starts,
    );
    line(rt, what, r)?;
    if let Ok(a) = r {
        println!(rt; "its points and halvings: {} {}", a.points, a.halvings)?;
    }
    Ok(())
}

// A stroke out and back at threshold 1: its two ends, which are equal.
fn simplify_out_and_back(rt: &impl Print) -> io::Result<()> {
    let points = [0.0, 0.0, 0.0, 1.0, 0.0, 0.0, 0.0, 0.0, 0.0];
    let starts = [0u32; 1];
    let mut out_points = [9.0; 9];
    let mut out_starts = [0u32; 1];
    let r = path_simplify::simplify(&points, &starts, 1.0, &mut out_points, &mut out_starts);
    line(rt, "a stroke out and back at threshold 1, status", r)?;
    print!(rt; "its points, and what was there:")?;
    coordinates(rt, &out_points[..7])
}

// A threshold below 0.
fn simplify_below_nothing(rt: &impl Print) -> io::Result<()> {
    let points = [0.0; 9];
    let starts = [0u32; 1];
    let mut out_points = [0.0; 9];
    let mut out_starts = [0u32; 1];
    let r = path_simplify::simplify(&points, &starts, -1.0, &mut out_points, &mut out_starts);
    line(rt, "simplify at threshold -1, status", r)
}

fn main(rt: HostRuntime) -> io::Result<()> {
    section_through_a_corner(&rt)?;
    section_of_the_most_faces(&rt)?;
    section_of_one_face_more(&rt)?;
    weld_of_one_face_more(&rt)?;
    chop_by_nothing(&rt)?;
    adapt(
        &rt,
        "adaptive cut of 0 to 4 by step 2.5, status",
        0.0,
        4.0,
        2.5,
    )?;
    adapt(
        &rt,
        "adaptive cut of 0 to 4 by step 2, status",
        0.0,
        4.0,
        2.0,
    )?;
    adapt(
        &rt,
        "adaptive cut of 11 to 15 by step 2, status",
        11.0,
        15.0,
        2.0,
    )?;
    simplify_out_and_back(&rt)?;
    simplify_below_nothing(&rt)
}
