// The worked cases of contours: a line each, the case, what the call answers, and all that was lent to it. What is lent holds 7 in
// every place before the call, so that what was written, what was cleared and what was left alone are seen. A coordinate that is +0,
// 1 or 7 is told by its value, every other, -0 too, by its pattern, in hexadecimal digits. X is the plane through (1,0,0) with normal
// (1,0,0), Z that through (0,0,0) with normal (0,0,1); the tolerance is 1e-9 where a line says nothing else.
#![tactic(auto)]

ghost use Rattle.std.specs.Prelude.{◌≤◌};

use mesh_section::Plane;
use path::Place;
use refusal::{MOST_FACES, Refusal, number};
use std::io;
use vector::Vector;

const SMALL: f64 = 0.000000001;

// A coordinate by its pattern.
fn pattern(rt: &impl Print, bits: u64) -> io::Result<()> {
    match bits {
        0 => print!(rt; " 0")?,
        0x3ff0_0000_0000_0000 => print!(rt; " 1")?,
        0x401c_0000_0000_0000 => print!(rt; " 7")?,
        _ => print!(rt; " {bits:016x}")?,
    }
    Ok(())
}

fn real(rt: &impl Print, x: f64) -> io::Result<()> {
    if x == x {
        return pattern(rt, f64::to_bits(x));
    }
    print!(rt; " NaN")
}

fn reals(rt: &impl Print, list: &[f64]) -> io::Result<()> {
    for x in list {
        real(rt, *x)?;
    }
    Ok(())
}

fn numbers(rt: &impl Print, list: &[u32]) -> io::Result<()> {
    for x in list {
        print!(rt; " {x}")?;
    }
    Ok(())
}

// The counts of an accepted call, or the refusal's number.
fn answer(rt: &impl Print, r: Result<Place, Refusal>) -> io::Result<()> {
    match r {
        Ok(p) => print!(rt; " wrote {} and {}", p.points, p.starts),
        Err(why) => print!(rt; " refused {}", number(why)),
    }
}

// All that a contour was lent.
fn lists(
    rt: &impl Print,
    scratch: &[u32],
    reckoned: &[f64],
    points: &[f64],
    starts: &[u32],
) -> io::Result<()> {
    print!(rt; ", points")?;
    reals(rt, points)?;
    print!(rt; ", starts")?;
    numbers(rt, starts)?;
    print!(rt; ", words")?;
    numbers(rt, scratch)?;
    print!(rt; ", numbers")?;
    reals(rt, reckoned)?;
    println!(rt;)
}

// A contour with all that is lent to it.
fn contour(
    rt: &impl Print,
    what: &str,
    vertices: &[f64],
    indices: &[u32],
    plane: Plane,
    tolerance: f64,
    scratch: &mut [u32],
    reckoned: &mut [f64],
    points: &mut [f64],
    starts: &mut [u32],
) -> io::Result<()> {
    print!(rt; "{what}")?;
    answer(
        rt,
        mesh_contour::contour(
            vertices, indices, plane, tolerance, scratch, reckoned, points, starts,
        ),
    )?;
    lists(rt, scratch, reckoned, points, starts)
}

// With so many words and numbers of scratch, and room for so many coordinates and starts.
fn with(
    rt: &impl Print,
    what: &str,
    vertices: &[f64],
    indices: &[u32],
    plane: Plane,
    tolerance: f64,
    words: usize,
    numbers: usize,
    room: usize,
    start_room: usize,
) -> io::Result<()>
    requires { (words ≤ 64) × (numbers ≤ 32) × (room ≤ 27) × (start_room ≤ 5) }
{
    let mut scratch = [7u32; 64];
    let mut reckoned = [7.0; 32];
    let mut points = [7.0; 27];
    let mut starts = [7u32; 5];
    contour(
        rt,
        what,
        vertices,
        indices,
        plane,
        tolerance,
        &mut scratch[..words],
        &mut reckoned[..numbers],
        &mut points[..room],
        &mut starts[..start_room],
    )
}

// With the scratch that n faces ask for, and room for a point and a start more than they do.
fn enough(
    rt: &impl Print,
    what: &str,
    vertices: &[f64],
    indices: &[u32],
    plane: Plane,
    tolerance: f64,
    n: usize,
) -> io::Result<()>
    requires { n ≤ 4 }
{
    with(
        rt,
        what,
        vertices,
        indices,
        plane,
        tolerance,
        16 * n,
        8 * n,
        6 * n + 3,
        n + 1,
    )
}

// X.
fn across_x() -> Plane {
    Plane {
        point: Vector::new(1.0, 0.0, 0.0),
        normal: Vector::new(1.0, 0.0, 0.0),
    }
}

// Z, moved to (0,0,z).
fn across_z(z: f64) -> Plane {
    Plane {
        point: Vector::new(0.0, 0.0, z),
        normal: Vector::new(0.0, 0.0, 1.0),
    }
}

// The face (0,0,0) (1,1,0) (2,0,0), whose second corner lies on X.
fn corner_on_it(rt: &impl Print, what: &str, indices: &[u32]) -> io::Result<()> {
    let vertices = [0.0, 0.0, 0.0, 1.0, 1.0, 0.0, 2.0, 0.0, 0.0];
    enough(rt, what, &vertices, indices, across_x(), SMALL, 1)
}

// One face, cut by X.
fn face(
    rt: &impl Print,
    what: &str,
    a: Vector,
    b: Vector,
    c: Vector,
    tolerance: f64,
) -> io::Result<()> {
    let vertices = [a.x, a.y, a.z, b.x, b.y, b.z, c.x, c.y, c.z];
    let indices = [0u32, 1, 2];
    enough(rt, what, &vertices, &indices, across_x(), tolerance, 1)
}

// A corner on the plane, a side on it, and corners as far from it as the tolerance.
fn faces(rt: &impl Print) -> io::Result<()> {
    let forth = [0u32, 1, 2];
    let round = [2u32, 0, 1];
    corner_on_it(rt, "X, (0,0,0) (1,1,0) (2,0,0) as 0 1 2:", &forth)?;
    corner_on_it(rt, "as 2 0 1:", &round)?;
    let a = Vector::new(1.0, 0.0, 0.0);
    let b = Vector::new(1.0, 1.0, 0.0);
    face(
        rt,
        "X, (1,0,0) (1,1,0) with (2,0,0):",
        a,
        b,
        Vector::new(2.0, 0.0, 0.0),
        SMALL,
    )?;
    face(rt, "with (0,0,0):", a, b, Vector::new(0.0, 0.0, 0.0), SMALL)?;
    face(
        rt,
        "X, tolerance 0.5, (1.5,0,0) (0.5,0,0) (1.25,1,0):",
        Vector::new(1.5, 0.0, 0.0),
        Vector::new(0.5, 0.0, 0.0),
        Vector::new(1.25, 1.0, 0.0),
        0.5,
    )
}

// A face twice over, which gives its segment twice; one cut in one place, a segment of no length; and one that touches X.
fn doubled(rt: &impl Print) -> io::Result<()> {
    let vertices = [0.0, 0.0, 0.0, 1.0, 1.0, 0.0, 2.0, 0.0, 0.0];
    let twice = [0u32, 1, 2, 0, 1, 2];
    let dot = [0u32, 2, 2];
    enough(
        rt,
        "X, (0,0,0) (1,1,0) (2,0,0), faces 012 012:",
        &vertices,
        &twice,
        across_x(),
        SMALL,
        2,
    )?;
    enough(rt, "face 022:", &vertices, &dot, across_x(), SMALL, 1)?;
    face(
        rt,
        "X, (1,0,0) with (2,0,0) (2,1,0):",
        Vector::new(1.0, 0.0, 0.0),
        Vector::new(2.0, 0.0, 0.0),
        Vector::new(2.0, 1.0, 0.0),
        SMALL,
    )
}

// Two faces that meet where one has zeros of the other sign.
fn signs_of_zero(rt: &impl Print) -> io::Result<()> {
    let vertices = [
        -0.0, 0.0, -0.0, 1.0, -0.0, 0.0, 0.0, 0.0, 1.0, 0.0, 0.0, 0.0, 0.0, 1.0, -0.0,
    ];
    let indices = [0u32, 1, 2, 3, 4, 2];
    enough(
        rt,
        "Z, (-0,0,-0) (1,-0,0) (0,0,1) (0,0,0) (0,1,-0), faces 012 342:",
        &vertices,
        &indices,
        across_z(0.0),
        SMALL,
        2,
    )
}

// Three faces are cut: a closed stroke.
fn tetrahedron(rt: &impl Print) -> io::Result<()> {
    let vertices = [0.0, 0.0, 0.0, 2.0, 0.0, 0.0, 0.0, 2.0, 0.0, 0.0, 0.0, 2.0];
    let indices = [0u32, 2, 1, 0, 1, 3, 0, 3, 2, 1, 2, 3];
    enough(
        rt,
        "through (0,0,1), (0,0,0) (2,0,0) (0,2,0) (0,0,2), faces 021 013 032 123:",
        &vertices,
        &indices,
        across_z(1.0),
        SMALL,
        4,
    )
}

// Two faces that go along one edge in opposite directions: one crossing, the same in both.
fn shared_edge(rt: &impl Print) -> io::Result<()> {
    let vertices = [
        0.0, 0.0, -0.1, 0.1, 0.0, 0.3, 0.0, 1.0, -0.1, 0.0, -1.0, -0.1,
    ];
    let indices = [0u32, 1, 2, 1, 0, 3];
    enough(
        rt,
        "Z, (0,0,-0.1) (0.1,0,0.3) (0,1,-0.1) (0,-1,-0.1), faces 012 103:",
        &vertices,
        &indices,
        across_z(0.0),
        SMALL,
        2,
    )
}

// One face, with so much lent.
fn lent(
    rt: &impl Print,
    what: &str,
    words: usize,
    numbers: usize,
    room: usize,
    start_room: usize,
) -> io::Result<()>
    requires { (words ≤ 64) × (numbers ≤ 32) × (room ≤ 27) × (start_room ≤ 5) }
{
    let vertices = [0.0, 0.0, 0.0, 1.0, 1.0, 0.0, 2.0, 0.0, 0.0];
    let indices = [0u32, 1, 2];
    with(
        rt,
        what,
        &vertices,
        &indices,
        across_x(),
        SMALL,
        words,
        numbers,
        room,
        start_room,
    )
}

// A face of the vertices 0, 1 and `last`, where the third of three is (x,0,0), with nothing lent.
fn bare(rt: &impl Print, what: &str, x: f64, last: u32) -> io::Result<()> {
    let vertices = [0.0, 0.0, 0.0, 1.0, 1.0, 0.0, x, 0.0, 0.0];
    let indices = [0u32, 1, last];
    with(rt, what, &vertices, &indices, across_x(), SMALL, 0, 0, 0, 0)
}

// Indices that are no whole faces, and a face too many, with nothing lent.
fn other_counts(rt: &impl Print) -> io::Result<()> {
    let vertices = [0.0 / 0.0; 9];
    let indices = [3u32; 3 * MOST_FACES + 3];
    with(
        rt,
        "four indices:",
        &vertices,
        &indices[..4],
        across_x(),
        SMALL,
        0,
        0,
        0,
        0,
    )?;
    with(
        rt,
        "65,537 faces:",
        &vertices,
        &indices,
        across_x(),
        SMALL,
        0,
        0,
        0,
        0,
    )
}

// Each refusal, the earlier where two would do; and just enough of all, which is accepted.
fn refusals(rt: &impl Print) -> io::Result<()> {
    other_counts(rt)?;
    bare(rt, "vertex 3 of three, one of which is NaN:", 0.0 / 0.0, 3)?;
    bare(rt, "NaN in a vertex:", 0.0 / 0.0, 2)?;
    lent(rt, "15 words, room for one point:", 15, 8, 3, 1)?;
    lent(rt, "7 numbers, no start:", 16, 7, 6, 0)?;
    lent(rt, "room for one point:", 16, 8, 3, 1)?;
    lent(rt, "room for no start:", 16, 8, 6, 0)?;
    lent(rt, "just enough of all:", 16, 8, 6, 1)
}

fn main(rt: HostRuntime) -> io::Result<()> {
    faces(&rt)?;
    doubled(&rt)?;
    signs_of_zero(&rt)?;
    tetrahedron(&rt)?;
    shared_edge(&rt)?;
    refusals(&rt)
}
