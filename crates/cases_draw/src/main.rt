// The paper's measured cases of drawing and those of flat faces: a line each, the case, the drawing's numbers, and where its strokes
// begin; or the refusal's number, and the face that it carries. Between them, what the normal of a face answers.
#![tactic(auto)]

use mesh::Triangle;
use mesh_seen::Flat;
use path::Place;
use refusal::{MOST_FACES, Refusal, carried_by, number};
use std::io;
use vector::Vector;

// The first n numbers of a list.
fn numbers(rt: &impl Print, list: &[u32], n: usize) -> io::Result<()> {
    for x in list.iter().take(n) {
        print!(rt; " {x}")?;
    }
    Ok(())
}

// The number of a refusal, and the face that it carries.
fn refused(rt: &impl Print, why: Refusal) -> io::Result<()> {
    print!(rt; " refused {}", number(why))?;
    if let Some(face) = carried_by(why) {
        print!(rt; ", face {face}")?;
    }
    Ok(())
}

// What a drawing came to.
fn tell(
    rt: &impl Print,
    r: Result<Place, Refusal>,
    points: &[u32],
    starts: &[u32],
) -> io::Result<()> {
    match r {
        Ok(p) => {
            numbers(rt, points, p.points)?;
            print!(rt; ", strokes from")?;
            numbers(rt, starts, p.starts)?;
        }
        Err(why) => refused(rt, why)?,
    }
    println!(rt;)
}

// The square (0,0,0) (1,0,0) (1,1,0) (0,1,0) with the faces 0 1 2 and 0 2 3.
fn square(
    rt: &impl Print,
    what: &str,
    flips: &[u32],
    mode: u32,
    cos_theta: f64,
    eye: Vector,
) -> io::Result<()> {
    let vertices = [0.0, 0.0, 0.0, 1.0, 0.0, 0.0, 1.0, 1.0, 0.0, 0.0, 1.0, 0.0];
    let indices = [0u32, 1, 2, 0, 2, 3];
    let mut scratch = [7u32; 128];
    let mut seen = [7.0; 8];
    let mut points = [0u32; 12];
    let mut starts = [0u32; 6];
    print!(rt; "{what}")?;
    let r = mesh_draw::draw(
        &vertices,
        &indices,
        flips,
        mode,
        cos_theta,
        eye,
        0.000000001,
        &mut scratch,
        &mut seen,
        &mut points,
        &mut starts,
    );
    tell(rt, r, &points, &starts)
}

// The face 0 0 1, which is flat.
fn flat(rt: &impl Print, what: &str, mode: u32) -> io::Result<()> {
    let vertices = [0.0, 0.0, 0.0, 1.0, 0.0, 0.0];
    let indices = [0u32, 0, 1];
    let flips = [0u32; 2];
    let mut scratch = [7u32; 64];
    let mut seen = [7.0; 4];
    let mut points = [0u32; 6];
    let mut starts = [0u32; 3];
    print!(rt; "{what}")?;
    let r = mesh_draw::draw(
        &vertices,
        &indices,
        &flips,
        mode,
        0.0,
        Vector::new(0.0, 0.0, 5.0),
        0.000000001,
        &mut scratch,
        &mut seen,
        &mut points,
        &mut starts,
    );
    tell(rt, r, &points, &starts)
}

// Faces 012 and 001, the second of which is flat, where nobody says a mode.
fn unsaid(rt: &impl Print, what: &str, cos_theta: f64) -> io::Result<()> {
    let vertices = [0.0, 0.0, 0.0, 1.0, 0.0, 0.0, 1.0, 1.0, 0.0];
    let indices = [0u32, 1, 2, 0, 0, 1];
    let flips = [0u32; 2];
    let mut scratch = [7u32; 128];
    let mut seen = [7.0; 8];
    let mut points = [0u32; 12];
    let mut starts = [0u32; 6];
    print!(rt; "{what}")?;
    let r = mesh_draw::draw(
        &vertices,
        &indices,
        &flips,
        0,
        cos_theta,
        Vector::new(0.0, 0.0, 5.0),
        0.000000001,
        &mut scratch,
        &mut seen,
        &mut points,
        &mut starts,
    );
    tell(rt, r, &points, &starts)
}

// Faces of these vertices, polygonal, with scratch and room that are lent.
fn lent(
    rt: &impl Print,
    what: &str,
    vertices: &[f64],
    indices: &[u32],
    scratch: &mut [u32],
    points: &mut [u32],
) -> io::Result<()> {
    let flips = [0u32; 2];
    let mut seen = [7.0; 16];
    let mut starts = [0u32; 12];
    print!(rt; "{what}")?;
    let r = mesh_draw::draw(
        vertices,
        indices,
        &flips,
        2,
        0.0,
        Vector::new(0.0, 0.0, 5.0),
        0.000000001,
        scratch,
        &mut seen,
        points,
        &mut starts,
    );
    tell(rt, r, points, &starts)
}

// The same with enough of both for four faces.
fn faces(rt: &impl Print, what: &str, vertices: &[f64], indices: &[u32]) -> io::Result<()> {
    let mut scratch = [7u32; 256];
    let mut points = [0u32; 24];
    lent(rt, what, vertices, indices, &mut scratch, &mut points)
}

// One face, of three points.
fn face(rt: &impl Print, what: &str, a: Vector, b: Vector, c: Vector) -> io::Result<()> {
    let vertices = [a.x, a.y, a.z, b.x, b.y, b.z, c.x, c.y, c.z];
    let indices = [0u32, 1, 2];
    faces(rt, what, &vertices, &indices)
}

// One face, the first corner of which is the origin.
fn from_origin(rt: &impl Print, what: &str, b: Vector, c: Vector) -> io::Result<()> {
    face(rt, what, Vector::new(0.0, 0.0, 0.0), b, c)
}

// Faces that have no normal: two corners alike, or three that are different.
fn flat_faces(rt: &impl Print) -> io::Result<()> {
    from_origin(
        rt,
        "(0,0,0) (-0,0,-0) (1,0,0):",
        Vector::new(-0.0, 0.0, -0.0),
        Vector::new(1.0, 0.0, 0.0),
    )?;
    let low = Vector::new(3.0, 0.1, 0.0);
    face(
        rt,
        "(5,1,0) (3,0.1,0) twice:",
        Vector::new(5.0, 1.0, 0.0),
        low,
        low,
    )?;
    from_origin(
        rt,
        "(0,0,0) (1,1,1) (2,2,2):",
        Vector::new(1.0, 1.0, 1.0),
        Vector::new(2.0, 2.0, 2.0),
    )?;
    let tiny = 1.0542197943230523e-81;
    let less_tiny = 2.1084395886461046e-81;
    let right = Vector::new(tiny, 0.0, 0.0);
    from_origin(
        rt,
        "(0,0,0) and 2^-269 along x and y:",
        right,
        Vector::new(0.0, tiny, 0.0),
    )?;
    from_origin(
        rt,
        "with 2^-268 along y:",
        right,
        Vector::new(0.0, less_tiny, 0.0),
    )?;
    face(
        rt,
        "(1,1,0) (0,0,0) (1e-20,0,0):",
        Vector::new(1.0, 1.0, 0.0),
        Vector::new(0.0, 0.0, 0.0),
        Vector::new(1e-20, 0.0, 0.0),
    )
}

// What the normal of a face answers.
fn normal(rt: &impl Print, what: &str, a: Vector, b: Vector, c: Vector) -> io::Result<()> {
    print!(rt; "{what}")?;
    match mesh_seen::normal(Triangle {
        v1: a,
        v2: b,
        v3: c,
    }) {
        Ok(v) => {
            if v == Vector::new(0.0, 0.0, 1.0) {
                print!(rt; " (0,0,1)")?;
            }
        }
        Err(Flat::Alike) => print!(rt; " none, two corners are alike")?,
        Err(Flat::NoLength) => print!(rt; " none, it has no length")?,
    }
    println!(rt;)
}

// Its three answers.
fn normals(rt: &impl Print) -> io::Result<()> {
    let origin = Vector::new(0.0, 0.0, 0.0);
    let right = Vector::new(3.0, 0.0, 0.0);
    normal(
        rt,
        "normal of (0,0,0) (3,0,0) (3,2,0):",
        origin,
        right,
        Vector::new(3.0, 2.0, 0.0),
    )?;
    normal(
        rt,
        "normal of (0,0,0) (3,0,0) (0,0,-0):",
        origin,
        right,
        Vector::new(0.0, 0.0, -0.0),
    )?;
    normal(
        rt,
        "normal of (0,0,0) (3,0,0) (1,0,0):",
        origin,
        right,
        Vector::new(1.0, 0.0, 0.0),
    )
}

// The square and (2,0,0): which face at fault comes first, and what comes before it.
fn first_of_faces(rt: &impl Print) -> io::Result<()> {
    let vertices = [
        0.0, 0.0, 0.0, 1.0, 0.0, 0.0, 1.0, 1.0, 0.0, 0.0, 1.0, 0.0, 2.0, 0.0, 0.0,
    ];
    let line_first = [0u32, 1, 2, 0, 2, 3, 0, 1, 4, 1, 1, 2];
    let alike_first = [0u32, 1, 2, 1, 1, 2, 0, 2, 3, 0, 1, 4];
    let line = [0u32, 1, 4];
    faces(rt, "faces 012 023 014 112:", &vertices, &line_first)?;
    faces(rt, "faces 012 112 023 014:", &vertices, &alike_first)?;
    let mut scratch = [7u32; 64];
    let mut points = [0u32; 5];
    lent(
        rt,
        "face 014, room for 5 points:",
        &vertices,
        &line,
        &mut scratch,
        &mut points,
    )?;
    let mut less = [7u32; 63];
    lent(
        rt,
        "face 014, 63 words of scratch:",
        &vertices,
        &line,
        &mut less,
        &mut points,
    )
}

// A mesh of one face too many.
fn one_face_more(rt: &impl Print) -> io::Result<()> {
    let vertices = [0.0; 9];
    let indices = [0u32; 3 * MOST_FACES + 3];
    let flips = [0u32; 2];
    let mut scratch = [7u32; 64];
    let mut seen = [7.0; 4];
    let mut points = [0u32; 6];
    let mut starts = [0u32; 3];
    print!(rt; "65,537 faces:")?;
    let r = mesh_draw::draw(
        &vertices,
        &indices,
        &flips,
        1,
        0.0,
        Vector::new(0.0, 0.0, 5.0),
        0.000000001,
        &mut scratch,
        &mut seen,
        &mut points,
        &mut starts,
    );
    tell(rt, r, &points, &starts)
}

// A silhouette of the square, seen from above.
fn silhouette(rt: &impl Print, what: &str, flips: &[u32], cos_theta: f64) -> io::Result<()> {
    square(rt, what, flips, 3, cos_theta, Vector::new(0.0, 0.0, 5.0))
}

fn main(rt: HostRuntime) -> io::Result<()> {
    let turned = [0u32, 1];
    let back = [1u32, 0];
    let above = Vector::new(0.0, 0.0, 5.0);
    square(&rt, "the square, mode not said:", &back, 0, 0.0, above)?;
    unsaid(&rt, "faces 012 001, mode not said:", 0.0)?;
    unsaid(&rt, "with a NaN cosine:", 0.0 / 0.0)?;
    square(&rt, "the square, triangles:", &back, 1, 0.0, above)?;
    square(&rt, "the square, polygonal:", &back, 2, 0.0, above)?;
    silhouette(
        &rt,
        "silhouette from (0,0,5), cos_theta 0, no flip:",
        &back[..0],
        0.0,
    )?;
    silhouette(&rt, "with the flip (0,1):", &turned, 0.0)?;
    silhouette(&rt, "with the flip (1,0):", &back, 0.0)?;
    silhouette(&rt, "with cos_theta 1:", &back[..0], 1.0)?;
    square(
        &rt,
        "from (5,5,0):",
        &back[..0],
        3,
        0.0,
        Vector::new(5.0, 5.0, 0.0),
    )?;
    square(&rt, "mode 4:", &back[..0], 4, 0.0, above)?;
    flat(&rt, "face 0 0 1, triangles:", 1)?;
    flat(&rt, "face 0 0 1, polygonal:", 2)?;
    flat(&rt, "face 0 0 1, silhouette:", 3)?;
    normals(&rt)?;
    flat_faces(&rt)?;
    first_of_faces(&rt)?;
    one_face_more(&rt)
}
