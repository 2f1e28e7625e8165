// The rule of a contour: where a plane that cuts a face meets it, its corners and sides in turn.
#![tactic(auto)]

ghost use Rattle.std.specs.Prelude.{◌≡◌, eqb};
ghost use Rattle.mesh_contour_rule.specs.Contour.{corner_by, side_of, above, below, on, parts, cross_from, crossing as crossing_of, gives_by, unsigned, unsigned_point, segment_by};
ghost use Rattle.mesh_section.specs.Section.{cut_stroke};
ghost use Rattle.mesh_contour_rule.specs.InnerMet.{first_met, last_met};

use mesh_section::Plane;
use vector::Vector;

// Where a vertex lies: above the plane, below it, or on it.
#[derive(Clone, Copy, Debug, PartialEq, Eq)]
pub enum Side {
    Above,
    Below,
    On,
}

// A corner of a face: the number of its vertex, where that lies, how high over the plane, and so on which side.
#[derive(Clone, Copy, Debug, PartialEq)]
pub struct Corner {
    pub vertex: u32,
    pub at: Vector,
    pub height: f64,
    pub side: Side,
}

// The side of a height: above if not below the tolerance, below if not above minus the tolerance.
#[tactic(auto, unfolding(crate::specs::Contour::side_of))]
fn side_of(height: f64, tolerance: f64) -> Side
    ensures { result ≡ side_of tolerance height }
{
    if !(height < tolerance) {
        return Side::Above;
    }
    if !(height > -tolerance) {
        return Side::Below;
    }
    Side::On
}

// The corner at a vertex, by its number and where it lies.
pub fn corner_at(plane: Plane, tolerance: f64, vertex: u32, at: Vector) -> Corner
    ensures { result ≡ corner_by plane tolerance vertex at }
{
    let height = plane.normal.dot(at.sub(plane.point));
    Corner {
        vertex,
        at,
        height,
        side: side_of(height, tolerance),
    }
}

// Whether a corner is above.
fn is_above(s: Side) -> bool
    ensures { result ≡ eqb (above s) 1 }
{
    matches!(s, Side::Above)
}

// Whether it is below.
fn is_below(s: Side) -> bool
    ensures { result ≡ eqb (below s) 1 }
{
    matches!(s, Side::Below)
}

// Whether it is on the plane.
fn is_on(s: Side) -> bool
    ensures { result ≡ eqb (on s) 1 }
{
    matches!(s, Side::On)
}

// Whether a face with corners on these sides gives a segment: some above and some below; or one above, the others on.
fn gives(r: Side, s: Side, t: Side) -> bool
    ensures { result ≡ gives_by r s t }
{
    let a = is_above(r) as u32 + is_above(s) as u32 + is_above(t) as u32;
    let b = is_below(r) as u32 + is_below(s) as u32 + is_below(t) as u32;
    if a == 0 {
        return false;
    }
    if b == 0 {
        return a == 1;
    }
    true
}

// Whether the plane parts two corners: one is above, the other below.
fn parted(s: Side, t: Side) -> bool
    ensures { result ≡ parts s t }
{
    is_above(s) != is_above(t) && is_below(s) != is_below(t)
}

// The crossing of the side from a to b: the share first, then the point.
#[tactic(auto, unfolding(crate::specs::Contour::cross_from))]
fn cross_from(a: Corner, b: Corner) -> Vector
    ensures { result ≡ cross_from a b }
{
    let p = a.at;
    let q = b.at;
    let t = a.height / (a.height - b.height);
    p.add(q.sub(p).mul_scalar(t))
}

// The crossing of a side, from its lower-numbered vertex: so all faces of an edge have the same bits.
#[tactic(auto, unfolding(crate::specs::Contour::crossing))]
fn crossing(a: Corner, b: Corner) -> Vector
    ensures { result ≡ crossing_of a b }
{
    if b.vertex < a.vertex {
        return cross_from(b, a);
    }
    cross_from(a, b)
}

// The first place met going round a face that gives a segment: corner 1, side 12, corner 2, or else side 23.
#[tactic(auto, unfolding(crate::specs::InnerMet::first_met))]
fn first_met(a: Corner, b: Corner, c: Corner) -> Vector
    ensures { result ≡ first_met a b c }
{
    let r = a.side;
    let s = b.side;
    if is_on(r) {
        return a.at;
    }
    if parted(r, s) {
        return crossing(a, b);
    }
    if is_on(s) {
        return b.at;
    }
    crossing(b, c)
}

// The last place: side 31, corner 3, side 23, or else corner 2.
#[tactic(auto, unfolding(crate::specs::InnerMet::last_met))]
fn last_met(a: Corner, b: Corner, c: Corner) -> Vector
    ensures { result ≡ last_met a b c }
{
    let r = a.side;
    let s = b.side;
    let t = c.side;
    if parted(t, r) {
        return crossing(c, a);
    }
    if is_on(t) {
        return c.at;
    }
    if parted(s, t) {
        return crossing(b, c);
    }
    b.at
}

// -0 becomes 0; every other number stays.
fn without_sign(x: f64) -> f64
    ensures { result ≡ unsigned x }
{
    if x == 0.0 {
        return 0.0;
    }
    x
}

// The same of a point.
fn unsigned_point(v: Vector) -> Vector
    ensures { result ≡ unsigned_point v }
{
    Vector {
        x: without_sign(v.x),
        y: without_sign(v.y),
        z: without_sign(v.z),
    }
}

// The two points of a face's segment by its corners, in the order met going round, -0 made 0; none where it gives no segment.
pub fn cut_face(a: Corner, b: Corner, c: Corner) -> Option<(Vector, Vector)>
    ensures { cut_stroke result ≡ segment_by a b c }
{
    let r = a.side;
    let s = b.side;
    let t = c.side;
    if !gives(r, s, t) {
        return None;
    }
    Some((
        unsigned_point(first_met(a, b, c)),
        unsigned_point(last_met(a, b, c)),
    ))
}
