// Every call for C and Rust, and nothing else. A point is an array of three f64, a matrix one of sixteen, row by row.
// A function that can refuse answers a status, 0 or the refusal's number, and a refusal leaves the place of the value as it was;
// the others answer the value itself, or write the point to their last parameter.
#![tactic(auto)]

ghost use Rattle.std.specs.Prelude.{◌≡◌};
ghost use Rattle.vector.specs.Vectors.{add_of, sub_of, mul_of, div_of, add_scalar_of, sub_scalar_of, mul_scalar_of, div_scalar_of, dot_of, cross_of, length_squared_of, distance_squared_of};
ghost use Rattle.vector.specs.Lengths.{length_of, distance_of, unit_of, segment_distance_of};
ghost use Rattle.vector.specs.Matrices.{mul_position_w_of};
ghost use Rattle.vector.specs.Floor.{floor_of};
ghost use Rattle.vector.specs.Root.{root_of};
ghost use Rattle.vector.specs.Abs.{abs_of};
ghost use Rattle.ramikohy.specs.Points.{point_of, matrix_of};
ghost use Rattle.ramikohy.specs.Status.{valued, valued_by, valued_by_unit};

use vector::Vector;
use vector::matrix::Matrix;

pub mod files;
pub mod meshes;
pub mod reader;
pub mod sheets;
pub mod strokes;

// The status of an answer that there is none: no refusal has this number.
pub const NONE: u32 = 255;

fn point(a: &[f64; 3]) -> Vector
    ensures { result ≡ point_of a.now }
{
    Vector {
        x: a[0],
        y: a[1],
        z: a[2],
    }
}

fn matrix(m: &[f64; 16]) -> Matrix
    ensures { result ≡ matrix_of m.now }
{
    Matrix {
        x00: m[0],
        x01: m[1],
        x02: m[2],
        x03: m[3],
        x10: m[4],
        x11: m[5],
        x12: m[6],
        x13: m[7],
        x20: m[8],
        x21: m[9],
        x22: m[10],
        x23: m[11],
        x30: m[12],
        x31: m[13],
        x32: m[14],
        x33: m[15],
    }
}

fn put(v: Vector, out: &mut [f64; 3])
    ensures { point_of out.new ≡ v }
{
    *out = [v.x, v.y, v.z];
}

// The greatest whole number not above x.
#[unsafe(no_mangle)]
pub extern "C" fn ramikohy_floor(x: f64, whole: &mut i64) -> u32
    ensures { valued result whole.new ≡ valued_by (floor_of x) whole.old }
{
    match vector::number::floor(x) {
        Ok(z) => {
            *whole = z;
            0
        }
        Err(why) => refusal::number(why),
    }
}

// The f64 nearest to the square root of x.
#[unsafe(no_mangle)]
pub extern "C" fn ramikohy_sqrt(x: f64, root: &mut f64) -> u32
    ensures { valued result root.new ≡ valued_by (root_of x) root.old }
{
    match vector::number::sqrt(x) {
        Ok(y) => {
            *root = y;
            0
        }
        Err(why) => refusal::number(why),
    }
}

// x with its sign cleared.
#[unsafe(no_mangle)]
pub extern "C" fn ramikohy_abs(x: f64) -> f64
    ensures { result ≡ abs_of x }
{
    vector::number::abs(x)
}

// The length of a.
#[unsafe(no_mangle)]
pub extern "C" fn ramikohy_length(a: &[f64; 3]) -> f64
    ensures { result ≡ length_of (point_of a.now) }
{
    point(a).length()
}

// The distance of a and b.
#[unsafe(no_mangle)]
pub extern "C" fn ramikohy_distance(a: &[f64; 3], b: &[f64; 3]) -> f64
    ensures { result ≡ distance_of (point_of a.now) (point_of b.now) }
{
    point(a).distance(point(b))
}

// The square of the length of a.
#[unsafe(no_mangle)]
pub extern "C" fn ramikohy_length_squared(a: &[f64; 3]) -> f64
    ensures { result ≡ length_squared_of (point_of a.now) }
{
    point(a).length_squared()
}

// The square of the distance of a and b.
#[unsafe(no_mangle)]
pub extern "C" fn ramikohy_distance_squared(a: &[f64; 3], b: &[f64; 3]) -> f64
    ensures { result ≡ distance_squared_of (point_of a.now) (point_of b.now) }
{
    point(a).distance_squared(point(b))
}

// The dot product of a and b.
#[unsafe(no_mangle)]
pub extern "C" fn ramikohy_dot(a: &[f64; 3], b: &[f64; 3]) -> f64
    ensures { result ≡ dot_of (point_of a.now) (point_of b.now) }
{
    point(a).dot(point(b))
}

// The cross product of a and b.
#[unsafe(no_mangle)]
pub extern "C" fn ramikohy_cross(a: &[f64; 3], b: &[f64; 3], out: &mut [f64; 3])
    ensures { point_of out.new ≡ cross_of (point_of a.now) (point_of b.now) }
{
    put(point(a).cross(point(b)), out);
}

// a made one long. A computed length of 0 answers NONE and leaves `out` as it was.
#[unsafe(no_mangle)]
pub extern "C" fn ramikohy_normalize(a: &[f64; 3], out: &mut [f64; 3]) -> u32
    ensures { valued result (point_of out.new) ≡ valued_by_unit (unit_of (point_of a.now)) (point_of out.old) }
{
    match point(a).normalize() {
        Some(q) => {
            put(q, out);
            0
        }
        None => NONE,
    }
}

// a + b, coordinate by coordinate.
#[unsafe(no_mangle)]
pub extern "C" fn ramikohy_add(a: &[f64; 3], b: &[f64; 3], out: &mut [f64; 3])
    ensures { point_of out.new ≡ add_of (point_of a.now) (point_of b.now) }
{
    put(point(a).add(point(b)), out);
}

// a - b, coordinate by coordinate.
#[unsafe(no_mangle)]
pub extern "C" fn ramikohy_sub(a: &[f64; 3], b: &[f64; 3], out: &mut [f64; 3])
    ensures { point_of out.new ≡ sub_of (point_of a.now) (point_of b.now) }
{
    put(point(a).sub(point(b)), out);
}

// a * b, coordinate by coordinate.
#[unsafe(no_mangle)]
pub extern "C" fn ramikohy_mul(a: &[f64; 3], b: &[f64; 3], out: &mut [f64; 3])
    ensures { point_of out.new ≡ mul_of (point_of a.now) (point_of b.now) }
{
    put(point(a).mul(point(b)), out);
}

// a / b, coordinate by coordinate.
#[unsafe(no_mangle)]
pub extern "C" fn ramikohy_div(a: &[f64; 3], b: &[f64; 3], out: &mut [f64; 3])
    ensures { point_of out.new ≡ div_of (point_of a.now) (point_of b.now) }
{
    put(point(a).div(point(b)), out);
}

// s added to each coordinate of a.
#[unsafe(no_mangle)]
pub extern "C" fn ramikohy_add_scalar(a: &[f64; 3], s: f64, out: &mut [f64; 3])
    ensures { point_of out.new ≡ add_scalar_of (point_of a.now) s }
{
    put(point(a).add_scalar(s), out);
}

// s taken from each coordinate of a.
#[unsafe(no_mangle)]
pub extern "C" fn ramikohy_sub_scalar(a: &[f64; 3], s: f64, out: &mut [f64; 3])
    ensures { point_of out.new ≡ sub_scalar_of (point_of a.now) s }
{
    put(point(a).sub_scalar(s), out);
}

// Each coordinate of a times s.
#[unsafe(no_mangle)]
pub extern "C" fn ramikohy_mul_scalar(a: &[f64; 3], s: f64, out: &mut [f64; 3])
    ensures { point_of out.new ≡ mul_scalar_of (point_of a.now) s }
{
    put(point(a).mul_scalar(s), out);
}

// Each coordinate of a divided by s.
#[unsafe(no_mangle)]
pub extern "C" fn ramikohy_div_scalar(a: &[f64; 3], s: f64, out: &mut [f64; 3])
    ensures { point_of out.new ≡ div_scalar_of (point_of a.now) s }
{
    put(point(a).div_scalar(s), out);
}

// The distance of a from the segment from v to w.
#[unsafe(no_mangle)]
pub extern "C" fn ramikohy_segment_distance(a: &[f64; 3], v: &[f64; 3], w: &[f64; 3]) -> f64
    ensures { result ≡ segment_distance_of (point_of a.now) (point_of v.now) (point_of w.now) }
{
    point(a).segment_distance(point(v), point(w))
}

// a under the matrix m, divided by w.
#[unsafe(no_mangle)]
pub extern "C" fn ramikohy_mul_position_w(m: &[f64; 16], a: &[f64; 3], out: &mut [f64; 3])
    ensures { point_of out.new ≡ mul_position_w_of (matrix_of m.now) (point_of a.now) }
{
    put(matrix(m).mul_position_w(point(a)), out);
}
