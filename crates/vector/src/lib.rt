// The arithmetic of points: a vector is three f64 carried together, and each operation is rounded
// once, in the order of the source's vector.rs.
#![tactic(auto)]

ghost use Rattle.std.specs.Prelude.{◌≡◌};
ghost use Rattle.refusal.specs.Said.{option_said};
ghost use Rattle.vector.specs.Vectors.{vec, add_of, sub_of, mul_of, div_of, add_scalar_of, sub_scalar_of, mul_scalar_of, div_scalar_of, dot_of, cross_of, length_squared_of, distance_squared_of, equal_of};
ghost use Rattle.vector.specs.Lengths.{length_of, distance_of, unit_of, segment_distance_of};

pub mod matrix;
pub mod number;

// Two are equal where their coordinates compare equal: the source's `==`.
#[derive(Clone, Copy, Debug, PartialEq)]
pub struct Vector {
    pub x: f64,
    pub y: f64,
    pub z: f64,
}

impl Vector {
    pub fn new(x: f64, y: f64, z: f64) -> Vector
        ensures { result ≡ vec x y z }
    {
        Vector { x, y, z }
    }

    // Whether the coordinates compare equal: what `==` answers.
    #[tactic(auto, unfolding(crate::specs::Vectors::equal_of))]
    pub fn equal(self, other: Vector) -> bool
        ensures { result ≡ equal_of self other }
    {
        self == other
    }

    // The root of the sum of squares; NaN where that is NaN.
    pub fn length(self) -> f64
        ensures { result ≡ length_of self }
    {
        number::sqrt(self.length_squared()).unwrap_or(0.0 / 0.0)
    }

    pub fn distance(self, other: Vector) -> f64
        ensures { result ≡ distance_of self other }
    {
        self.sub(other).length()
    }

    pub fn length_squared(self) -> f64
        ensures { result ≡ length_squared_of self }
    {
        self.x * self.x + self.y * self.y + self.z * self.z
    }

    pub fn distance_squared(self, other: Vector) -> f64
        ensures { result ≡ distance_squared_of self other }
    {
        self.sub(other).length_squared()
    }

    pub fn dot(self, other: Vector) -> f64
        ensures { result ≡ dot_of self other }
    {
        self.x * other.x + self.y * other.y + self.z * other.z
    }

    pub fn cross(self, other: Vector) -> Vector
        ensures { result ≡ cross_of self other }
    {
        Vector {
            x: self.y * other.z - self.z * other.y,
            y: self.z * other.x - self.x * other.z,
            z: self.x * other.y - self.y * other.x,
        }
    }

    // Each coordinate over the length, none where the computed length is 0. The source stops there.
    pub fn normalize(self) -> Option<Vector>
        ensures { option_said result ≡ unit_of self }
    {
        let d = self.length();
        if d == 0.0 {
            return None;
        }
        Some(Vector {
            x: self.x / d,
            y: self.y / d,
            z: self.z / d,
        })
    }

    pub fn add(self, other: Vector) -> Vector
        ensures { result ≡ add_of self other }
    {
        Vector {
            x: self.x + other.x,
            y: self.y + other.y,
            z: self.z + other.z,
        }
    }

    pub fn sub(self, other: Vector) -> Vector
        ensures { result ≡ sub_of self other }
    {
        Vector {
            x: self.x - other.x,
            y: self.y - other.y,
            z: self.z - other.z,
        }
    }

    pub fn mul(self, other: Vector) -> Vector
        ensures { result ≡ mul_of self other }
    {
        Vector {
            x: self.x * other.x,
            y: self.y * other.y,
            z: self.z * other.z,
        }
    }

    pub fn div(self, other: Vector) -> Vector
        ensures { result ≡ div_of self other }
    {
        Vector {
            x: self.x / other.x,
            y: self.y / other.y,
            z: self.z / other.z,
        }
    }

    pub fn add_scalar(self, s: f64) -> Vector
        ensures { result ≡ add_scalar_of self s }
    {
        Vector {
            x: self.x + s,
            y: self.y + s,
            z: self.z + s,
        }
    }

    pub fn sub_scalar(self, s: f64) -> Vector
        ensures { result ≡ sub_scalar_of self s }
    {
        Vector {
            x: self.x - s,
            y: self.y - s,
            z: self.z - s,
        }
    }

    pub fn mul_scalar(self, s: f64) -> Vector
        ensures { result ≡ mul_scalar_of self s }
    {
        Vector {
            x: self.x * s,
            y: self.y * s,
            z: self.z * s,
        }
    }

    pub fn div_scalar(self, s: f64) -> Vector
        ensures { result ≡ div_scalar_of self s }
    {
        Vector {
            x: self.x / s,
            y: self.y / s,
            z: self.z / s,
        }
    }

    // The distance to the nearest point of the segment from v to w.
    #[tactic(auto, unfolding(crate::specs::Lengths::segment_distance_of))]
    pub fn segment_distance(self, v: Vector, w: Vector) -> f64
        ensures { result ≡ segment_distance_of self v w }
    {
        let l2 = v.distance_squared(w);
        if l2 == 0.0 {
            return self.distance(v);
        }
        let t = self.sub(v).dot(w.sub(v)) / l2;
        if t < 0.0 {
            return self.distance(v);
        }
        if t > 1.0 {
            return self.distance(w);
        }
        v.add(w.sub(v).mul_scalar(t)).distance(self)
    }
}
