// A matrix of sixteen f64, of the source's matrix.rs: what `chop_adaptive` needs of it.
ghost use Rattle.std.specs.Prelude.{◌≡◌};
ghost use Rattle.vector.specs.Matrices.{mul_position_w_of};

use crate::Vector;

#[derive(Clone, Copy)]
pub struct Matrix {
    pub x00: f64,
    pub x01: f64,
    pub x02: f64,
    pub x03: f64,
    pub x10: f64,
    pub x11: f64,
    pub x12: f64,
    pub x13: f64,
    pub x20: f64,
    pub x21: f64,
    pub x22: f64,
    pub x23: f64,
    pub x30: f64,
    pub x31: f64,
    pub x32: f64,
    pub x33: f64,
}

impl Matrix {
    // A position with perspective divide; where w is 0 the quotients are infinities or NaN.
    pub fn mul_position_w(self, b: Vector) -> Vector
        ensures { result ≡ mul_position_w_of self b }
    {
        let x = self.x00 * b.x + self.x01 * b.y + self.x02 * b.z + self.x03;
        let y = self.x10 * b.x + self.x11 * b.y + self.x12 * b.z + self.x13;
        let z = self.x20 * b.x + self.x21 * b.y + self.x22 * b.z + self.x23;
        let w = self.x30 * b.x + self.x31 * b.y + self.x32 * b.z + self.x33;
        Vector::new(x / w, y / w, z / w)
    }
}
