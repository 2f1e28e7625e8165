// The ends of strokes. What splicing strokes by their ends comes to is said in specs/Splice, and what holds of it in specs/Demand.
#![tactic(auto)]

ghost use Rattle.std.specs.Prelude.{◌≡◌, ◌%◌, eqb};
ghost use Rattle.path_splice_rule.specs.Splice.{end_on, stroke_of, side_of, opposite as opposite_of};

// An end of a stroke, by its number: 2 i is the first of stroke i, 2 i + 1 its last.
#[derive(Clone, Copy, Debug, PartialEq, Eq)]
pub struct Endpoint(pub usize);

impl Endpoint {
    // The first or the last end of a stroke.
    pub fn new(path_id: u32, is_last: bool) -> Endpoint
        ensures { result.0 ≡ end_on path_id is_last }
    {
        let first = path_id as usize * 2;
        if is_last {
            return Endpoint(first + 1);
        }
        Endpoint(first)
    }

    // The number of its stroke.
    pub fn path_id(self) -> usize
        ensures { result ≡ stroke_of self.0 }
    {
        self.0 / 2
    }

    // Whether it is its stroke's last.
    pub fn is_last(self) -> bool
        ensures { result ≡ eqb (side_of self.0) 1 }
    {
        self.0 % 2 == 1
    }

    // The other end of its stroke.
    pub fn opposite(self) -> Endpoint
        ensures { result.0 ≡ opposite_of self.0 }
    {
        if self.0 % 2 == 0 {
            return Endpoint(self.0 + 1);
        }
        Endpoint(self.0 - 1)
    }
}
