// The notes on a stroke while it is thinned: what is kept of it, by places, and how many distances were measured.
ghost use Rattle.std.specs.Prelude.{◌≡◌, ◌+◌, ◌≤◌, ◌<◌, length, set};
ghost use Rattle.refusal.specs.Limits.{most_to_simplify};

use refusal::MOST_TO_SIMPLIFY;

// How many distances were measured, how many points are kept, and their places: there is one for each point of the longest stroke.
#[derive(Drop)]
pub(crate) struct Notes {
    pub(crate) distances: usize,
    pub(crate) count: usize,
    pub(crate) places: [usize; MOST_TO_SIMPLIFY],
    pub ghost long: { length places ≡ most_to_simplify },
    pub ghost within: { count ≤ most_to_simplify },
}

impl Notes {
    // Begins the notes on a stroke: no distance measured, no place kept.
    pub(crate) fn clear(&mut self)
        ensures { (self.new.distances ≡ 0) × (self.new.count ≡ 0) }
    {
        self.distances = 0;
        self.count = 0;
    }

    // Notes that d distances more were measured.
    pub(crate) fn measure(&mut self, d: usize)
        requires { self.old.distances + d ≤ 4294967296 }
        ensures { (self.new.distances ≡ self.old.distances + d) × (self.new.count ≡ self.old.count) × (self.new.places ≡ self.old.places) }
    {
        self.distances += d;
    }

    // Notes that the point at place i is kept.
    pub(crate) fn note(&mut self, i: usize)
        requires { self.old.count < most_to_simplify }
        ensures { (self.new.distances ≡ self.old.distances) × (self.new.count ≡ self.old.count + 1) × (self.new.places ≡ set self.old.places self.old.count i) }
    {
        self.places[self.count] = i;
        self.count += 1;
    }
}
