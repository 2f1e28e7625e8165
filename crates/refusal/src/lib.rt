// Why a call is refused: the refusals, their numbers, and the limits that they guard.
#![tactic(auto)]

ghost use Rattle.std.specs.Prelude.{◌≡◌};
ghost use Rattle.refusal.specs.Refusals.{number_of, carried_by};
ghost use Rattle.refusal.specs.Said.{accepted, option_said};

// The most of each that a call takes.
pub const MOST_FACES: usize = 65536;

pub const MOST_VERTICES: usize = 196608;

pub const MOST_STROKES: usize = 196608;

pub const MOST_POINTS: usize = 1048576;

pub const MOST_TO_SIMPLIFY: usize = 4096;

// The refusals, in the order of their numbers: the error of every call that can refuse. Two of them carry the face at fault.
#[derive(Clone, Copy, Debug, PartialEq, Eq)]
pub enum Refusal {
    Shape,
    Count,
    Vertex,
    Number,
    Scratch,
    Room,
    Alike(u32),
    Deep,
    Sheet,
    NoLength(u32),
    Stl,
}

// The number of a refusal, as the C functions answer it; everywhere else a refusal is the enum.
pub fn number(r: Refusal) -> u32
    ensures { result ≡ number_of r }
{
    match r {
        Refusal::Shape => 1,
        Refusal::Count => 2,
        Refusal::Vertex => 3,
        Refusal::Number => 4,
        Refusal::Scratch => 5,
        Refusal::Room => 6,
        Refusal::Alike(_) => 7,
        Refusal::Deep => 8,
        Refusal::Sheet => 9,
        Refusal::NoLength(_) => 10,
        Refusal::Stl => 11,
    }
}

// The face that a refusal carries, if it carries one.
pub fn carried_by(r: Refusal) -> Option<u32>
    ensures { option_said result ≡ accepted (carried_by r) }
{
    match r {
        Refusal::Shape => None,
        Refusal::Count => None,
        Refusal::Vertex => None,
        Refusal::Number => None,
        Refusal::Scratch => None,
        Refusal::Room => None,
        Refusal::Alike(face) => Some(face),
        Refusal::Deep => None,
        Refusal::Sheet => None,
        Refusal::NoLength(face) => Some(face),
        Refusal::Stl => None,
    }
}
