// The mode of a drawing, and the numbers that stand for one: those that C and a sheet have.
#![tactic(auto)]

ghost use Rattle.std.specs.Prelude.{◌≡◌};
ghost use Rattle.refusal.specs.Said.{value_said};
ghost use Rattle.mesh_mode.specs.Modes.{needs_of, meant as meant_by, mode_by, mode_of};

use refusal::Refusal;

// What is drawn of a mesh: all edges; those where faces turn; those where what is seen of the mesh ends, with the least cosine
// at which an edge is no crease.
#[derive(Clone, Copy, Debug, PartialEq)]
pub enum Mode {
    Triangles,
    Polygonal,
    Silhouette(f64),
}

// What a mode needs of a mesh: normals, so that no face may be flat; the list of flips.
#[derive(Clone, Copy, Debug, PartialEq, Eq)]
pub struct Needs {
    pub normals: bool,
    pub flips: bool,
}

// What each mode needs: a row a mode, and no other place tells the modes apart but the rules of keeping.
pub fn needs_of(mode: Mode) -> Needs
    ensures { result ≡ needs_of mode }
{
    match mode {
        Mode::Triangles => Needs {
            normals: false,
            flips: false,
        },
        Mode::Polygonal => Needs {
            normals: true,
            flips: false,
        },
        Mode::Silhouette(_) => Needs {
            normals: true,
            flips: true,
        },
    }
}

// The number that a mode number stands for: 0, where nobody says a mode, for polygonal.
pub fn meant(number: u32) -> u32
    ensures { result ≡ meant_by number }
{
    if number == 0 {
        return 2;
    }
    number
}

// The mode of a number that is said.
#[tactic(auto, using(crate::proofs::Modes::no_mode))]
fn mode_by(number: u32, cos_theta: f64) -> Result<Mode, Refusal>
    ensures { value_said result ≡ mode_by number cos_theta }
{
    match number {
        1 => Ok(Mode::Triangles),
        2 => Ok(Mode::Polygonal),
        3 => Ok(Mode::Silhouette(cos_theta)),
        _ => Err(Refusal::Number),
    }
}

// The mode that a number stands for, where the cosine is a number, which is tested even where the mode has none.
#[tactic(auto, unfolding(crate::specs::Modes::mode_of))]
pub fn mode_of(number: u32, cos_theta: f64) -> Result<Mode, Refusal>
    ensures { value_said result ≡ mode_of number cos_theta }
{
    if cos_theta == cos_theta {
        return mode_by(meant(number), cos_theta);
    }
    Err(Refusal::Number)
}
