// Which edges a mode keeps, by the faces of an edge and what was stored of them.
#![tactic(auto)]

ghost use Rattle.std.specs.Prelude.{◌≡◌, false};
ghost use Rattle.vector.specs.Lengths.{zero64};
ghost use Rattle.mesh_mode.specs.declared.Mode.TheVariants.{Polygonal, Silhouette};
ghost use Rattle.mesh_keep.specs.Keep.{turn_of, some_turns, crease_of, ends_of, two_kept as two_kept_of, kept_by, faces_of, seen_in};

use mesh_mode::Mode;
use mesh_seen::{facing_at, normal_at};
use vector::number::abs;

// The magnitude of the cosine between two faces.
fn turn(seen: &[f64], f: u32, g: u32) -> f64
    ensures { result ≡ turn_of (seen_in seen.now) f g }
{
    abs(normal_at(seen, f).dot(normal_at(seen, g)))
}

// Whether some of the faces of these sides turns away from face f.
fn some_turns(seen: &[f64], sides: &[u32], f: u32, tolerance: f64) -> bool
    ensures { result ≡ some_turns (seen_in seen.now) tolerance f (faces_of sides.now) }
{
    for side in sides {
        if turn(seen, f, *side / 3) < 1.0 - tolerance {
            return true;
        }
    }
    false
}

// Whether two faces meet in a crease: a cosine is asked for, and theirs is not above it.
fn is_crease(seen: &[f64], cos_theta: f64, f: u32, g: u32) -> bool
    ensures { result ≡ crease_of (seen_in seen.now) cos_theta f g }
{
    if cos_theta > 0.0 {
        return !(turn(seen, f, g) > cos_theta);
    }
    false
}

// Whether the eye sees one of two faces and not the other; or, where they are flipped, both or none.
fn ends_here(flip: bool, dots: f64) -> bool
    ensures { result ≡ ends_of flip dots }
{
    if flip {
        return dots >= 0.0;
    }
    dots <= 0.0
}

// Whether the edge of two faces is kept in a silhouette.
fn two_kept(seen: &[f64], flip: bool, cos_theta: f64, f: u32, g: u32) -> bool
    ensures { result ≡ two_kept_of (seen_in seen.now) flip cos_theta f g }
{
    if is_crease(seen, cos_theta, f, g) {
        return true;
    }
    ends_here(flip, facing_at(seen, f) * facing_at(seen, g))
}

// Whether a polygonal drawing keeps the edge of these sides.
fn polygonal_kept(seen: &[f64], sides: &[u32], tolerance: f64) -> bool
    ensures { result ≡ kept_by Polygonal (seen_in seen.now) false tolerance (faces_of sides.now) }
{
    if sides.len() < 2 {
        return true;
    }
    some_turns(seen, &sides[1..], sides[0] / 3, tolerance)
}

// Whether a silhouette keeps the edge of these sides.
fn silhouette_kept(seen: &[f64], sides: &[u32], flip: bool, cos_theta: f64) -> bool
    ensures { result ≡ kept_by (Silhouette cos_theta) (seen_in seen.now) flip zero64 (faces_of sides.now) }
{
    if sides.len() != 2 {
        return true;
    }
    two_kept(seen, flip, cos_theta, sides[0] / 3, sides[1] / 3)
}

// Whether a mode keeps the edge of these sides; whether its two faces are flipped is handed in.
#[tactic(auto, unfolding(crate::specs::Keep::kept_by), using(crate::proofs::Keeps::any_flip, crate::proofs::Keeps::any_tolerance))]
pub fn kept(mode: Mode, seen: &[f64], sides: &[u32], flip: bool, tolerance: f64) -> bool
    ensures { result ≡ kept_by mode (seen_in seen.now) flip tolerance (faces_of sides.now) }
{
    match mode {
        Mode::Triangles => true,
        Mode::Polygonal => polygonal_kept(seen, sides, tolerance),
        Mode::Silhouette(cos_theta) => silhouette_kept(seen, sides, flip, cos_theta),
    }
}
