// The numbers of single precision: what a pattern of 32 bits stands for, and which f64 have such a pattern.
#![tactic(auto)]

ghost use Rattle.std.specs.Prelude.{◌≡◌, Bool, ◌^◌, ◌<◌};
ghost use Rattle.std.specs.Float.{binary32, binary64};
ghost use Rattle.std.specs.Float.Ieee.{fits, of_fields};
ghost use Rattle.single.specs.Singles.{is_single, pattern_of, value_of};

// The number of an f32's pattern. Every NaN's gives the one NaN, since `from_bits` is not defined there.
pub fn value(pattern: u32) -> f64
    ensures { result ≡ value_of pattern }
{
    if pattern % 0x8000_0000 > 0x7f80_0000 {
        return 0.0 / 0.0;
    }
    f32::from_bits(pattern) as f64
}

// Whether the f64 of an exponent's field and digits is an f32: at most 24 digits, none below 2^-149, and all below 2^128; or infinite.
fn narrow(field: u64, digits: u64) -> bool
    requires { (field < 2048) × (digits < 2 ^ 52) }
    ensures { (s : Bool) → result ≡ fits binary32 (of_fields binary64 s field digits) }
{
    if field == 2047 {
        return true;
    }
    if field == 0 {
        return digits == 0;
    }
    let zeros = u64::trailing_zeros(0x10_0000_0000_0000 + digits) as u64;
    if zeros < 29 {
        #[tactic(auto, using(crate::proofs::Held::too_long))]
        return false;
    }
    if field + zeros < 926 {
        #[tactic(auto, using(crate::proofs::Held::too_fine))]
        return false;
    }
    field < 1151
}

// Whether a number is exactly an f32; NaN counts as one. It is read off the pattern, since no cast rounds.
pub fn is_single(x: f64) -> bool
    ensures { result ≡ is_single x }
{
    if x == x {
        let bits = f64::to_bits(x);
        return narrow(
            bits % 0x8000_0000_0000_0000 / 0x10_0000_0000_0000,
            bits % 0x10_0000_0000_0000,
        );
    }
    true
}

// The pattern of a number that is exactly an f32 and no NaN, else 0, so that nothing is rounded.
pub fn pattern(x: f64) -> u32
    ensures { result ≡ pattern_of x }
{
    if x == x {
        if is_single(x) {
            return f32::to_bits(x as f32);
        }
    }
    0
}
