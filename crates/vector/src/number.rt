// Floor, square root and absolute value, worked out here: the source takes them from the machine.
ghost use Rattle.std.specs.Prelude.{◌≡◌, ◌+◌, ◌*◌, ◌^◌, ◌<◌, ◌≤◌, true, false, [], ◌∷◌};
ghost use Rattle.vector.specs.Floor.{floor_of};
ghost use Rattle.std.specs.Float.{binary64, inf};
ghost use Rattle.std.specs.Float.Ieee.{lt, mul};
ghost use Rattle.refusal.specs.Said.{accepted, value_said};
ghost use Rattle.vector.specs.Root.{root_of};
ghost use Rattle.vector.specs.Lengths.{or_nan, zero64};
ghost use Rattle.vector.specs.InnerSteps.{Digits, slope_of, height_of, rough_of, heron_of, Close, Normal, NearestUnits};
ghost use Rattle.vector.specs.Units.{at};
ghost use Rattle.vector.specs.Abs.{abs_of};

use refusal::Refusal;

// The greatest whole number not above x, for a magnitude below 2^53.
pub fn floor(x: f64) -> Result<i64, Refusal>
    ensures { value_said result ≡ floor_of x }
{
    if x > -9007199254740992.0 {
        if x < 9007199254740992.0 {
            let t = std::num::truncating_f64_to_i64(x);
            if x < t as f64 {
                return Ok(t - 1);
            }
            return Ok(t);
        }
    }
    Err(Refusal::Number)
}

// The magnitude: the sign is cleared, that of -0 too.
pub fn abs(x: f64) -> f64
    ensures { result ≡ abs_of x }
{
    if x < 0.0 {
        return -x;
    }
    if x == 0.0 {
        return 0.0;
    }
    x
}

// A number d * 2^e, whose d has 53 binary digits.
#[derive(Clone, Copy)]
struct Scaled {
    d: u64,
    e: u64,
}

// The slope of the line near the root of n: 53 / 2^32 below 2^53, 75 / 2^33 from there on. Two numbers are picked, and not
// two ways gone: which of them it is cannot be foretold.
fn slope(n: u64) -> f64
    ensures { result ≡ slope_of n }
{
    if n < 0x20_0000_0000_0000 {
        return 0.00000001234002411365509033203125;
    }
    0.000000008731149137020111083984375
}

// The height at which that line begins.
fn height(n: u64) -> f64
    ensures { result ≡ height_of n }
{
    if n < 0x20_0000_0000_0000 {
        return 39845888.0;
    }
    56360960.0
}

// A rough root of n, by h, half of n rounded up: what the line has there.
fn rough(n: u64, h: f64) -> f64
    ensures { result ≡ rough_of n h }
{
    h * slope(n) + height(n)
}

// Heron's step towards the root of n, by h, half of n rounded up: the mean of r and of n divided by r.
fn heron(h: f64, r: f64) -> f64
    ensures { result ≡ heron_of h r }
{
    h / r + r / 2.0
}

// (The bounds of n, here and in the two functions below, are one fact: a type for them would be made and taken apart in every root.)
// The whole number nearest to what two of Heron's steps make of the rough root: the whole part of the root of n, or 1
// above. Where 2^52 is added, the last digits of the pattern are that number.
fn near_root(n: u64) -> u64
    requires { (2 ^ 52 ≤ n) × (n < 2 ^ 54) }
    ensures { Close n result }
{
    let h = ((n + 1) / 2) as f64;
    let once = heron(h, rough(n, h));
    let twice = heron(h, once);
    f64::to_bits(twice + 4503599627370496.0) % 0x1000_0000
}

// The whole part of the root of n: one comparison of squares settles it.
fn whole_root(n: u64) -> u64
    requires { (2 ^ 52 ≤ n) × (n < 2 ^ 54) }
    ensures { Digits n result }
{
    let r = near_root(n);
    if n < r * r {
        return r - 1;
    }
    r
}

// The whole part of the root of n * 2^54: s, that of n, is the first half of its digits. The other half, q, comes
// by a division: it takes (2 * s * 2^27 + q) * q of what is left, (n - s * s) * 2^54, and may come out 1 too large.
fn digits(n: u64) -> u64
    requires { (2 ^ 52 ≤ n) × (n < 2 ^ 54) }
    ensures { (result < 2 ^ 54) × Digits (n * 2 ^ 54) result }
{
    let s = whole_root(n);
    let rest = (n - s * s) * 0x800_0000;
    let q = rest / (2 * s);
    if rest % (2 * s) * 0x800_0000 < q * q {
        return s * 0x800_0000 + q - 1;
    }
    s * 0x800_0000 + q
}

// The digits and the exponent of a positive number by its pattern, with an exponent that is 1024
// too large for units of the smallest number. The digits of a subnormal are moved up at once, by the zeros before them.
fn split(b: u64) -> Scaled
    requires { (0 < b) × (b < 2047 * 2 ^ 52) }
    ensures { Normal (at b) result.d result.e }
{
    let f = b / 0x10_0000_0000_0000;
    let t = b % 0x10_0000_0000_0000;
    if 0 < f {
        return Scaled {
            d: t + 0x10_0000_0000_0000,
            e: f + 1023,
        };
    }
    let z = u64::leading_zeros(t) as u64 - 11;
    Scaled {
        d: t << z,
        e: 1024 - z,
    }
}

// The pattern of the root of a number next to 1.0, by the number's pattern: half as far from that of 1.0, rounded down.
// The square of what is half as far is larger by the square of the distance, too little for the last place.
fn root_bits_near_one(b: u64) -> u64
    requires { (1023 * 2 ^ 52 ≤ b + 2 ^ 26) × (b < 1023 * 2 ^ 52 + 2 ^ 26) }
    ensures { (result < 2047 * 2 ^ 52) × NearestUnits (at b) (at result) }
{
    (b + 0x3ff0_0000_0000_0000) / 2
}

// The pattern of the root of a positive number, by the number's pattern: half the exponent, and
// the digits of the root with one more than fit, rounded. Halfway never happens. Within 2^26 patterns of 1.0,
// as for a vector that was normalised before, no digits are needed.
fn root_bits(b: u64) -> u64
    requires { (0 < b) × (b < 2047 * 2 ^ 52) }
    ensures { (result < 2047 * 2 ^ 52) × NearestUnits (at b) (at result) }
{
    if (b + 0x400_0000) / 0x800_0000 == 0x7_fe00_0000 {
        return root_bits_near_one(b);
    }
    let s = split(b);
    let e = s.e;
    let n = s.d * (1 + e % 2); // an odd exponent takes one digit more
    (e / 2 - 1) * 0x10_0000_0000_0000 + (digits(n) + 1) / 2
}

// The f64 nearest to the root of a finite number above 0. It stays apart from the tests of those who call it.
#[inline(never)]
fn root_of(x: f64) -> f64
    requires { (lt zero64 x ≡ true) × (lt x (inf false) ≡ true) }
    ensures { accepted (result ∷ []) ≡ root_of x }
{
    f64::from_bits(root_bits(f64::to_bits(x)))
}

// The f64 nearest to the root of x; zeros and infinity are their own roots. Its tests go into its callers, so that none of them reads the
// answer back from memory.
#[inline(always)]
pub fn sqrt(x: f64) -> Result<f64, Refusal>
    ensures { value_said result ≡ root_of x }
{
    if x > 0.0 {
        if x < 1.0 / 0.0 {
            return Ok(root_of(x));
        }
        return Ok(x);
    }
    if x == 0.0 {
        return Ok(x);
    }
    Err(Refusal::Number)
}

// The root, NaN where there is none.
pub fn root_or_nan(x: f64) -> f64
    ensures { result ≡ or_nan (root_of x) }
{
    sqrt(x).unwrap_or(0.0 / 0.0)
}

// Whether x is so far above y, by three f64 or more, that its root must be above that of y.
fn far_above(x: f64, y: f64) -> bool
    requires { lt y x ≡ true }
    ensures { result ≡ true → lt (or_nan (root_of y)) (or_nan (root_of x)) ≡ true }
{
    if y > 0.0 {
        if 1.0 / 0.0 > x {
            return f64::to_bits(y) + 3 <= f64::to_bits(x);
        }
        return false;
    }
    y == 0.0
}

// Whether the root of x is above that of y. The roots are worked out only where x is hardly above y.
pub fn root_above(x: f64, y: f64) -> bool
    ensures { result ≡ lt (or_nan (root_of y)) (or_nan (root_of x)) }
{
    if !(x > y) {
        return false;
    }
    if far_above(x, y) {
        return true;
    }
    root_or_nan(x) > root_or_nan(y)
}

// Whether t times t keeps enough digits for its root to be t.
fn squares_well(t: f64) -> bool
    ensures { result ≡ true → or_nan (root_of (mul binary64 t t)) ≡ t }
{
    if t > 0.0 {
        if 1.0 / 0.0 > t {
            let b = f64::to_bits(t);
            if 0x21a0_0000_0000_0000 <= b {
                return b < 0x4b00_0000_0000_0000;
            }
        }
    }
    false
}

// Whether the root of x is above t. It is worked out only where x is hardly above t times t.
pub fn root_exceeds(x: f64, t: f64) -> bool
    ensures { result ≡ lt t (or_nan (root_of x)) }
{
    if squares_well(t) {
        return root_above(x, t * t);
    }
    root_or_nan(x) > t
}
