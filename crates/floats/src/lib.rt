// Float helpers: finite test, clamp, f32 to f64 and back, square root, the f32 of a bit pattern.
// Each answers every input, by whole-number arithmetic on bit patterns where IEEE 754 rounds, so every machine gives the same bits.
#![tactic(auto)]

ghost use Rattle.std.specs.Prelude.{◌≡◌, ℕ, ◌+◌, ◌*◌, ◌^◌, ◌<◌, ◌≤◌, ◌==◌, Float, from_bits, to_bits};
ghost use Rattle.std.specs.Float.{Format, binary32, binary64};
ghost use Rattle.std.specs.Float.Ieee.Nearest.{closest};
ghost use Rattle.std.specs.Float.Ieee.Scale.{finite};
ghost use Rattle.floats.specs.Clamp.{clamp_of};
ghost use Rattle.floats.specs.Convert.{convert};
ghost use Rattle.floats.specs.Sqrt.{sqrt, root_of};
ghost use Rattle.floats.specs.Parts.{Narrowed, Rooted};

// A float type of IEEE 754, with the whole numbers that hold its bit patterns.
pub trait Binary: Copy {
    type Bits;

    // Its format, and what a value and a pattern of it stand for.
    ghost format: { Format };

    ghost value: { Self → Float };

    ghost pattern: { Self.Bits → ℕ };

    fn is_finite(self) -> bool
        ensures { result ≡ finite (value self) };

    fn from_bits(bits: Self::Bits) -> Self
        ensures { value result ≡ from_bits format (pattern bits) };

    fn to_bits(self) -> Self::Bits
        ensures { pattern result ≡ to_bits format (value self) };
}

impl Binary for f32 {
    type Bits = u32;

    ghost format = { binary32 };

    ghost value = { λ x. x };

    ghost pattern = { λ bits. bits };

    #[tactic(auto, using(crate::proofs::Infinities::finite_is))]
    fn is_finite(self) -> bool {
        f32::is_finite(self)
    }

    fn from_bits(bits: u32) -> f32 {
        std::num::f32_from_bits_with_nan(bits)
    }

    fn to_bits(self) -> u32 {
        std::num::f32_to_bits_with_nan(self)
    }
}

impl Binary for f64 {
    type Bits = u64;

    ghost format = { binary64 };

    ghost value = { λ x. x };

    ghost pattern = { λ bits. bits };

    #[tactic(auto, using(crate::proofs::Infinities::finite_is))]
    fn is_finite(self) -> bool {
        f64::is_finite(self)
    }

    fn from_bits(bits: u64) -> f64 {
        std::num::f64_from_bits_with_nan(bits)
    }

    fn to_bits(self) -> u64 {
        std::num::f64_to_bits_with_nan(self)
    }
}

// Is x no NaN and no infinity?
pub fn is_finite<F: Binary>(x: F) -> bool
    ensures { result ≡ finite (F.value x) }
{
    x.is_finite()
}

// The float of a bit pattern; every pattern of a NaN gives the NaN.
pub fn from_bits<F: Binary>(bits: F::Bits) -> F
    ensures { F.value result ≡ from_bits F.format (F.pattern bits) }
{
    F::from_bits(bits)
}

// The bit pattern of a float; of a NaN the quiet one with a clear sign.
pub fn to_bits<F: Binary>(x: F) -> F::Bits
    ensures { F.pattern result ≡ to_bits F.format (F.value x) }
{
    x.to_bits()
}

// x brought into 0..1; a NaN stays.
#[tactic(auto, unfolding(crate::specs::Clamp::clamp_of))]
pub fn clamp01(x: f32) -> f32
    ensures { result ≡ clamp_of x }
{
    x.clamp(0.0, 1.0)
}

// The same number as an f64; a NaN stays a NaN.
pub fn widen(x: f32) -> f64
    ensures { result ≡ x }
{
    f64::from(x)
}

// Is the f32 of a bit pattern finite?
pub fn bits_finite(bits: u32) -> bool
    ensures { result ≡ finite (from_bits binary32 bits) }
{
    is_finite(from_bits::<f32>(bits))
}

// The pattern of an f64: its sign, infinity, and the bit above its digits, by which the next exponent is away. Of an f32: SINGLE.
const SIGN: u64 = 0x8000_0000_0000_0000;

const INFINITY: u64 = 0x7ff0_0000_0000_0000;

const HIDDEN_BIT: u64 = 0x10_0000_0000_0000;

const SINGLE_SIGN: u64 = 0x8000_0000;

const SINGLE_INFINITY: u64 = 0x7f80_0000;

const SINGLE_HIDDEN_BIT: u64 = 0x80_0000;

// Exponents in an f64: of the least normal f32, one below which the nearest f32 is 0, and of the first number past every f32.
const SINGLE_NORMAL: u64 = 897;

const SINGLE_ZERO: u64 = 872;

const SINGLE_PAST: u64 = 1151;

// How many digits more an f64 has.
const DIGITS_MORE: u64 = 29;

// a / 2^h to the nearest whole number, a tie to the even one.
fn nearest(a: u64, h: u64) -> u64
    requires h_nonzero { 0 < h }
    requires h_bound { h < 64 }
    ensures { result ≡ closest a (2 ^ h) }
{
    let d = 1u64 << h;
    let q = a >> h;
    let t = (a & (d - 1)) * 2;
    if t < d {
        return q;
    }
    if t > d {
        return q + 1;
    }
    q + q % 2
}

// The pattern of an f64 without its sign, no NaN's, as that of the nearest f32.
fn narrow_magnitude(m: u64) -> u64
    requires { m ≤ 0x7ff0_0000_0000_0000 }
    ensures { Narrowed m result }
{
    let e = m >> 52;
    let g = m % HIDDEN_BIT + HIDDEN_BIT;
    if e < SINGLE_ZERO {
        return 0;
    }
    if e < SINGLE_NORMAL {
        return nearest(g, SINGLE_NORMAL + DIGITS_MORE - e);
    }
    if e < SINGLE_PAST {
        let q = nearest(g, DIGITS_MORE);
        return (e - SINGLE_NORMAL) * SINGLE_HIDDEN_BIT + q;
    }
    SINGLE_INFINITY
}

// x to the nearest f32, a tie to the even one. No `From`, since it rounds.
pub fn narrow(x: f64) -> f32
    ensures { result ≡ convert binary32 x }
{
    if x.is_nan() {
        return f32::NAN;
    }
    let b = f64::to_bits(x);
    if b < SIGN {
        let r = narrow_magnitude(b);
        return f32::from_bits(r as u32);
    }
    let r = narrow_magnitude(b - SIGN);
    f32::from_bits((r + SINGLE_SIGN) as u32)
}

// A whole root and what its square leaves.
#[derive(Clone, Copy)]
struct Digits {
    q: u64,
    r: u64,
}

// The whole root of a * 2^44 and what its square leaves, two binary digits of the radicand at a time.
fn root_digits(a: u64) -> Digits
    ensures { Rooted a result.q result.r }
{
    let mut q = 0u64;
    let mut r = 0u64;
    let mut w = a;
    for _ in 0..54u64 {
        let t = r * 4 + (w >> 62);
        let s = q * 4 + 1;
        w <<= 2;
        if t < s {
            r = t;
            q = q * 2;
        } else {
            r = t - s;
            q = q * 2 + 1;
        }
    }
    Digits { q, r }
}

// The pattern of the root of g * 2^e smallest values.
fn root_scaled(g: u64, e: u64) -> u64
    requires g_nonzero { 0 < g }
    requires g_bound { g < 2 ^ 53 }
    requires e_bound { e ≤ 2045 }
    ensures { from_bits binary64 result ≡ root_of binary64 (g * 2 ^ (e + 1074)) }
{
    let z = u64::leading_zeros(g) as u64;
    let h = z - (e + z) % 2;
    let a = g << h;
    let d = root_digits(a);
    let k = (e + 1032 - h) / 2;
    let halves = d.q * 2 + u64::from(d.r != 0);
    k * HIDDEN_BIT + nearest(halves, 2)
}

// The pattern of the root of a positive finite f64, by its pattern.
fn root_positive(b: u64) -> u64
    requires b_nonzero { 0 < b }
    requires b_bound { b < 0x7ff0_0000_0000_0000 }
    ensures { from_bits binary64 result ≡ sqrt binary64 (from_bits binary64 b) }
{
    let e = b >> 52;
    let t = b % HIDDEN_BIT;
    if e == 0 {
        return root_scaled(t, 0);
    }
    root_scaled(t + HIDDEN_BIT, e - 1)
}

// The f64 nearest to the square root of x, a tie to the even one.
pub fn root(x: f64) -> f64
    ensures { result ≡ sqrt binary64 x }
{
    if x.is_nan() {
        return f64::NAN;
    }
    let b = f64::to_bits(x);
    if b == 0 {
        return 0.0;
    }
    if b < INFINITY {
        return f64::from_bits(root_positive(b));
    }
    if b <= SIGN {
        return x;
    }
    f64::NAN
}
