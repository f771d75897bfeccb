// Doubles (document 01, module 1): what the Rust takes from its standard library for f64, written
// out. Every function takes every bit pattern; there is one NaN.
#![tactic(auto)]

mod root;

ghost use Rattle.std.specs.Prelude.{◌≡◌, false, from_bits, to_bits};
ghost use Rattle.std.specs.Float.{inf, binary64};
ghost use Rattle.std.specs.Float.Ieee.{to_unsigned};
ghost use Rattle.doubles.specs.Doubles.{abs_of, clamp_of, max_zero_of, is_finite_of, exceeds_of, is_under_of, is_within_of};

pub use root::{root_elsewhere, sqrt};

// The double of a bit pattern. Every NaN pattern gives the one NaN.
#[tactic(auto, using(crate::proofs::Floats::nan_pattern, crate::proofs::Floats::no_nan_pattern, crate::proofs::Floats::zero_by_zero))]
pub fn from_bits(b: u64) -> f64
    ensures { result ≡ from_bits binary64 b }
{
    if b % 0x8000_0000_0000_0000 > 0x7ff0_0000_0000_0000 {
        return 0.0 / 0.0;
    }
    f64::from_bits(b)
}

// The bit pattern of a double. The pattern of NaN is 0x7ff8_0000_0000_0000.
pub fn to_bits(x: f64) -> u64
    ensures { result ≡ to_bits binary64 x }
{
    if x != x {
        return 0x7ff8_0000_0000_0000;
    }
    f64::to_bits(x)
}

// `x.abs()`: the sign cleared.
pub fn abs(x: f64) -> f64
    ensures { result ≡ abs_of x }
{
    if x != x {
        return x;
    }
    f64::from_bits(f64::to_bits(x) % 0x8000_0000_0000_0000)
}

// `x.abs() > h`, without a test for NaN.
#[tactic(auto, using(crate::proofs::Sizes::exceeds_first, crate::proofs::Sizes::exceeds_then))]
pub fn exceeds(x: f64, h: f64) -> bool
    ensures { result ≡ exceeds_of x h }
{
    if x > h {
        return true;
    }
    x < -h
}

// `x.abs() < h`.
#[tactic(auto, using(crate::proofs::Sizes::under_first, crate::proofs::Sizes::under_not))]
pub fn is_under(x: f64, h: f64) -> bool
    ensures { result ≡ is_under_of x h }
{
    if x < h {
        return x > -h;
    }
    false
}

// `x.abs() <= h`.
#[tactic(auto, using(crate::proofs::Sizes::within_first, crate::proofs::Sizes::within_not))]
pub fn is_within(x: f64, h: f64) -> bool
    ensures { result ≡ is_within_of x h }
{
    if x <= h {
        return x >= -h;
    }
    false
}

// `x.clamp(lo, hi)`: keeps NaN, and keeps -0 between 0 and 1. Where lo is above hi or one of them
// is NaN the Rust panics; here the same two tests go on.
#[tactic(auto, unfolding(crate::specs::Doubles::clamp_of))]
pub fn clamp(x: f64, lo: f64, hi: f64) -> f64
    ensures { result ≡ clamp_of x lo hi }
{
    if x < lo {
        return lo;
    }
    if x > hi {
        return hi;
    }
    x
}

// `x.max(0.0)`: +0 for NaN and for -0.
#[tactic(auto, unfolding(crate::specs::Doubles::max_zero_of))]
pub fn max_zero(x: f64) -> f64
    ensures { result ≡ max_zero_of x }
{
    if x > 0.0 {
        return x;
    }
    0.0
}

// `x.is_finite()`.
#[tactic(auto, using(crate::proofs::Small::finite_is))]
pub fn is_finite(x: f64) -> bool
    ensures { result ≡ is_finite_of x }
{
    x - x == 0.0
}

// `x as usize`: the fraction dropped, 0 for NaN and below 0, and the largest usize from 2^64 on.
pub fn to_usize(x: f64) -> usize
    ensures { result ≡ to_unsigned 64 x }
{
    if x > -1.0 {
        if x < 18446744073709551616.0 {
            return std::num::truncating_f64_to_u64(x) as usize;
        }
        return 0xffff_ffff_ffff_ffff;
    }
    0
}

// The positive infinity. A constant cannot hold it.
pub fn infinity() -> f64
    ensures { result ≡ inf false }
{
    1.0 / 0.0
}
