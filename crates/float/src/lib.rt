// Rust's exactly rounded `mul_add` and `sqrt` of f32 (document 01, 'Float helpers'), worked out in whole numbers from the bits; `mul_add` by the processor's f64
// first, which settles nearly every result, and the root from a guess in f64 that is tested. And the roundings to whole numbers that settings and rows need.

#![tactic(auto)]

mod bits;
mod fused;
mod narrow;
pub mod quick;
mod root;
mod rounding;
pub mod whole;

ghost use Rattle.std.specs.Prelude.{◌≡◌, from_bits, to_bits};
ghost use Rattle.std.specs.Float.{binary32};
ghost use Rattle.std.specs.Float.Ieee.Scale.{finite};
ghost use Rattle.float.specs.Finite.{or_else, or_zero};
ghost use Rattle.float.specs.Fused.{fused_of};
ghost use Rattle.float.specs.Root.{root_of};

use std::num::{f32_from_bits_with_nan, f32_to_bits_with_nan};

// The number, and 0 for the word: for callers whose bounds rule the word out.
pub fn or_zero(r: Option<f32>) -> f32
    ensures { result ≡ or_zero r }
{
    r.unwrap_or(0.0)
}

// Neither an infinity nor a NaN.
#[tactic(auto, using(crate::proofs::Words::finite_is))]
pub fn is_finite(x: f32) -> bool
    ensures { result ≡ finite x }
{
    x.is_finite()
}

// The float of a pattern; every NaN's pattern is one NaN.
pub fn from_bits(bits: u32) -> f32
    ensures { result ≡ from_bits binary32 bits }
{
    f32_from_bits_with_nan(bits)
}

// The pattern of a float; a NaN's is 0x7fc0_0000.
pub fn to_bits(x: f32) -> u32
    ensures { result ≡ to_bits binary32 x }
{
    f32_to_bits_with_nan(x)
}

// a * b + c, rounded once, or another number where there is none: where an operand is not finite, or where the rounded result overflows.
// A float, and not an `Option`: a function hands that over through memory, and the filter waits for each result.
pub fn mul_add_or(a: f32, b: f32, c: f32, other: f32) -> f32
    ensures { result ≡ or_else other (fused_of a b c) }
{
    narrow::settled(a, b, c).unwrap_or_else(|| whole_mul_add(a, b, c).unwrap_or(other))
}

pub fn mul_add(a: f32, b: f32, c: f32) -> Option<f32>
    ensures { result ≡ fused_of a b c }
{
    narrow::settled(a, b, c).or_else(|| whole_mul_add(a, b, c))
}

// The same in whole numbers: where the f64 is a middle of two f32, an overflow in f32, or below 2^-159.
fn whole_mul_add(a: f32, b: f32, c: f32) -> Option<f32>
    ensures { result ≡ fused_of a b c }
{
    let x = to_bits(a);
    let y = to_bits(b);
    let z = to_bits(c);
    if bits::field(x) == 255 || bits::field(y) == 255 || bits::field(z) == 255 {
        return None;
    }
    fused::fused_bits(x, y, z)
}

// The square root of x, rounded once. There is none where x is negative or not finite; the root of -0 is -0.
pub fn sqrt(x: f32) -> Option<f32>
    ensures { result ≡ root_of x }
{
    let b = to_bits(x);
    if bits::field(b) == 255 {
        return None;
    }
    if bits::significand(b) == 0 {
        return Some(x);
    }
    if bits::negative(b) {
        return None;
    }
    root::positive_root(b)
}
