// The door for C and Rust: the detector, the filter, the detector's settings, and the arithmetic and the score, so that tests can compare what was compiled.

#![tactic(auto)]

mod config;
mod detector;
mod filter;
mod settings;

ghost use Rattle.std.specs.Prelude.{◌≡◌, pos};
ghost use Rattle.std.specs.Float.{binary32};
ghost use Rattle.std.specs.Float.Ieee.{of_bits, of_int};
ghost use Rattle.float.specs.Fused.{fused_of};
ghost use Rattle.float.specs.Root.{root_of};
ghost use Rattle.float.specs.Whole.{round_of, ceil_of};
ghost use Rattle.score.specs.Score.{score_of};
ghost use Rattle.fallowcart.specs.Pattern.{number_of, pattern_of};

// What no number's bits are.
const NO_NUMBER: u64 = 0x1_0000_0000;

// The bits of a number, and 2^32 for a NaN.
fn number_bits(x: f32) -> u64
    ensures { result ≡ number_of x }
{
    if x.is_nan() {
        return NO_NUMBER;
    }
    x.to_bits() as u64
}

// The bits of a finite number, and 2^32 for the word that there is none.
fn pattern(r: Option<f32>) -> u64
    ensures { result ≡ pattern_of r }
{
    r.map_or(NO_NUMBER, number_bits)
}

#[unsafe(no_mangle)]
pub extern "C" fn fallowcart_fused_bits(a: u32, b: u32, c: u32) -> u64
    ensures { result ≡ pattern_of (fused_of (of_bits binary32 a) (of_bits binary32 b) (of_bits binary32 c)) }
{
    pattern(float::mul_add(
        float::from_bits(a),
        float::from_bits(b),
        float::from_bits(c),
    ))
}

#[unsafe(no_mangle)]
pub extern "C" fn fallowcart_root_bits(x: u32) -> u64
    ensures { result ≡ pattern_of (root_of (of_bits binary32 x)) }
{
    pattern(float::sqrt(float::from_bits(x)))
}

#[unsafe(no_mangle)]
pub extern "C" fn fallowcart_score_bits(ratio: u32) -> u64
    ensures { result ≡ score_of (of_bits binary32 ratio) }
{
    score::score(float::from_bits(ratio))
}

#[unsafe(no_mangle)]
pub extern "C" fn fallowcart_nearest(n: u64) -> f32
    ensures { result ≡ of_int binary32 (pos n) }
{
    float::whole::nearest(n)
}

#[unsafe(no_mangle)]
pub extern "C" fn fallowcart_round_f32(x: f32) -> u64
    ensures { result ≡ round_of x }
{
    float::whole::round_f32(x)
}

#[unsafe(no_mangle)]
pub extern "C" fn fallowcart_round_f64(x: f64) -> u64
    ensures { result ≡ round_of x }
{
    float::whole::round_f64(x)
}

#[unsafe(no_mangle)]
pub extern "C" fn fallowcart_ceil_f64(x: f64) -> u64
    ensures { result ≡ ceil_of x }
{
    float::whole::ceil_f64(x)
}
