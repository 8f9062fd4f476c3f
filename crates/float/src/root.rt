// The root of a finite float above zero: its significand brought to the top of the word, a whole root with a sticky digit, one rounding.
ghost use Rattle.std.specs.Prelude.{◌≡◌, ◌+◌, ◌-◌, ◌*◌, ◌/◌, ◌%◌, ◌^◌, ◌<◌, ◌≤◌, false};
ghost use Rattle.std.proofs.Math.IntN.{sub_ℕ};
ghost use Rattle.std.specs.Float.{binary32};
ghost use Rattle.std.specs.Float.Ieee.{round};
ghost use Rattle.float.specs.Finite.{rounded};
ghost use Rattle.float.specs.Inside.{M, Q};
ghost use Rattle.float.specs.Root.{integer_root, twice_root};

use super::bits::{place, significand};
use super::rounding::{magnitude_bits, pack};
use std::num::{nearest_u64_to_f64, saturating_f64_to_u64};

// A guess at the root of an n from 2^61 to 2^63, by the processor's f64. The guess is tested, so nothing is proved of it but that its square fits.
fn near_root(n: u64) -> u64
    ensures { result < 2 ^ 32 }
{
    saturating_f64_to_u64(nearest_u64_to_f64(n).sqrt()).min(0xffff_ffff)
}

// The largest r with r * r <= n, by a guess that is tested; where it misses, digit by digit.
fn integer_root(n: u64) -> u64
    ensures { (result ≡ integer_root n) × (result < 2 ^ 32) }
{
    let r = near_root(n);
    let square = r * r;
    if square <= n && n <= square + 2 * r {
        return r;
    }
    n.isqrt()
}

// How far a significand m at a place is moved up: its top digit comes to bit 61 or 62, so that what is left of its exponent is even.
fn lift(m: u64, place: u32) -> u32
    requires { (0 < m) × (m < 2 ^ 24) × (place < 256) }
    ensures { (result < 63) × (2 ^ 61 ≤ m * 2 ^ result) × (m * 2 ^ result < 2 ^ 63) × ((place + 62 - result) % 2 ≡ 0) × (result ≤ place + 62) }
{
    let up = u64::leading_zeros(m) - 2;
    up + (place + up) % 2
}

// The exponent of the root of a number that was moved up, with one digit more for the sticky one.
fn root_exponent(place: u32, up: u32) -> i32
    requires { (place < 256) × (up < 63) }
    ensures { result ≡ sub_ℕ ((place + 62 - up) / 2 + 207) 314 }
{
    ((place + 62 - up) / 2) as i32 - 107
}

// Twice the root of n, with the lowest digit set where the root is not exact.
fn sticky_root(n: u64) -> u64
    ensures { (result ≡ twice_root n) × (result < 2 ^ 34) }
{
    let r = integer_root(n);
    if r * r == n {
        return 2 * r;
    }
    2 * r + 1
}

// The root of a pattern's size.
pub(crate) fn positive_root(bits: u32) -> Option<f32>
    requires { 0 < M bits }
    ensures { result ≡ rounded (round binary32 false (twice_root (M bits * 2 ^ (Q bits + 150))) (2 ^ 151)) }
{
    let m = significand(bits);
    let place = place(bits);
    let up = lift(m, place);
    let w = sticky_root(m << up);
    pack(false, magnitude_bits(w, root_exponent(place, up)))
}
