// One rounding for the fused sum, the root and a count: a word times a power of two to the bits of the nearest f32, a tie to the even one.
// Exponents are i32. A contract names an exponent's place, counted from -314, as a natural number: whoever knows it gets the answer in natural numbers.
// Each contract says how far its exponents lie from 0, and no type does: sums and differences lie further, each by its own bound, and would need more types.
ghost use Rattle.std.specs.Prelude.{◌≡◌, ℕ, ◌+◌, ◌-◌, ◌*◌, ◌^◌, ◌<◌, ◌≤◌, Bool};
ghost use Rattle.std.proofs.Math.IntN.{sub_ℕ};
ghost use Rattle.std.specs.Int.Signed.{mag};
ghost use Rattle.std.specs.Float.{binary32};
ghost use Rattle.std.specs.Float.Ieee.{round};
ghost use Rattle.std.specs.Float.Ieee.Nearest.{closest};
ghost use Rattle.float.specs.Finite.{rounded};
ghost use Rattle.float.specs.Inside.{pack_of};

// d where it is above 0, and 0 elsewhere.
pub(crate) fn above(d: i32) -> u32
    requires { mag d < 3000 }
    ensures { (result < 3001) × ((x y : ℕ) → d ≡ sub_ℕ x y → result ≡ x - y) }
{
    d.max(0) as u32
}

// How far d is below 0, and 0 elsewhere.
fn below(d: i32) -> u32
    requires { mag d < 2000 }
    ensures { (result < 3001) × ((x y : ℕ) → d ≡ sub_ℕ x y → result ≡ y - x) }
{
    above(-d)
}

// w / 2^s to the nearest whole number, a tie to the even one. A half less one carries whatever lies above a half, and one more a half that stands over an odd
// number: no branch, since which way it goes is as good as chance.
fn nearest_shift(w: u64, s: u32) -> u64
    requires { (1 ≤ s) × (w < 2 ^ 63) }
    ensures { result ≡ closest w (2 ^ s) }
{
    if 63 < s {
        return 0;
    }
    let q = w >> s;
    let half = 1 << (s - 1);
    (w + (half - 1) + q % 2) >> s
}

// Of a word with its top digit at bit 62, at the exponent e - up: how many of the format's digits lie above the 24 that are kept. Below zero, that many
// digits more are lost to a subnormal.
fn dropped(e: i32, up: u32) -> i32
    requires { (mag e < 1000) × (up < 64) }
    ensures { (mag result < 2000) × ((x : ℕ) → e ≡ sub_ℕ x 314 → result ≡ sub_ℕ x (126 + up)) }
{
    e - up as i32 + 188
}

// The bits of w * 2^e rounded, without the sign. From 255 * 2^23 on there is no finite one. A carry out of the significand runs into the exponent's field.
pub(crate) fn magnitude_bits(w: u64, e: i32) -> u64
    requires { (w < 2 ^ 63) × (mag e < 1000) }
    ensures { (s : Bool) (x : ℕ) → e ≡ sub_ℕ x 314 → pack_of s result ≡ rounded (round binary32 s (w * 2 ^ x) (2 ^ 314)) }
{
    if w == 0 {
        return 0;
    }
    let up = u64::leading_zeros(w) - 1;
    let d = dropped(e, up);
    let q = nearest_shift(w << up, 39 + below(d));
    above(d) as u64 * 0x80_0000 + q
}

// The float of a sign and the bits without it, where there is a finite one.
pub(crate) fn pack(negative: bool, bits: u64) -> Option<f32>
    ensures { result ≡ pack_of negative bits }
{
    if 0x7f80_0000 <= bits {
        return None;
    }
    let m = bits as u32;
    if negative {
        return Some(f32::from_bits(0x8000_0000 + m));
    }
    Some(f32::from_bits(m))
}
