// a * b + c of finite floats: the exact product and the addend in one u64, the lower one cut off into a sticky digit, one rounding.
ghost use Rattle.std.specs.Prelude.{◌≡◌, ℕ, ◌+◌, ◌-◌, ◌*◌, ◌^◌, ◌<◌, ◌≤◌, ◌⊎◌, if◌then◌else◌, nat_eq};
ghost use Rattle.std.proofs.Math.IntN.{sub_ℕ};
ghost use Rattle.std.specs.Int.Signed.{mag};
ghost use Rattle.std.specs.Float.{binary32};
ghost use Rattle.std.specs.Float.Ieee.{round, sum};
ghost use Rattle.float.specs.Finite.{rounded};
ghost use Rattle.float.specs.Inside.{jam_of, mag_of, neg_of, fused_bits_of};

use super::bits::{exponent, negative, significand};
use super::rounding::{above, magnitude_bits, pack};

// The exponent of a product p, moved up 14 places. A product that is zero stands at the lowest place, so that it never cuts off the addend.
fn product_exponent(p: u64, a: i32, b: i32) -> i32
    requires { (mag a < 1000) × (mag b < 1000) }
    ensures { (x y : ℕ) → a ≡ sub_ℕ x 150 → b ≡ sub_ℕ y 150 → result ≡ sub_ℕ (if nat_eq p 0 then 2 else x + y) 314 }
{
    if p == 0 {
        return -312;
    }
    a + b - 14
}

// The exponent of an addend, moved up 38 places.
fn addend_exponent(a: i32) -> i32
    requires { mag a < 1000 }
    ensures { (x : ℕ) → a ≡ sub_ℕ x 150 → result ≡ sub_ℕ (x + 126) 314 }
{
    a - 38
}

// How far a stands above b, and 0 where it stands below.
fn gap(a: i32, b: i32) -> u32
    requires { (mag a < 1000) × (mag b < 1000) }
    ensures { (x y : ℕ) → a ≡ sub_ℕ x 314 → b ≡ sub_ℕ y 314 → result ≡ x - y }
{
    above(a - b)
}

// m / 2^d, with the lowest digit set where digits that are not 0 were cut off.
pub(crate) fn jam(m: u64, d: u32) -> u64
    ensures { result ≡ jam_of m d }
{
    if 63 < d {
        return if m == 0 { 0 } else { 1 };
    }
    let k = m >> d;
    let cut = m & ((1 << d) - 1);
    if cut == 0 {
        return k;
    }
    k / 2 * 2 + 1
}

// ±size * 2^exponent.
#[derive(Clone, Copy)]
struct Term {
    negative: bool,
    size: u64,
    exponent: i32,
}

impl Term {
    // ±size ±size, at this exponent. A difference that is zero is not negative.
    fn plus(self, other: Term) -> Term
        requires { self.size + other.size < 2 ^ 63 }
        ensures negative { result.negative ≡ neg_of self.negative self.size other.negative other.size }
        ensures size { result.size ≡ mag_of self.negative self.size other.negative other.size }
        ensures exponent { result.exponent ≡ self.exponent }
    {
        if self.negative == other.negative {
            return Term {
                size: self.size + other.size,
                ..self
            };
        }
        if self.size < other.size {
            return Term {
                negative: other.negative,
                size: other.size - self.size,
                ..self
            };
        }
        Term {
            negative: self.negative && other.size < self.size,
            size: self.size - other.size,
            ..self
        }
    }

    fn rounded(self) -> Option<f32>
        requires { (self.size < 2 ^ 63) × (mag self.exponent < 1000) }
        ensures { (i : ℕ) → self.exponent ≡ sub_ℕ i 314 → result ≡ rounded (round binary32 self.negative (self.size * 2 ^ i) (2 ^ 314)) }
    {
        pack(self.negative, magnitude_bits(self.size, self.exponent))
    }
}

// The term of the higher exponent, and the lower one cut off there.
fn jammed_sum(high: Term, low: Term) -> Option<f32>
    requires { (high.size + low.size + 1 < 2 ^ 63) × (mag high.exponent < 1000) × (mag low.exponent < 1000) }
    ensures { (i j : ℕ) → high.exponent ≡ sub_ℕ i 314 → low.exponent ≡ sub_ℕ j 314
        → result ≡ rounded (round binary32 (neg_of high.negative high.size low.negative (jam_of low.size (i - j))) (mag_of high.negative high.size low.negative (jam_of low.size (i - j)) * 2 ^ i) (2 ^ 314)) }
{
    let size = jam(low.size, gap(high.exponent, low.exponent));
    high.plus(Term {
        size,
        exponent: high.exponent,
        ..low
    })
    .rounded()
}

// ±p ±c, with 14 places free below the product and 38 below the addend.
fn aligned_sum(product: Term, addend: Term) -> Option<f32>
    requires { (product.size < 2 ^ 48) × (addend.size < 2 ^ 24) × (mag product.exponent < 1000) × (mag addend.exponent < 1000) }
    ensures { (x y : ℕ) → product.exponent ≡ sub_ℕ x 314 → addend.exponent ≡ sub_ℕ y 314 → (8388608 ≤ product.size) ⊎ (x ≤ 163) → (8388608 ≤ addend.size) ⊎ (y ≤ 163)
        → result ≡ rounded (sum binary32 product.negative (product.size * 2 ^ 14 * 2 ^ x) addend.negative (addend.size * 2 ^ 38 * 2 ^ y) (2 ^ 314)) }
{
    let product = Term {
        size: product.size << 14,
        ..product
    };
    let addend = Term {
        size: addend.size << 38,
        ..addend
    };
    if addend.exponent < product.exponent {
        return jammed_sum(product, addend);
    }
    jammed_sum(addend, product)
}

// On three patterns, all of finite floats.
pub(crate) fn fused_bits(x: u32, y: u32, z: u32) -> Option<f32>
    ensures { result ≡ fused_bits_of x y z }
{
    let size = significand(x) * significand(y);
    let product = Term {
        negative: negative(x) != negative(y),
        size,
        exponent: product_exponent(size, exponent(x), exponent(y)),
    };
    let addend = Term {
        negative: negative(z),
        size: significand(z),
        exponent: addend_exponent(exponent(z)),
    };
    aligned_sum(product, addend)
}
