// a * b + c of finite f32 by the processor's f64 alone, and whether that settles it: without a branch, so that a loop can work out several sums at once.
// The f64 is the exact sum S rounded to R (narrow.rt). Where R is in no middle of two neighbouring f32, R and S have the same nearest f32. In a middle, as
// many results are in quiet 16-bit sound with the coefficient 0.97, they have it where R is S itself.
ghost use Rattle.std.specs.Prelude.{◌≡◌, ◌/◌, ◌%◌, true, ◌&&◌, ◌||◌, T};
ghost use Rattle.std.specs.Float.Ieee.Scale.{finite};
ghost use Rattle.float.specs.Fused.{fused_of};
ghost use Rattle.float.specs.Settled.{normal_size, evened_of, exact_of, settled_by, quick_of};

use super::bits::place;

// The f32, which is the fused sum only where it is settled. A flag and no `Option`, which would put a branch into a loop over several sums.
#[derive(Clone, Copy)]
pub struct Quick {
    pub sum: f32,
    pub settled: bool,
}

// By `&`, as below by `|`: `&&` and `||` would skip the second.
pub fn both(a: bool, b: bool) -> bool
    ensures { result ≡ (a && b) }
{
    a & b
}

fn upper(bits: u64) -> u32
    ensures { result ≡ bits / 0x1_0000_0000 }
{
    (bits / 0x1_0000_0000) as u32
}

fn lower(bits: u64) -> u32
    ensures { result ≡ bits % 0x1_0000_0000 }
{
    (bits % 0x1_0000_0000) as u32
}

// An f64 among the normal f32, by the upper half of its pattern without the sign. The few at the ends are left out, so that the upper half tells.
#[tactic(auto, unfolding(crate::specs::Settled::normal_size))]
fn normal(size: u32) -> bool
    ensures { result ≡ normal_size size }
{
    (0x3810_0000 < size) & (size < 0x47ef_ffff)
}

// The f32 nearest to the f64 of these halves, from a middle the even one; outside the normal f32 a zero of its sign.
fn evened(high: u32, low: u32) -> f32
    ensures { result ≡ evened_of high low }
{
    let sign = high / 0x8000_0000 * 0x8000_0000;
    let size = high % 0x8000_0000;
    if normal(size) {
        let m = (size - 0x3800_0000) * 8 + low / 0x2000_0000;
        let up = (low % 0x2000_0000 + 0x0fff_ffff + m % 2) / 0x2000_0000;
        return f32::from_bits(sign + m + up);
    }
    f32::from_bits(sign)
}

// Whether the exact sum has at most 53 digits, by the patterns of the operands: a product has 48 and an addend 24, so the addend may stand 4 places below the
// product or 28 above it; or it is zero.
#[tactic(auto, unfolding(crate::specs::Settled::exact_of))]
fn exact(x: u32, y: u32, z: u32) -> bool
    ensures { result ≡ exact_of x y z }
{
    let p = place(x) + place(y);
    let q = place(z);
    (z % 0x8000_0000 == 0) | (p <= q + 154) & (q + 122 <= p)
}

// Whether the halves of an f64 settle the f32: it is zero, or a normal f32 is near and it is in no middle, or is the sum itself.
#[tactic(auto, unfolding(crate::specs::Settled::settled_by))]
fn settles(high: u32, low: u32, exact: bool) -> bool
    ensures { result ≡ settled_by high low exact }
{
    let size = high % 0x8000_0000;
    let in_middle = low % 0x2000_0000 == 0x1000_0000;
    (size == 0) & (low == 0) | normal(size) & (!in_middle | exact)
}

// All but the f64 itself is worked out in halves of it: of those a processor has twice as many at once.
pub fn quick_sum(a: f32, b: f32, c: f32) -> Quick
    requires { T (finite a) × T (finite b) × T (finite c) }
    ensures value { result ≡ quick_of a b c }
    ensures sum_value { result.settled ≡ true → Some result.sum ≡ fused_of a b c }
{
    let bits = f64::to_bits(a as f64 * b as f64 + c as f64);
    let high = upper(bits);
    let low = lower(bits);
    let x = f32::to_bits(a);
    let y = f32::to_bits(b);
    let z = f32::to_bits(c);
    Quick {
        sum: evened(high, low),
        settled: settles(high, low, exact(x, y, z)),
    }
}
