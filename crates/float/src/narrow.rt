// a * b + c by the processor's own f64. The product of two f32 is exact in f64, and so the sum there is the exact sum S rounded to R, an f64.
// Every middle of two neighbouring f32 is an f64, so S and R lie on the same side of each, and where R is no middle itself, R and S have the same nearest f32.
ghost use Rattle.std.specs.Prelude.{◌≡◌};
ghost use Rattle.std.specs.Option.{IfSome};
ghost use Rattle.float.specs.Fused.{fused_of};
ghost use Rattle.float.specs.Inside.{WideOf, Narrowed};

// a * b + c rounded once, where the f64 settles it.
pub(crate) fn settled(a: f32, b: f32, c: f32) -> Option<f32>
    ensures { IfSome result (λ x. fused_of a b c ≡ Some x) }
{
    wide_bits(a, b, c).and_then(narrowed)
}

// The pattern of a * b + c in f64. There is none where that is a NaN or an operand is one, which has no cast to f64.
fn wide_bits(a: f32, b: f32, c: f32) -> Option<u64>
    ensures { IfSome result (λ w. WideOf w a b c) }
{
    if a.is_nan() || b.is_nan() || c.is_nan() {
        return None;
    }
    let sum = a as f64 * b as f64 + c as f64;
    if sum.is_nan() {
        return None;
    }
    Some(f64::to_bits(sum))
}

// The f32 of every number whose nearest f64 has these bits, where they settle it: zero, or from 2^-159 to below the largest f32, and in no middle.
// A subnormal's last digit stands at 2^-149 wherever its first one does: the lower the f64 stands, the more digits are cut off.
// One function, since what it answers would go through memory from one to the other.
fn narrowed(bits: u64) -> Option<f32>
    ensures { Narrowed bits result }
{
    let sign = bits / 0x8000_0000_0000_0000 * 0x8000_0000;
    let size = bits % 0x8000_0000_0000_0000;
    if size <= 0x3810_0000_0000_0000 {
        if size == 0 {
            return Some(f32::from_bits(sign as u32));
        }
        if size < 0x3600_0000_0000_0000 {
            return None;
        }
        let s = 926 - size / 0x10_0000_0000_0000;
        let q = size % 0x10_0000_0000_0000 + 0x10_0000_0000_0000;
        let half = 1 << (s - 1);
        if q & ((1 << s) - 1) == half {
            return None;
        }
        let low = (q + half) >> s;
        return Some(f32::from_bits((sign + low) as u32));
    }
    if 0x47ef_ffff_e000_0000 <= size {
        return None;
    }
    if size % 0x2000_0000 == 0x1000_0000 {
        return None;
    }
    let m = (size + 0x1000_0000) / 0x2000_0000 - 0x1_c000_0000;
    Some(f32::from_bits((sign + m) as u32))
}
