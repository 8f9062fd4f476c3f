// A float taken apart: its sign, its significand M and its place Q, with |x| = M * 2^(Q - 150), M < 2^24 and 1 ≤ Q ≤ 254.
ghost use Rattle.std.specs.Prelude.{◌≡◌};
ghost use Rattle.std.proofs.Math.IntN.{sub_ℕ};
ghost use Rattle.float.specs.Inside.{field_of, sign_of, M, Q};

// The exponent's field: 255 where the float is not finite, and 0 where it is zero or subnormal.
pub(crate) fn field(bits: u32) -> u32
    ensures { result ≡ field_of bits }
{
    bits % 0x8000_0000 / 0x80_0000
}

pub(crate) fn negative(bits: u32) -> bool
    ensures { result ≡ sign_of bits }
{
    0x8000_0000 <= bits
}

pub(crate) fn significand(bits: u32) -> u64
    ensures { result ≡ M bits }
{
    let t = (bits % 0x80_0000) as u64;
    if field(bits) == 0 {
        return t;
    }
    t + 0x80_0000
}

// Zero and the subnormals stand at the place of the smallest normal numbers.
pub(crate) fn place(bits: u32) -> u32
    ensures { result ≡ Q bits }
{
    field(bits).max(1)
}

// The exponent of the significand's lowest digit, from -149 to 104.
pub(crate) fn exponent(bits: u32) -> i32
    ensures { result ≡ sub_ℕ (Q bits) 150 }
{
    place(bits) as i32 - 150
}
