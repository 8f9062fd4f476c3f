// The score of a ratio: how far a loud frame stands above the noise floor, in 1,024ths of a power of ten (document 01, 'Score').
// It stands in for the original's `ratio.log10().clamp(0.0, 1.0)`, whose precision Rust leaves open.

#![tactic(auto)]

mod thresholds;

ghost use Rattle.std.specs.Prelude.{◌≡◌, ◌≤◌};
ghost use Rattle.std.specs.Float.{binary32};
ghost use Rattle.std.specs.Float.Ieee.{of_bits};
ghost use Rattle.score.specs.Score.{score_of};

// The largest k whose threshold is at most `bits`, the pattern of a float from +0 to plus infinity; 0 where there is none.
fn search(bits: u32) -> usize
    requires { bits ≤ 0x7f80_0000 }
    ensures { result ≡ score_of (of_bits binary32 bits) }
{
    thresholds::table()
        .partition_point(|threshold| *threshold <= bits)
        .saturating_sub(1)
}

// The score of `ratio`, from 0 to 1,024. NaN fails the comparison, and so scores 0.
pub fn score(ratio: f32) -> u64
    ensures { result ≡ score_of ratio }
{
    if 1.0 <= ratio {
        return search(f32::to_bits(ratio)) as u64;
    }
    0
}
