// The domain: ranges of floats, one number and a slice up to the first number outside; which rates are in it; and how much there can be at most.

#![tactic(auto)]

ghost use Rattle.std.specs.Prelude.{◌≡◌};
ghost use Rattle.ranges.specs.Ranges.{within, leading_of, all_within, clean_of, rate_in};

// How much there can be at most: samples in a frame, frames held, samples in a block, samples received.
pub const FRAME_MOST: usize = 2048;

pub const WARMUP_MOST: usize = 300;

pub const BLOCK_MOST: usize = 1024;

pub const RECEIVED_MOST: u64 = 0x100_0000_0000;

pub fn inside(low: f32, x: f32, high: f32) -> bool
    ensures { result ≡ within low x high }
{
    low <= x && x <= high
}

// How many stand before the first outside: all, where none is. A loop that breaks with the place, which an edit makes go round for ever.
pub fn leading(low: f32, xs: &[f32], high: f32) -> usize
    ensures { result ≡ leading_of low xs.now high }
{
    let mut i = 0;
    while i < xs.len() {
        if !inside(low, xs[i], high) {
            break;
        }
        i += 1;
    }
    i
}

// Every number is looked at, so that the processor can look at several at once.
pub fn all_inside(low: f32, xs: &[f32], high: f32) -> bool
    ensures { result ≡ all_within low xs.now high }
{
    let mut all = true;
    for x in xs {
        all &= inside(low, *x, high);
    }
    all
}

// How many samples stand before the first outside the domain.
pub fn clean(samples: &[f32]) -> usize
    ensures { result ≡ clean_of samples.now }
{
    if all_inside(-65536.0, samples, 65536.0) {
        return samples.len();
    }
    leading(-65536.0, samples, 65536.0)
}

// For the detector and the filter.
#[tactic(auto, unfolding(crate::specs::Ranges::rate_in))]
pub fn rate_allowed(sample_rate: u32) -> bool
    ensures { result ≡ rate_in sample_rate }
{
    (8_000..=48_000).contains(&sample_rate)
}
