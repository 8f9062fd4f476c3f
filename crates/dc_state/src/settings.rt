// Refusals 20 to 24 and 27: which settings, coefficients and states are taken.
ghost use Rattle.std.specs.Prelude.{◌≡◌};
ghost use Rattle.dc_state.specs.Settings.{cutoff_taken, below_half, alpha_taken, stage_taken, stages_taken, outcome_of, remembers_finite, sound_of};

use super::biquad::{BiquadCoefficients, BiquadState};
use super::{DcHighPassFilter, HighpassOrder, PreprocessingConfig};
use ranges::{inside, rate_allowed};
use refusals::Refusal;

#[tactic(auto, unfolding(crate::specs::Settings::stage_taken))]
fn stage_taken(c: BiquadCoefficients) -> bool
    ensures { result ≡ stage_taken c }
{
    inside(0.0, c.b0, 1.0)
        && inside(0.0, c.b2, 1.0)
        && inside(-2.0, c.b1, 0.0)
        && inside(-2.0, c.a1, 2.0)
        && inside(-1.0, c.a2, 1.0)
}

#[tactic(auto, unfolding(crate::specs::Settings::stages_taken))]
fn stages_taken(order: HighpassOrder, first: BiquadCoefficients, second: BiquadCoefficients) -> bool
    ensures { result ≡ stages_taken order first second }
{
    match order {
        HighpassOrder::SecondOrder => stage_taken(first),
        HighpassOrder::FourthOrder => stage_taken(first) && stage_taken(second),
    }
}

#[tactic(auto, using(crate::proofs::Finite::same))]
fn cutoff_taken(cutoff: f32) -> bool
    ensures { result ≡ cutoff_taken cutoff }
{
    cutoff.is_finite() && 20.0 <= cutoff
}

fn below_half(cutoff: f32, rate: u32) -> bool
    ensures { result ≡ below_half cutoff rate }
{
    cutoff < float::whole::nearest(rate as u64) / 2.0
}

fn alpha_taken(alpha: f32) -> bool
    ensures { result ≡ alpha_taken alpha }
{
    0.0 < alpha && alpha < 1.0
}

// The Rust's `validate`, with document 01's domain: the first of 20 to 24 that refuses.
#[tactic(auto, unfolding(refusals::specs::Refusals::first_of, crate::specs::Settings::outcome_of, crate::specs::Settings::setting_refusals))]
pub fn validate(
    config: PreprocessingConfig,
    first: BiquadCoefficients,
    second: BiquadCoefficients,
) -> Result<(), Refusal>
    ensures { result ≡ outcome_of config first second }
{
    if !rate_allowed(config.sample_rate_hz) {
        return Err(Refusal::FilterRate);
    }
    if !cutoff_taken(config.highpass_cutoff_hz) {
        return Err(Refusal::FilterCutoff);
    }
    if !below_half(config.highpass_cutoff_hz, config.sample_rate_hz) {
        return Err(Refusal::FilterHalfRate);
    }
    if !alpha_taken(config.dc_bias_alpha) {
        return Err(Refusal::FilterAlpha);
    }
    let order = config.highpass_order;
    if !stages_taken(order, first, second) {
        return Err(Refusal::FilterCoefficient);
    }
    Ok(())
}

#[tactic(auto, using(crate::proofs::Finite::same), unfolding(crate::specs::Settings::remembers_finite))]
fn remembers_finite(s: BiquadState) -> bool
    ensures { result ≡ remembers_finite s }
{
    s.x1.is_finite() && s.x2.is_finite() && s.y1.is_finite() && s.y2.is_finite()
}

// Neither malformed settings nor a remembered number that isn't finite: every entry point asks this first.
#[tactic(auto, using(crate::proofs::Finite::same, crate::proofs::Parts::taken_tells), unfolding(crate::specs::Settings::sound_of))]
pub fn sound(filter: DcHighPassFilter) -> bool
    ensures { result ≡ sound_of filter }
{
    let first = filter.first;
    let second = filter.second;
    validate(filter.config, first.coeffs, second.coeffs).is_ok()
        && filter.dc_bias.is_finite()
        && remembers_finite(first.state)
        && remembers_finite(second.state)
}
