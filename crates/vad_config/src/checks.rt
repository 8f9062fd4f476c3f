// The refusals 1 to 13, in three runs of tests.
ghost use Rattle.std.specs.Prelude.{◌≡◌, not, ◌||◌, is_nan};
ghost use Rattle.std.specs.Float.Ieee.{lt};
ghost use Rattle.std.specs.Float.Ieee.Scale.{finite};
ghost use Rattle.refusals.specs.Refusals.{first_of};
ghost use Rattle.float.specs.Numbers.{zero32};
ghost use Rattle.vad_config.specs.Domain.{in_unit, duration_in};
ghost use Rattle.vad_config.specs.Settings.{framing_refusals, level_refusals, limit_refusals};

use super::{VadConfig, lengths_of, start_allowed};
use ranges::{FRAME_MOST, WARMUP_MOST, rate_allowed};
use refusals::Refusal;

#[tactic(auto, unfolding(crate::specs::Domain::duration_in))]
pub fn duration_allowed(frame_duration: u64) -> bool
    ensures { result ≡ duration_in frame_duration }
{
    (1..=1_000_000_000).contains(&frame_duration)
}

// In [0,1): no NaN, and -0 is in it.
#[tactic(auto, unfolding(crate::specs::Domain::in_unit))]
fn in_unit(x: f32) -> bool
    ensures { result ≡ in_unit x }
{
    0.0 <= x && x < 1.0
}

// A NaN is asked for by itself: it is below nothing.
fn nan_or_below(x: f32, least: f32) -> bool
    ensures { result ≡ is_nan x || lt x least }
{
    x.is_nan() || x < least
}

#[tactic(auto, using(float::proofs::Words::finite_is))]
fn not_finite_or_below(x: f32, least: f32) -> bool
    ensures { result ≡ not (finite x) || lt x least }
{
    !x.is_finite() || x < least
}

#[tactic(auto, using(float::proofs::Words::finite_is))]
fn not_finite_or_not_positive(x: f32) -> bool
    ensures { result ≡ not (finite x) || not (lt zero32 x) }
{
    !x.is_finite() || !(0.0 < x)
}

// 1 to 4.
#[tactic(auto, unfolding(refusals::specs::Refusals::first_of, crate::specs::Settings::framing_refusals))]
pub fn framing(config: VadConfig) -> Result<(), Refusal>
    ensures { result ≡ first_of (framing_refusals config) }
{
    if !rate_allowed(config.sample_rate) {
        return Err(Refusal::Rate);
    }
    if !duration_allowed(config.frame_duration) {
        return Err(Refusal::FrameDuration);
    }
    if !in_unit(config.frame_overlap) {
        return Err(Refusal::FrameOverlap);
    }
    if config.has_pre_emphasis && !in_unit(config.pre_emphasis) {
        return Err(Refusal::PreEmphasis);
    }
    Ok(())
}

// 5 to 10.
#[tactic(auto, unfolding(refusals::specs::Refusals::first_of, crate::specs::Settings::level_refusals))]
pub fn levels(config: VadConfig) -> Result<(), Refusal>
    ensures { result ≡ first_of (level_refusals config) }
{
    if nan_or_below(config.release_ratio, 1.0) {
        return Err(Refusal::ReleaseRatio);
    }
    if not_finite_or_below(config.activation_ratio, config.release_ratio) {
        return Err(Refusal::ActivationRatio);
    }
    if not_finite_or_below(config.min_speech_energy, 0.0) {
        return Err(Refusal::MinSpeechEnergy);
    }
    if !in_unit(config.noise_smoothing) {
        return Err(Refusal::NoiseSmoothing);
    }
    if not_finite_or_not_positive(config.energy_floor) {
        return Err(Refusal::EnergyFloor);
    }
    if config.min_speech_frames == 0 {
        return Err(Refusal::MinSpeechFrames);
    }
    Ok(())
}

// 11 to 13.
#[tactic(auto, unfolding(refusals::specs::Refusals::first_of, crate::specs::Settings::limit_refusals, crate::specs::Settings::lengths_of))]
pub fn limits(config: VadConfig) -> Result<(), Refusal>
    ensures { result ≡ first_of (limit_refusals config) }
{
    let worked_out = lengths_of(config);
    if FRAME_MOST < worked_out.frame_length {
        return Err(Refusal::FrameLength);
    }
    if WARMUP_MOST < worked_out.warmup_frames {
        return Err(Refusal::Warmup);
    }
    if 1_000_000_000 < config.speech_padding
        || 10_000 < config.hangover_frames
        || 10_000 < config.min_speech_frames
        || !start_allowed(config.stream_start_time)
    {
        return Err(Refusal::Limits);
    }
    Ok(())
}
