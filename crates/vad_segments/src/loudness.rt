// When a frame is loud, when it is in speech, and how the noise floor follows.
ghost use Rattle.std.specs.Prelude.{◌≡◌, ◌&&◌};
ghost use Rattle.std.specs.Float.Ieee.{le};
ghost use Rattle.vad_segments.specs.Loudness.{required_of, in_speech_of, weight_of, at_least, floor_of, lesser_of};

use super::ActiveSegmentState;
use vad_config::VadConfig;

// A segment that is open is held by a lower ratio than opens one.
pub fn required_ratio(config: VadConfig, active: Option<ActiveSegmentState>) -> f32
    ensures { result ≡ required_of config active }
{
    if active.is_some() {
        config.release_ratio
    } else {
        config.activation_ratio
    }
}

pub fn is_loud(gate: f32, required: f32, energy: f32, ratio: f32) -> bool
    ensures { result ≡ le gate energy && le required ratio }
{
    gate <= energy && required <= ratio
}

// A quiet frame inside a segment is a pause until more than the hangover's frames of them in a row close it.
pub fn in_speech(hangover_frames: u64, active: Option<ActiveSegmentState>, loud: bool) -> bool
    ensures { result ≡ in_speech_of hangover_frames active loud }
{
    loud || active.is_some_and(|segment| segment.silence_run < hangover_frames)
}

// The floor follows dips quickly and rises slowly through speech.
pub fn floor_weight(rise: f32, smoothing: f32, speech: bool, floor: f32, energy: f32) -> f32
    ensures { result ≡ weight_of rise smoothing speech floor energy }
{
    if speech && floor < energy {
        rise
    } else {
        smoothing
    }
}

// Not `f32::max`, whose contract leaves open which of two zeros it gives; and a NaN stays one here.
pub fn at_least(least: f32, x: f32) -> f32
    ensures { result ≡ at_least least x }
{
    if x < least { least } else { x }
}

pub fn next_floor(least: f32, weight: f32, floor: f32, energy: f32) -> f32
    ensures { result ≡ floor_of least weight floor energy }
{
    let blend = float::mul_add_or(weight, floor, (1.0 - weight) * energy, 0.0);
    at_least(least, blend)
}

// Not `f32::min`, for the same two reasons.
pub fn lesser(m: f32, energy: f32) -> f32
    ensures { result ≡ lesser_of m energy }
{
    if energy < m { energy } else { m }
}
