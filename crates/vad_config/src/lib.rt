// The detector's settings (Rust's src/vad/config.rs): which are refused, and by what number, and the lengths and times that are worked out from them.

#![tactic(auto)]

mod checks;

ghost use Rattle.std.specs.Prelude.{◌≡◌};
ghost use Rattle.vad_config.specs.Domain.{start_in};
ghost use Rattle.vad_config.specs.Lengths.{frame_length_of, hop_length_of, warmup_frames_of, padding_samples_of, time_of_sample_of};
ghost use Rattle.vad_config.specs.Settings.{lengths_of, outcome_of};

use ranges::{RECEIVED_MOST, rate_allowed};
use refusals::Refusal;

const NANOS_PER_SECOND: u64 = 1_000_000_000;

// The Rust's names in its order. A duration is in nanoseconds. The optional number is a flag and a number, as C hands both over: the stored state keeps the number even where
// the flag is off (`open_floats`).
#[derive(Clone, Copy, Default)]
pub struct VadConfig {
    pub sample_rate: u32,
    pub frame_duration: u64,
    pub frame_overlap: f32,
    pub has_pre_emphasis: bool,
    pub pre_emphasis: f32,
    pub activation_ratio: f32,
    pub release_ratio: f32,
    pub min_speech_energy: f32,
    pub noise_smoothing: f32,
    pub energy_floor: f32,
    pub hangover_frames: u64,
    pub speech_padding: u64,
    pub min_speech_frames: u64,
    pub stream_start_time: u64,
}

// What opening works out, in frames and samples.
#[derive(Clone, Copy, PartialEq, Eq, Default)]
pub struct Lengths {
    pub frame_length: usize,
    pub hop_length: usize,
    pub warmup_frames: usize,
    pub padding_samples: usize,
}

// The first refusal that holds. Later checks rest on earlier ones: a frame has a length only where 1 and 2 passed.
pub fn validate(config: VadConfig) -> Result<(), Refusal>
    ensures { result ≡ outcome_of config }
{
    checks::framing(config)?;
    checks::levels(config)?;
    checks::limits(config)
}

// For any settings: where they are refused, the numbers are still those of the four functions below.
#[tactic(auto, unfolding(crate::specs::Settings::lengths_of, crate::specs::Settings::frame_of, crate::specs::Settings::hop_of, crate::specs::Settings::warmup_of, crate::specs::Settings::padding_of))]
pub fn lengths_of(config: VadConfig) -> Lengths
    ensures { result ≡ lengths_of config }
{
    let frame_length = frame_length_samples(config.sample_rate, config.frame_duration);
    let hop_length = hop_length_samples(frame_length, config.frame_overlap);
    let warmup_frames = warmup_frames(hop_length, config.sample_rate);
    let padding_samples = padding_samples(config.speech_padding, config.sample_rate);
    Lengths {
        frame_length,
        hop_length,
        warmup_frames,
        padding_samples,
    }
}

// To the nearest sample. Where 1 or 2 refuses there is no length, and the product could pass 64 bits.
#[tactic(auto, using(crate::proofs::Ranges::frame_fits), unfolding(crate::specs::Lengths::frame_length_of, crate::specs::Lengths::frame_samples))]
pub fn frame_length_samples(sample_rate: u32, frame_duration: u64) -> usize
    ensures { result ≡ frame_length_of sample_rate frame_duration }
{
    if !rate_allowed(sample_rate) || !checks::duration_allowed(frame_duration) {
        return 0;
    }
    let samples = (frame_duration * sample_rate as u64 + NANOS_PER_SECOND / 2) / NANOS_PER_SECOND;
    samples.max(1) as usize
}

// At most the frame's length, for any overlap in [0,1).
#[tactic(auto, unfolding(crate::specs::Lengths::hop_length_of))]
pub fn hop_length_samples(frame_length: usize, frame_overlap: f32) -> usize
    ensures { result ≡ hop_length_of frame_length frame_overlap }
{
    let length = float::whole::nearest(frame_length as u64);
    float::whole::round_f32(length * (1.0 - frame_overlap)).max(1) as usize
}

// How many hops reach 0.3 seconds.
#[tactic(auto, unfolding(crate::specs::Lengths::warmup_frames_of))]
pub fn warmup_frames(hop_length: usize, sample_rate: u32) -> usize
    ensures { result ≡ warmup_frames_of hop_length sample_rate }
{
    let hop_secs = std::num::nearest_u64_to_f64(hop_length as u64) / sample_rate as f64;
    float::whole::ceil_f64(0.3 / hop_secs).max(1) as usize
}

// The seconds are a sum in f64, as Rust's `as_secs_f64` has them.
#[tactic(auto, unfolding(crate::specs::Lengths::padding_samples_of, crate::specs::Lengths::seconds_of))]
pub fn padding_samples(speech_padding: u64, sample_rate: u32) -> usize
    ensures { result ≡ padding_samples_of speech_padding sample_rate }
{
    let secs = std::num::nearest_u64_to_f64(speech_padding / NANOS_PER_SECOND);
    let nanos = std::num::nearest_u64_to_f64(speech_padding % NANOS_PER_SECOND);
    let total = secs + nanos / NANOS_PER_SECOND as f64;
    float::whole::round_f64(total * sample_rate as f64) as usize
}

// 13's part that a reset asks again.
#[tactic(auto, unfolding(crate::specs::Domain::start_in))]
pub fn start_allowed(stream_start_time: u64) -> bool
    ensures { result ≡ start_in stream_start_time }
{
    stream_start_time < 0x8000_0000_0000_0000
}

// Whole seconds and the rest apart, since 10^9 times the samples can pass 64 bits. There is no time outside the domain.
#[tactic(auto, using(crate::proofs::Ranges::times), unfolding(crate::specs::Lengths::time_of_sample_of, crate::specs::Lengths::time_of, crate::specs::Domain::received_in))]
pub fn time_of_sample(stream_start_time: u64, sample_rate: u32, sample: u64) -> u64
    ensures { result ≡ time_of_sample_of stream_start_time sample_rate sample }
{
    if !rate_allowed(sample_rate) || !start_allowed(stream_start_time) || RECEIVED_MOST < sample {
        return 0;
    }
    let rate = sample_rate as u64;
    let rest = (sample % rate * NANOS_PER_SECOND + rate / 2) / rate;
    stream_start_time + sample / rate * NANOS_PER_SECOND + rest
}
