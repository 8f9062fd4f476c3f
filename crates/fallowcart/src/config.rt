// The detector's settings, which a caller hands over one by one.
ghost use Rattle.std.specs.Prelude.{◌≡◌};
ghost use Rattle.vad_config.specs.Config.{settings_of};

use vad_config::VadConfig;

// The fields of the Rust's `VadConfig` in its order, durations in nanoseconds, the optional number as a flag and a number. The C interface hands no struct over.
pub fn collected(
    sample_rate: u32,
    frame_duration: u64,
    frame_overlap: f32,
    has_pre_emphasis: bool,
    pre_emphasis: f32,
    activation_ratio: f32,
    release_ratio: f32,
    min_speech_energy: f32,
    noise_smoothing: f32,
    energy_floor: f32,
    hangover_frames: u64,
    speech_padding: u64,
    min_speech_frames: u64,
    stream_start_time: u64,
) -> VadConfig
    ensures { result ≡ settings_of sample_rate frame_duration frame_overlap has_pre_emphasis pre_emphasis activation_ratio release_ratio min_speech_energy noise_smoothing energy_floor hangover_frames speech_padding min_speech_frames stream_start_time }
{
    VadConfig {
        sample_rate,
        frame_duration,
        frame_overlap,
        has_pre_emphasis,
        pre_emphasis,
        activation_ratio,
        release_ratio,
        min_speech_energy,
        noise_smoothing,
        energy_floor,
        hangover_frames,
        speech_padding,
        min_speech_frames,
        stream_start_time,
    }
}
