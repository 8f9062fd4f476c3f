// The detector's settings: what refuses them, and the numbers that follow from them.
ghost use Rattle.std.specs.Prelude.{◌≡◌};
ghost use Rattle.vad_config.specs.Lengths.{frame_length_of, hop_length_of, warmup_frames_of, padding_samples_of, time_of_sample_of};
ghost use Rattle.vad_config.specs.Settings.{refusal_of};
ghost use Rattle.vad_config.specs.Config.{settings_of};

use crate::config::collected;

#[unsafe(no_mangle)]
pub extern "C" fn fallowcart_settings_refusal(
    sample_rate: u32,
    frame_duration: u64,
    frame_overlap: f32,
    has_pre_emphasis: bool,
    pre_emphasis: f32,
    activation_ratio: f32,
    release_ratio: f32,
    min_speech_energy: f32,
    noise_smoothing: f32,
    energy_floor: f32,
    hangover_frames: u64,
    speech_padding: u64,
    min_speech_frames: u64,
    stream_start_time: u64,
) -> u32
    ensures { result ≡ refusal_of (settings_of sample_rate frame_duration frame_overlap has_pre_emphasis pre_emphasis activation_ratio release_ratio min_speech_energy noise_smoothing energy_floor hangover_frames speech_padding min_speech_frames stream_start_time) }
{
    refusals::number_in(vad_config::validate(collected(
        sample_rate,
        frame_duration,
        frame_overlap,
        has_pre_emphasis,
        pre_emphasis,
        activation_ratio,
        release_ratio,
        min_speech_energy,
        noise_smoothing,
        energy_floor,
        hangover_frames,
        speech_padding,
        min_speech_frames,
        stream_start_time,
    )))
}

#[unsafe(no_mangle)]
pub extern "C" fn fallowcart_frame_length(sample_rate: u32, frame_duration: u64) -> u64
    ensures { result ≡ frame_length_of sample_rate frame_duration }
{
    vad_config::frame_length_samples(sample_rate, frame_duration) as u64
}

#[unsafe(no_mangle)]
pub extern "C" fn fallowcart_hop_length(frame_length: u64, frame_overlap: f32) -> u64
    ensures { result ≡ hop_length_of frame_length frame_overlap }
{
    vad_config::hop_length_samples(frame_length as usize, frame_overlap) as u64
}

#[unsafe(no_mangle)]
pub extern "C" fn fallowcart_warmup_frames(hop_length: u64, sample_rate: u32) -> u64
    ensures { result ≡ warmup_frames_of hop_length sample_rate }
{
    vad_config::warmup_frames(hop_length as usize, sample_rate) as u64
}

#[unsafe(no_mangle)]
pub extern "C" fn fallowcart_padding_samples(speech_padding: u64, sample_rate: u32) -> u64
    ensures { result ≡ padding_samples_of speech_padding sample_rate }
{
    vad_config::padding_samples(speech_padding, sample_rate) as u64
}

#[unsafe(no_mangle)]
pub extern "C" fn fallowcart_time_of_sample(
    stream_start_time: u64,
    sample_rate: u32,
    sample: u64,
) -> u64
    ensures { result ≡ time_of_sample_of stream_start_time sample_rate sample }
{
    vad_config::time_of_sample(stream_start_time, sample_rate, sample)
}
