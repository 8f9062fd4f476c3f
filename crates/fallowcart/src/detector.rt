// The detector, whose functions are vad_door's; the state is numbers and floats that the host keeps, laid out as vad_layout says.
ghost use Rattle.std.specs.Prelude.{◌≡◌, length};
ghost use Rattle.vad_config.specs.Config.{settings_of};
ghost use Rattle.vad_detector.specs.Readings.{undecided_read, analyzed_read, rows_read, talk_read};
ghost use Rattle.vad_detector.specs.Run.{Detect, Flush, Reset, answered};
ghost use Rattle.vad_door.specs.DetectorDoor.{open_answer, open_numbers, open_floats, call_answer, call_numbers, call_floats, detected_rows, flushed_rows, read_answer, floor_word, segment_word};

use crate::config::collected;

// The window is a frame long; the host works it and the rise weight out.
#[unsafe(no_mangle)]
pub extern "C" fn fallowcart_vad_open(
    sample_rate: u32,
    frame_duration: u64,
    frame_overlap: f32,
    has_pre_emphasis: bool,
    pre_emphasis: f32,
    activation_ratio: f32,
    release_ratio: f32,
    min_speech_energy: f32,
    noise_smoothing: f32,
    energy_floor: f32,
    hangover_frames: u64,
    speech_padding: u64,
    min_speech_frames: u64,
    stream_start_time: u64,
    window: &[f32],
    speech_floor_rise: f32,
    numbers: &mut [u64],
    floats: &mut [f32],
) -> u64
    ensures value { result ≡ open_answer (settings_of sample_rate frame_duration frame_overlap has_pre_emphasis pre_emphasis activation_ratio release_ratio min_speech_energy noise_smoothing energy_floor hangover_frames speech_padding min_speech_frames stream_start_time) window.now speech_floor_rise numbers.old floats.old }
    ensures numbers_left { numbers.new ≡ open_numbers (settings_of sample_rate frame_duration frame_overlap has_pre_emphasis pre_emphasis activation_ratio release_ratio min_speech_energy noise_smoothing energy_floor hangover_frames speech_padding min_speech_frames stream_start_time) window.now speech_floor_rise numbers.old floats.old }
    ensures floats_left { floats.new ≡ open_floats (settings_of sample_rate frame_duration frame_overlap has_pre_emphasis pre_emphasis activation_ratio release_ratio min_speech_energy noise_smoothing energy_floor hangover_frames speech_padding min_speech_frames stream_start_time) window.now speech_floor_rise numbers.old floats.old }
{
    let config = collected(
        sample_rate,
        frame_duration,
        frame_overlap,
        has_pre_emphasis,
        pre_emphasis,
        activation_ratio,
        release_ratio,
        min_speech_energy,
        noise_smoothing,
        energy_floor,
        hangover_frames,
        speech_padding,
        min_speech_frames,
        stream_start_time,
    );
    vad_door::open(config, window, speech_floor_rise, numbers, floats)
}

// Carries the sample's place with 16, the rows needed with 18.
#[unsafe(no_mangle)]
pub extern "C" fn fallowcart_vad_detect(
    numbers: &mut [u64],
    floats: &mut [f32],
    samples: &[f32],
    rows: &mut [u64],
) -> u64
    ensures value { result ≡ call_answer numbers.old floats.old (answered (Detect samples.now (length rows.old))) }
    ensures numbers_left { numbers.new ≡ call_numbers numbers.old floats.old (answered (Detect samples.now (length rows.old))) }
    ensures floats_left { floats.new ≡ call_floats numbers.old floats.old (answered (Detect samples.now (length rows.old))) }
    ensures rows_left { rows.new ≡ detected_rows numbers.old floats.old samples.now rows.old }
{
    vad_door::detect(numbers, floats, samples, rows)
}

// Carries the rows needed with 18.
#[unsafe(no_mangle)]
pub extern "C" fn fallowcart_vad_flush(
    numbers: &mut [u64],
    floats: &mut [f32],
    rows: &mut [u64],
) -> u64
    ensures value { result ≡ call_answer numbers.old floats.old (answered (Flush (length rows.old))) }
    ensures numbers_left { numbers.new ≡ call_numbers numbers.old floats.old (answered (Flush (length rows.old))) }
    ensures floats_left { floats.new ≡ call_floats numbers.old floats.old (answered (Flush (length rows.old))) }
    ensures rows_left { rows.new ≡ flushed_rows numbers.old floats.old rows.old }
{
    vad_door::flush(numbers, floats, rows)
}

#[unsafe(no_mangle)]
pub extern "C" fn fallowcart_vad_reset(
    numbers: &mut [u64],
    floats: &mut [f32],
    stream_start_time: u64,
) -> u64
    ensures value { result ≡ call_answer numbers.old floats.old (answered (Reset stream_start_time)) }
    ensures numbers_left { numbers.new ≡ call_numbers numbers.old floats.old (answered (Reset stream_start_time)) }
    ensures floats_left { floats.new ≡ call_floats numbers.old floats.old (answered (Reset stream_start_time)) }
{
    vad_door::reset(numbers, floats, stream_start_time)
}

// The readings carry their value.
#[unsafe(no_mangle)]
pub extern "C" fn fallowcart_vad_undecided_from(numbers: &[u64], floats: &[f32]) -> u64
    ensures { result ≡ read_answer numbers.now floats.now undecided_read }
{
    vad_door::undecided_from(numbers, floats)
}

#[unsafe(no_mangle)]
pub extern "C" fn fallowcart_vad_analyzed_until(numbers: &[u64], floats: &[f32]) -> u64
    ensures { result ≡ read_answer numbers.now floats.now analyzed_read }
{
    vad_door::analyzed_until(numbers, floats)
}

// Carries 0 where no segment is open, else one more than its start.
#[unsafe(no_mangle)]
pub extern "C" fn fallowcart_vad_active_segment_start_sample(numbers: &[u64], floats: &[f32]) -> u64
    ensures { result ≡ read_answer numbers.now floats.now segment_word }
{
    vad_door::active_segment_start_sample(numbers, floats)
}

#[unsafe(no_mangle)]
pub extern "C" fn fallowcart_vad_rows_reported(numbers: &[u64], floats: &[f32]) -> u64
    ensures { result ≡ read_answer numbers.now floats.now rows_read }
{
    vad_door::rows_reported(numbers, floats)
}

#[unsafe(no_mangle)]
pub extern "C" fn fallowcart_vad_talk_samples(numbers: &[u64], floats: &[f32]) -> u64
    ensures { result ≡ read_answer numbers.now floats.now talk_read }
{
    vad_door::talk_samples(numbers, floats)
}

// Carries the floor's bits.
#[unsafe(no_mangle)]
pub extern "C" fn fallowcart_vad_noise_floor(numbers: &[u64], floats: &[f32]) -> u64
    ensures { result ≡ read_answer numbers.now floats.now floor_word }
{
    vad_door::noise_floor(numbers, floats)
}
