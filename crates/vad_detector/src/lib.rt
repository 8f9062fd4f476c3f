// The streaming voice activity detector: the Rust's src/vad/detector.rs. The state is passed in and returned, rows are lent.

#![tactic(auto)]

ghost use Rattle.std.specs.Prelude.{◌≡◌, true, ◌≤◌, length};
ghost use Rattle.ranges.specs.Sizes.{frame_most};
ghost use Rattle.vad_state.specs.State.{sound_of};
ghost use Rattle.vad_call.specs.Checks.{check_of};
ghost use Rattle.vad_detector.specs.Opening.{weights_fit, open_verdict, blank_of, fresh_of, nothing_open, open_of, reset_to, reset_of};
ghost use Rattle.vad_detector.specs.Entries.{detect_of, detect_rows, flush_of, flush_rows};
ghost use Rattle.vad_detector.specs.Readings.{read_of, undecided_read, analyzed_read, rows_read, talk_read, floor_read, open_start, segment_read};

use ranges::{BLOCK_MOST, FRAME_MOST, RECEIVED_MOST, WARMUP_MOST};
use refusals::Refusal;
use vad_call::{Answered, Detected, refused, run};
use vad_config::VadConfig;
use vad_segments::setters::fresh_track;
use vad_segments::{ActiveSegmentState, Rules};
use vad_state::arrays::filled;
use vad_state::{Desk, Kept, LentArrays, Stream, VadDetector, sound, weights_in};

// What opening and reset answer.
pub type Opened = Answered<()>;

// No sound, and no frame held.
fn blank(rules: Rules, warming: bool, noise_floor: f32, window: &[f32]) -> VadDetector
    requires { length window.now ≤ frame_most }
    ensures { result ≡ blank_of rules warming noise_floor window.now }
{
    VadDetector {
        kept: Kept {
            rules,
            stream: Stream {
                carry_len: 0,
                carry_start: 0,
                processed_samples: 0,
                pre_emphasis_prev: 0.0,
            },
            desk: Desk {
                warming,
                held: 0,
                track: fresh_track(noise_floor),
            },
        },
        window: filled(window),
        carry: [0.0; FRAME_MOST],
        warmup: [0.0; WARMUP_MOST],
    }
}

// The Rust's `DetectorState::new`, beside what opening fixed.
#[tactic(auto, unfolding(crate::specs::Opening::fresh_of))]
fn fresh(rules: Rules, window: &[f32]) -> VadDetector
    requires { length window.now ≤ frame_most }
    ensures { result ≡ fresh_of rules window.now }
{
    blank(rules, true, rules.config.energy_floor, window)
}

// What a refused opening returns: all zeros, refused by 19 in every later call.
#[tactic(auto, unfolding(crate::specs::Opening::nothing_open, crate::specs::Opening::zero_rules))]
fn nothing_open() -> VadDetector
    ensures { result ≡ nothing_open }
{
    blank(Rules::default(), false, 0.0, &[])
}

// 14: what the host hands in, against the frame's length.
#[tactic(auto, unfolding(crate::specs::Opening::weights_fit))]
fn weights_fit(frame_length: usize, window: &[f32], rise: f32) -> bool
    ensures { result ≡ weights_fit frame_length window.now rise }
{
    window.len() == frame_length && weights_in(window, rise)
}

// 1 to 14.
fn opening_refusal(config: VadConfig, window: &[f32], speech_floor_rise: f32) -> Result<(), Refusal>
    ensures { result ≡ open_verdict config window.now speech_floor_rise }
{
    vad_config::validate(config)?;
    let lengths = vad_config::lengths_of(config);
    if !weights_fit(lengths.frame_length, window, speech_floor_rise) {
        return Err(Refusal::Window);
    }
    Ok(())
}

// Opens a detector with the window and the rise weight that the host worked out.
pub fn open(config: VadConfig, window: &[f32], speech_floor_rise: f32) -> Opened
    ensures { result ≡ open_of config window.now speech_floor_rise }
{
    let outcome = opening_refusal(config, window, speech_floor_rise);
    if outcome.is_err() {
        return Answered {
            outcome,
            detector: nothing_open(),
        };
    }
    let rules = Rules {
        config,
        lengths: vad_config::lengths_of(config),
        speech_floor_rise,
    };
    Answered {
        outcome,
        detector: fresh(rules, window),
    }
}

// The state of a new stream that starts at another time.
fn restarted(detector: VadDetector, stream_start_time: u64) -> VadDetector
    requires { sound_of detector ≡ true }
    ensures { result ≡ reset_to detector stream_start_time }
{
    let rules = detector.kept.rules;
    let config = VadConfig {
        stream_start_time,
        ..rules.config
    };
    fresh(
        Rules { config, ..rules },
        &detector.window[..rules.lengths.frame_length],
    )
}

// Clears all that was heard, the noise floor included, and sets a new stream start.
pub fn reset(detector: VadDetector, stream_start_time: u64) -> Opened
    ensures { result ≡ reset_of detector stream_start_time }
{
    if !sound(detector) {
        return Answered {
            outcome: Err(Refusal::State),
            detector,
        };
    }
    if !vad_config::start_allowed(stream_start_time) {
        return Answered {
            outcome: Err(Refusal::Limits),
            detector,
        };
    }
    Answered {
        outcome: Ok(()),
        detector: restarted(detector, stream_start_time),
    }
}

// The arrays are lent, so that none is copied.
fn check(detector: VadDetector, samples: &[f32]) -> Result<(), Refusal>
    ensures { result ≡ check_of detector samples.now }
{
    vad_call::checks::check(
        detector.kept,
        LentArrays {
            window: &detector.window,
            carry: &detector.carry,
            warmup: &detector.warmup,
        },
        samples,
    )
}

// Hears the next block of the stream. Blocks can be any size up to 1,024: what does not fill a frame yet waits for the next call, and a segment that is still open is reported once it closes.
pub fn detect(detector: VadDetector, samples: &[f32], rows: &mut [u64]) -> Detected
    ensures value { result ≡ detect_of detector samples.now (length rows.old) }
    ensures rows_left { rows.new ≡ detect_rows detector samples.now rows.old }
{
    match check(detector, samples) {
        Err(by) => refused(by, detector),
        Ok(()) => run(detector, samples, false, rows),
    }
}

// Judges what still waits for a full frame and closes the open segment, if there is one.
pub fn flush(detector: VadDetector, rows: &mut [u64]) -> Detected
    ensures value { result ≡ flush_of detector (length rows.old) }
    ensures rows_left { rows.new ≡ flush_rows detector rows.old }
{
    if !sound(detector) {
        return refused(Refusal::State, detector);
    }
    run(detector, &[], true, rows)
}

#[tactic(auto, unfolding(crate::specs::Readings::read_of))]
fn read<T: Copy>(detector: VadDetector, value: T) -> Result<T, Refusal>
    ensures { result ≡ read_of detector value }
{
    if sound(detector) {
        Ok(value)
    } else {
        Err(Refusal::State)
    }
}

// The first sample whose judgement can still change.
#[tactic(auto, unfolding(crate::specs::Readings::undecided_read, crate::specs::Readings::undecided_in))]
pub fn undecided_from(detector: VadDetector) -> Result<u64, Refusal>
    ensures { result ≡ undecided_read detector }
{
    let kept = detector.kept;
    let position = vad_segments::positions::undecided_from(
        kept.desk.warming,
        kept.rules.lengths.padding_samples as u64,
        kept.stream.carry_start,
        kept.desk.track,
    );
    read(detector, position)
}

// The first sample not yet covered by a complete frame.
#[tactic(auto, unfolding(crate::specs::Readings::analyzed_read))]
pub fn analyzed_until(detector: VadDetector) -> Result<u64, Refusal>
    ensures { result ≡ analyzed_read detector }
{
    read(detector, detector.kept.stream.carry_start)
}

// The start of the segment that is open, if any.
#[tactic(auto, unfolding(crate::specs::Readings::segment_read))]
pub fn active_segment_start_sample(detector: VadDetector) -> Result<Option<u64>, Refusal>
    ensures { result ≡ segment_read detector }
{
    read(
        detector,
        open_start(detector.kept.desk.track.active_segment),
    )
}

#[tactic(auto, unfolding(crate::specs::Readings::open_start))]
fn open_start(active: Option<ActiveSegmentState>) -> Option<u64>
    ensures { result ≡ open_start active }
{
    active.map(|segment| segment.start_sample)
}

// Rows since the opening or the latest reset.
#[tactic(auto, unfolding(crate::specs::Readings::rows_read))]
pub fn rows_reported(detector: VadDetector) -> Result<u64, Refusal>
    ensures { result ≡ rows_read detector }
{
    read(detector, detector.kept.desk.track.rows_reported)
}

// Their samples.
#[tactic(auto, unfolding(crate::specs::Readings::talk_read))]
pub fn talk_samples(detector: VadDetector) -> Result<u64, Refusal>
    ensures { result ≡ talk_read detector }
{
    read(detector, detector.kept.desk.track.talk_samples)
}

// The running estimate of the background's energy.
#[tactic(auto, unfolding(crate::specs::Readings::floor_read))]
pub fn noise_floor(detector: VadDetector) -> Result<f32, Refusal>
    ensures { result ≡ floor_read detector }
{
    read(detector, detector.kept.desk.track.noise_floor)
}
