// The detector's state, and which states are sound: refusal 19. Each part is tested before it is added or multiplied, since a state from elsewhere can hold any numbers.

#![tactic(auto)]

pub mod arrays;

ghost use Rattle.std.specs.Prelude.{◌≡◌, ◌≤◌, length};
ghost use Rattle.ranges.specs.Sizes.{frame_most, warmup_most, received_most};
ghost use Rattle.vad_state.specs.State.{state_of, weights_in, settings_sound, carry_sound, track_sound, held_sound, segment_sound, active_sound, sound_of};

use ranges::{FRAME_MOST, RECEIVED_MOST, WARMUP_MOST, all_inside, inside};
use vad_config::Lengths;
use vad_segments::{ActiveSegmentState, Rules, Track};

// How far the stream has come. What a call does to it looks at samples and never at energies.
#[derive(Clone, Copy)]
pub struct Stream {
    pub carry_len: usize,
    // Where the carry starts in the stream.
    pub carry_start: u64,
    // Samples received so far.
    pub processed_samples: u64,
    // The last raw sample.
    pub pre_emphasis_prev: f32,
}

// Where frames are judged. What a call does to it looks at energies and never at samples.
#[derive(Clone, Copy)]
pub struct Desk {
    // Whether the first frames are still held back, until the background can be estimated from them.
    pub warming: bool,
    pub held: usize,
    pub track: Track,
}

// All of a state but its arrays, which are lent where they are looked at.
#[derive(Clone, Copy)]
pub struct Kept {
    pub rules: Rules,
    pub stream: Stream,
    pub desk: Desk,
}

// The Rust's `VadDetector` and `DetectorState`. Past the used part of an array an accepted call leaves zeros. How much is used stands among the numbers: there is no heap, and
// the host keeps numbers and floats apart.
#[derive(Clone, Copy)]
pub struct VadDetector {
    pub kept: Kept,
    // As handed in at opening, a frame long.
    pub window: [f32; FRAME_MOST],
    // Pre-emphasized values that no complete frame has used up yet.
    pub carry: [f32; FRAME_MOST],
    // The energies of the frames held.
    pub warmup: [f32; WARMUP_MOST],
}

// A state's arrays as they are lent, so that none is copied.
#[derive(Clone, Copy)]
pub struct LentArrays<'a> {
    pub window: &'a [f32; FRAME_MOST],
    pub carry: &'a [f32; FRAME_MOST],
    pub warmup: &'a [f32; WARMUP_MOST],
}

// Of 14 what does not speak of the window's length.
#[tactic(auto, unfolding(crate::specs::State::weights_in))]
pub fn weights_in(window: &[f32], rise: f32) -> bool
    ensures { result ≡ weights_in window.now rise }
{
    all_inside(0.0, window, 1.0) && inside(0.5, rise, 1.0)
}

// Only the frame's part of the window is looked at.
#[tactic(auto, unfolding(crate::specs::State::settings_sound))]
fn settings_sound(rules: Rules, window: &[f32]) -> bool
    requires { length window.now ≡ frame_most }
    ensures { result ≡ settings_sound rules window.now }
{
    vad_config::validate(rules.config).is_ok()
        && rules.lengths == vad_config::lengths_of(rules.config)
        && weights_in(
            &window[..rules.lengths.frame_length],
            rules.speech_floor_rise,
        )
}

// Only the carry's own part of its array is looked at.
#[tactic(auto, unfolding(crate::specs::State::carry_sound, ranges::specs::Ranges::in_domain))]
fn carry_sound(frame_length: usize, carry: &[f32], stream: Stream) -> bool
    requires { (frame_length ≤ frame_most) × (length carry.now ≡ frame_most) }
    ensures { result ≡ carry_sound frame_length carry.now stream }
{
    stream.carry_len < frame_length
        && stream.carry_start.checked_add(stream.carry_len as u64) == Some(stream.processed_samples)
        && all_inside(-131072.0, &carry[..stream.carry_len], 131072.0)
        && inside(-65536.0, stream.pre_emphasis_prev, 65536.0)
}

#[tactic(auto, unfolding(crate::specs::State::track_sound, vad_config::specs::Domain::received_in))]
fn track_sound(energy_floor: f32, received: u64, track: Track) -> bool
    ensures { result ≡ track_sound energy_floor received track }
{
    float::is_finite(track.noise_floor)
        && !(track.noise_floor < energy_floor)
        && received <= RECEIVED_MOST
        && track.last_segment_end <= received
        && track.talk_samples <= track.last_segment_end
        && track.rows_reported <= received
}

#[tactic(auto, unfolding(crate::specs::State::held_sound, crate::specs::State::is_closed))]
fn held_sound(lengths: Lengths, warmup: &[f32], carry_start: u64, desk: Desk) -> bool
    requires { (lengths.warmup_frames ≤ warmup_most) × (lengths.hop_length ≤ frame_most) × (length warmup.now ≡ warmup_most) }
    ensures { result ≡ held_sound lengths warmup.now carry_start desk }
{
    desk.held < lengths.warmup_frames
        && (desk.held * lengths.hop_length) as u64 == carry_start
        && all_inside(0.0, &warmup[..desk.held], 131072.0)
        && desk.track.active_segment.is_none()
}

#[tactic(auto, unfolding(crate::specs::State::segment_sound))]
fn segment_sound(
    hangover_frames: u64,
    received: u64,
    last_segment_end: u64,
    segment: ActiveSegmentState,
) -> bool
    requires { received ≤ received_most }
    ensures { result ≡ segment_sound hangover_frames received last_segment_end segment }
{
    last_segment_end <= segment.start_sample
        && segment.start_sample <= received
        && segment.last_end_sample <= received
        && 0 < segment.loud_frames
        && segment.loud_frames <= received
        && segment.score_total <= 1024 * segment.loud_frames
        && inside(0.0, segment.energy_sum, 1152921504606846976.0)
        && segment.silence_run <= hangover_frames
}

#[tactic(auto, unfolding(crate::specs::State::active_sound))]
fn active_sound(
    hangover_frames: u64,
    received: u64,
    last_segment_end: u64,
    active: Option<ActiveSegmentState>,
) -> bool
    requires { received ≤ received_most }
    ensures { result ≡ active_sound hangover_frames received last_segment_end active }
{
    active.is_none_or(|segment| segment_sound(hangover_frames, received, last_segment_end, segment))
}

// A state whose arrays are lent.
#[tactic(auto, unfolding(crate::specs::State::sound_of))]
pub fn sound_lent(kept: Kept, arrays: LentArrays) -> bool
    ensures { result ≡ sound_of (state_of kept arrays.entry.window.now arrays.entry.carry.now arrays.entry.warmup.now) }
{
    let Kept {
        rules,
        stream,
        desk,
    } = kept;
    let LentArrays {
        window,
        carry,
        warmup,
    } = arrays;
    let track = desk.track;
    let received = stream.processed_samples;
    settings_sound(rules, window)
        && carry_sound(rules.lengths.frame_length, carry, stream)
        && track_sound(rules.config.energy_floor, received, track)
        && (!desk.warming || held_sound(rules.lengths, warmup, stream.carry_start, desk))
        && active_sound(
            rules.config.hangover_frames,
            received,
            track.last_segment_end,
            track.active_segment,
        )
}

pub fn sound(detector: VadDetector) -> bool
    ensures { result ≡ sound_of detector }
{
    sound_lent(
        detector.kept,
        LentArrays {
            window: &detector.window,
            carry: &detector.carry,
            warmup: &detector.warmup,
        },
    )
}
