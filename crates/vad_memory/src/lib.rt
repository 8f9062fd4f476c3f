// A detector read from the memory that the host lends, and written there.

#![tactic(auto)]

ghost use Rattle.std.specs.Prelude.{◌≡◌, true, ◌++◌, ◌+◌, ◌≤◌, length, take, drop};
ghost use Rattle.std.proofs.lemmas.List.Edits.{sets};
ghost use Rattle.vad_layout.specs.Layout.{numbers_most, floats_most, carry_first, warmup_first, singles_first};
ghost use Rattle.ranges.specs.Sizes.{frame_most, warmup_most};
ghost use Rattle.vad_memory.specs.DetectorState.{rate_at, config_at, lengths_at, rules_at, stream_at, segment_at, active_at, track_at, desk_at, kept_at, detector_at, long_enough, readable, numbers_of, singles_of, numbers_written, floats_written};

use ranges::{FRAME_MOST, WARMUP_MOST};
use vad_call::Tally;
use vad_config::{Lengths, VadConfig};
use vad_layout::{FLOATS, LAYOUT, NUMBERS, in_floats, in_numbers};
use vad_segments::{ActiveSegmentState, Rules, Track};
use vad_state::{Desk, Kept, Stream, VadDetector};

pub fn long_enough(numbers: &[u64], floats: &[f32]) -> bool
    ensures { result ≡ long_enough numbers.now floats.now }
{
    NUMBERS <= numbers.len() && FLOATS <= floats.len()
}

// Long enough, of this layout, the rate in its 32 bits, and each flag 0 or 1. The detector itself judges the rest. Not one `&&`: its proof asks for a split at each place.
pub fn is_readable(numbers: &[u64], floats: &[f32]) -> bool
    ensures { result ≡ readable numbers.now floats.now }
{
    if !long_enough(numbers, floats) {
        return false;
    }
    if numbers[in_numbers::LAYOUT] != LAYOUT {
        return false;
    }
    if 0xffff_ffff < numbers[in_numbers::SAMPLE_RATE] {
        return false;
    }
    if 1 < numbers[in_numbers::HAS_PRE_EMPHASIS] {
        return false;
    }
    if 1 < numbers[in_numbers::WARMING] {
        return false;
    }
    numbers[in_numbers::IS_OPEN] <= 1
}

// Memory that is readable: a state fits into it, and the rate into its 32 bits.
#[derive(Clone, Copy)]
struct Memory<'a> {
    numbers: &'a [u64],
    floats: &'a [f32],
    ghost numbers_fit: { numbers_most ≤ length numbers.now },
    ghost floats_fit: { floats_most ≤ length floats.now },
    ghost rate_fits: { rate_at numbers.now ≤ 0xffff_ffff },
}

impl Memory<'_> {
    fn config(self) -> VadConfig
        ensures { result ≡ config_at self.entry.numbers.now self.entry.floats.now }
    {
        VadConfig {
            sample_rate: self.numbers[in_numbers::SAMPLE_RATE] as u32,
            frame_duration: self.numbers[in_numbers::FRAME_DURATION],
            frame_overlap: self.floats[in_floats::FRAME_OVERLAP],
            has_pre_emphasis: self.numbers[in_numbers::HAS_PRE_EMPHASIS] == 1,
            pre_emphasis: self.floats[in_floats::PRE_EMPHASIS],
            activation_ratio: self.floats[in_floats::ACTIVATION_RATIO],
            release_ratio: self.floats[in_floats::RELEASE_RATIO],
            min_speech_energy: self.floats[in_floats::MIN_SPEECH_ENERGY],
            noise_smoothing: self.floats[in_floats::NOISE_SMOOTHING],
            energy_floor: self.floats[in_floats::ENERGY_FLOOR],
            hangover_frames: self.numbers[in_numbers::HANGOVER_FRAMES],
            speech_padding: self.numbers[in_numbers::SPEECH_PADDING],
            min_speech_frames: self.numbers[in_numbers::MIN_SPEECH_FRAMES],
            stream_start_time: self.numbers[in_numbers::STREAM_START_TIME],
        }
    }

    fn lengths(self) -> Lengths
        ensures { result ≡ lengths_at self.entry.numbers.now }
    {
        Lengths {
            frame_length: self.numbers[in_numbers::FRAME_LENGTH] as usize,
            hop_length: self.numbers[in_numbers::HOP_LENGTH] as usize,
            warmup_frames: self.numbers[in_numbers::WARMUP_FRAMES] as usize,
            padding_samples: self.numbers[in_numbers::PADDING_SAMPLES] as usize,
        }
    }

    fn rules(self) -> Rules
        ensures { result ≡ rules_at self.entry.numbers.now self.entry.floats.now }
    {
        Rules {
            config: self.config(),
            lengths: self.lengths(),
            speech_floor_rise: self.floats[in_floats::SPEECH_FLOOR_RISE],
        }
    }

    fn stream(self) -> Stream
        ensures { result ≡ stream_at self.entry.numbers.now self.entry.floats.now }
    {
        Stream {
            carry_len: self.numbers[in_numbers::CARRY_LEN] as usize,
            carry_start: self.numbers[in_numbers::CARRY_START],
            processed_samples: self.numbers[in_numbers::PROCESSED_SAMPLES],
            pre_emphasis_prev: self.floats[in_floats::PRE_EMPHASIS_PREV],
        }
    }

    fn segment(self) -> ActiveSegmentState
        ensures { result ≡ segment_at self.entry.numbers.now self.entry.floats.now }
    {
        ActiveSegmentState {
            start_sample: self.numbers[in_numbers::START_SAMPLE],
            last_end_sample: self.numbers[in_numbers::LAST_END_SAMPLE],
            score_total: self.numbers[in_numbers::SCORE_TOTAL],
            energy_sum: self.floats[in_floats::ENERGY_SUM],
            loud_frames: self.numbers[in_numbers::LOUD_FRAMES],
            silence_run: self.numbers[in_numbers::SILENCE_RUN],
        }
    }

    fn active(self) -> Option<ActiveSegmentState>
        ensures { result ≡ active_at self.entry.numbers.now self.entry.floats.now }
    {
        (self.numbers[in_numbers::IS_OPEN] == 1).then_some(self.segment())
    }

    fn track(self) -> Track
        ensures { result ≡ track_at self.entry.numbers.now self.entry.floats.now }
    {
        Track {
            noise_floor: self.floats[in_floats::NOISE_FLOOR],
            last_segment_end: self.numbers[in_numbers::LAST_SEGMENT_END],
            rows_reported: self.numbers[in_numbers::ROWS_REPORTED],
            talk_samples: self.numbers[in_numbers::TALK_SAMPLES],
            active_segment: self.active(),
        }
    }

    fn desk(self) -> Desk
        ensures { result ≡ desk_at self.entry.numbers.now self.entry.floats.now }
    {
        Desk {
            warming: self.numbers[in_numbers::WARMING] == 1,
            held: self.numbers[in_numbers::HELD] as usize,
            track: self.track(),
        }
    }

    fn kept(self) -> Kept
        ensures { result ≡ kept_at self.entry.numbers.now self.entry.floats.now }
    {
        Kept {
            rules: self.rules(),
            stream: self.stream(),
            desk: self.desk(),
        }
    }

    // A part of the floats, as an array.
    fn part<const N: usize>(self, at: usize) -> [f32; N]
        requires { at + N ≤ floats_most }
        ensures { result ≡ take N (drop at self.entry.floats.now) }
    {
        let mut part = [0.0; N];
        part.copy_from_slice(&self.floats[at..at + N]);
        part
    }
}

// The numbers alone: the arrays stay where they stand.
pub fn kept_at(numbers: &[u64], floats: &[f32]) -> Kept
    requires { readable numbers.now floats.now ≡ true }
    ensures { result ≡ kept_at numbers.now floats.now }
{
    Memory { numbers, floats }.kept()
}

pub fn detector_at(numbers: &[u64], floats: &[f32]) -> VadDetector
    requires { readable numbers.now floats.now ≡ true }
    ensures { result ≡ detector_at numbers.now floats.now }
{
    let memory = Memory { numbers, floats };
    VadDetector {
        kept: memory.kept(),
        window: memory.part(in_floats::WINDOW),
        carry: memory.part(in_floats::CARRY),
        warmup: memory.part(in_floats::WARMUP),
    }
}

// What is written where no segment is open.
const CLOSED: ActiveSegmentState = ActiveSegmentState {
    start_sample: 0,
    last_end_sample: 0,
    score_total: 0,
    energy_sum: 0.0,
    loud_frames: 0,
    silence_run: 0,
};

fn numbers_of(kept: Kept, tally: Tally) -> [u64; NUMBERS]
    ensures { result ≡ numbers_of kept tally }
{
    let active = kept.desk.track.active_segment;
    let segment = active.unwrap_or(CLOSED);
    [
        LAYOUT,
        tally.frames as u64,
        tally.loud as u64,
        tally.quiet as u64,
        tally.rows as u64,
        kept.rules.config.sample_rate as u64,
        kept.rules.config.frame_duration,
        kept.rules.config.has_pre_emphasis as u64,
        kept.rules.config.hangover_frames,
        kept.rules.config.speech_padding,
        kept.rules.config.min_speech_frames,
        kept.rules.config.stream_start_time,
        kept.rules.lengths.frame_length as u64,
        kept.rules.lengths.hop_length as u64,
        kept.rules.lengths.warmup_frames as u64,
        kept.rules.lengths.padding_samples as u64,
        kept.stream.carry_len as u64,
        kept.stream.carry_start,
        kept.stream.processed_samples,
        kept.desk.warming as u64,
        kept.desk.held as u64,
        kept.desk.track.last_segment_end,
        kept.desk.track.rows_reported,
        kept.desk.track.talk_samples,
        active.is_some() as u64,
        segment.start_sample,
        segment.last_end_sample,
        segment.score_total,
        segment.loud_frames,
        segment.silence_run,
    ]
}

fn singles_of(kept: Kept) -> [f32; 11]
    ensures { result ≡ singles_of kept }
{
    let segment = kept.desk.track.active_segment.unwrap_or(CLOSED);
    [
        kept.rules.config.frame_overlap,
        kept.rules.config.pre_emphasis,
        kept.rules.config.activation_ratio,
        kept.rules.config.release_ratio,
        kept.rules.config.min_speech_energy,
        kept.rules.config.noise_smoothing,
        kept.rules.config.energy_floor,
        kept.rules.speech_floor_rise,
        kept.stream.pre_emphasis_prev,
        kept.desk.track.noise_floor,
        segment.energy_sum,
    ]
}

// Apart from `put_detector`, since a state that is lent in part is copied for each call that takes it whole.
fn put_arrays(to: &mut [f32], detector: VadDetector)
    requires { floats_most ≤ length to.old }
    ensures { to.new ≡ detector.window ++ (detector.carry ++ (detector.warmup ++ drop singles_first to.old)) }
{
    to[in_floats::WINDOW..in_floats::CARRY].copy_from_slice(&detector.window);
    to[in_floats::CARRY..in_floats::WARMUP].copy_from_slice(&detector.carry);
    to[in_floats::WARMUP..in_floats::SINGLES].copy_from_slice(&detector.warmup);
}

// The same way back: what stands in the places of the arrays stays.
pub fn put_kept(numbers: &mut [u64], floats: &mut [f32], kept: Kept, tally: Tally)
    requires { long_enough numbers.old floats.old ≡ true }
    ensures numbers_left { numbers.new ≡ numbers_written kept tally numbers.old }
    ensures floats_left { floats.new ≡ sets floats.old singles_first (singles_of kept) }
{
    numbers[..NUMBERS].copy_from_slice(&numbers_of(kept, tally));
    floats[in_floats::SINGLES..FLOATS].copy_from_slice(&singles_of(kept));
}

pub fn put_detector(numbers: &mut [u64], floats: &mut [f32], detector: VadDetector, tally: Tally)
    requires { long_enough numbers.old floats.old ≡ true }
    ensures numbers_left { numbers.new ≡ numbers_written detector.kept tally numbers.old }
    ensures floats_left { floats.new ≡ floats_written detector floats.old }
{
    put_arrays(floats, detector);
    put_kept(numbers, floats, detector.kept, tally);
}
