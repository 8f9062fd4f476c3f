// One frame judged and a segment closed: the body of `classify`, and `finalize_segment`, of the Rust's src/vad/detector.rs. What judging changes is a `Track`, passed in and returned. A call's frames in order are vad_classify's.

#![tactic(auto)]

pub mod closing;
pub mod judging;
mod loudness;
pub mod positions;
pub mod setters;

ghost use Rattle.std.specs.Prelude.{◌≡◌, ◌≤◌};
ghost use Rattle.vad_segments.specs.Loudness.{seed_of};
ghost use Rattle.vad_segments.specs.Rooms.{positions_most, LengthsWithin};

use vad_config::{Lengths, VadConfig};
use vad_row::Row;

// What opening fixed: the settings, the lengths worked out from them, and the weight that the host handed in.
#[derive(Clone, Copy, Default)]
pub struct Rules {
    pub config: VadConfig,
    pub lengths: Lengths,
    pub speech_floor_rise: f32,
}

// By what the frames of one call are judged: the rules, and the limit to which the end of a segment is clipped, the sound received. Small enough for every sum.
#[derive(Clone, Copy)]
pub struct CallRules {
    pub rules: Rules,
    pub limit: u64,
    pub ghost lengths_fit: { LengthsWithin rules.lengths },
    pub ghost limit_fits: { limit ≤ positions_most },
}

// One analysis frame: where it begins and ends in the stream, and its energy.
#[derive(Clone, Copy)]
pub struct FrameMetrics {
    pub start_sample: u64,
    pub end_sample: u64,
    pub energy: f32,
}

#[derive(Clone, Copy, Default)]
pub struct ActiveSegmentState {
    pub start_sample: u64,
    // End of the last loud frame.
    pub last_end_sample: u64,
    pub score_total: u64,
    pub energy_sum: f32,
    // Loud frames; those of the hangover are not counted.
    pub loud_frames: u64,
    // Quiet frames since the last loud one.
    pub silence_run: u64,
}

// What judging changes. The last two are over all rows since the opening or the latest reset.
#[derive(Clone, Copy)]
pub struct Track {
    pub noise_floor: f32,
    // End of the last closed segment; new segments start at or after it.
    pub last_segment_end: u64,
    pub rows_reported: u64,
    pub talk_samples: u64,
    pub active_segment: Option<ActiveSegmentState>,
}

// A segment closed: the new last segment end, and the row if it was not dropped.
#[derive(Clone, Copy)]
pub struct Finalized {
    pub end: u64,
    pub report: Option<Row>,
}

// The track after a frame, the row if one closed, and whether the frame was loud.
#[derive(Clone, Copy)]
pub struct Judged {
    pub track: Track,
    pub report: Option<Row>,
    pub loud: bool,
}

// The quietest frame is taken rather than the first, so that a stream which starts in the middle of speech still gets an estimate, from the dips between syllables.
pub fn seed(energy_floor: f32, noise_floor: f32, energies: &[f32]) -> f32
    ensures { result ≡ seed_of energy_floor noise_floor energies.now }
{
    let Some((&first, rest)) = energies.split_first() else {
        return noise_floor;
    };
    let mut quietest = first;
    for &energy in rest {
        quietest = loudness::lesser(quietest, energy);
    }
    loudness::at_least(energy_floor, quietest)
}
