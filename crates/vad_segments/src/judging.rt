// One frame judged: the loop body of `classify`.
ghost use Rattle.std.specs.Prelude.{◌≡◌, ◌≤◌};
ghost use Rattle.vad_segments.specs.Judging.{frame_at, segment_for, extended_by, loud_added, paused_by, paused_of, turned_of, judged_of};
ghost use Rattle.vad_segments.specs.Rooms.{length_most, positions_most, counts_most, ActiveWithin, Within};

use super::loudness::{floor_weight, in_speech, is_loud, next_floor, required_ratio};
use super::setters::with_active;
use super::{ActiveSegmentState, CallRules, FrameMetrics, Judged, Track};
use vad_config::Lengths;

// A short frame ends where the sound received ends.
pub fn frame_at(lengths: Lengths, received: u64, start: u64, energy: f32) -> FrameMetrics
    requires { (lengths.frame_length ≤ length_most) × (start ≤ positions_most) }
    ensures { result ≡ frame_at lengths received start energy }
{
    FrameMetrics {
        start_sample: start,
        end_sample: (start + lengths.frame_length as u64).min(received),
        energy,
    }
}

// The open segment, or a new one.
fn segment_for(active: Option<ActiveSegmentState>, start: u64) -> ActiveSegmentState
    ensures { result ≡ segment_for active start }
{
    active.unwrap_or(ActiveSegmentState {
        start_sample: start,
        last_end_sample: start,
        ..ActiveSegmentState::default()
    })
}

// Only loud frames extend the segment.
fn extend(segment: ActiveSegmentState, frame: FrameMetrics, ratio: f32) -> ActiveSegmentState
    requires { (segment.score_total ≤ counts_most) × (segment.loud_frames ≤ counts_most) }
    ensures { result ≡ extended_by frame ratio segment }
{
    ActiveSegmentState {
        last_end_sample: frame.end_sample,
        score_total: segment.score_total + score::score(ratio),
        energy_sum: segment.energy_sum + frame.energy,
        loud_frames: segment.loud_frames + 1,
        silence_run: 0,
        ..segment
    }
}

// Overlapping frames can make a new segment start before the previous one ended; segments never overlap.
fn add_loud(track: Track, frame: FrameMetrics, ratio: f32) -> Track
    requires { ActiveWithin positions_most counts_most track.active_segment }
    ensures { result ≡ loud_added track frame ratio }
{
    let start = frame.start_sample.max(track.last_segment_end);
    let segment = segment_for(track.active_segment, start);
    with_active(track, Some(extend(segment, frame, ratio)))
}

// A frame of the hangover keeps the segment open without moving its end.
fn longer_pause(active: Option<ActiveSegmentState>) -> Option<ActiveSegmentState>
    requires { ActiveWithin positions_most counts_most active }
    ensures { result ≡ paused_by active }
{
    active.map(|segment| ActiveSegmentState {
        silence_run: segment.silence_run + 1,
        ..segment
    })
}

fn pause(track: Track) -> Track
    requires { ActiveWithin positions_most counts_most track.active_segment }
    ensures { result ≡ paused_of track }
{
    with_active(track, longer_pause(track.active_segment))
}

impl CallRules {
    fn turn(
        &self,
        track: Track,
        frame: FrameMetrics,
        ratio: f32,
        loud: bool,
        speech: bool,
    ) -> Judged
        requires { Within positions_most counts_most track }
        ensures { result ≡ turned_of self.now.rules self.now.limit track frame ratio loud speech }
    {
        if loud {
            return Judged {
                track: add_loud(track, frame, ratio),
                report: None,
                loud: true,
            };
        }
        if speech {
            return Judged {
                track: pause(track),
                report: None,
                loud: false,
            };
        }
        self.close(track)
    }

    // The floor is tracked through speech as well: otherwise a recording that begins with noise above the gate would be speech from its first frame on.
    pub fn judge(&self, track: Track, frame: FrameMetrics) -> Judged
        requires { Within positions_most counts_most track }
        ensures { result ≡ judged_of self.now.rules self.now.limit track frame }
    {
        let config = self.rules.config;
        let active = track.active_segment;
        let floor = track.noise_floor;
        let ratio = frame.energy / floor;
        let loud = is_loud(
            config.min_speech_energy,
            required_ratio(config, active),
            frame.energy,
            ratio,
        );
        let speech = in_speech(config.hangover_frames, active, loud);
        let weight = floor_weight(
            self.rules.speech_floor_rise,
            config.noise_smoothing,
            speech,
            floor,
            frame.energy,
        );
        let next = Track {
            noise_floor: next_floor(config.energy_floor, weight, floor, frame.energy),
            ..track
        };
        self.turn(next, frame, ratio, loud, speech)
    }
}
