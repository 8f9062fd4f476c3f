// Where a track's numbers are all written.
ghost use Rattle.std.specs.Prelude.{◌≡◌};
ghost use Rattle.vad_segments.specs.Judging.{active_to};
ghost use Rattle.vad_segments.specs.Setters.{fresh_track};

use super::{ActiveSegmentState, Track};

// With another segment.
pub fn with_active(track: Track, active: Option<ActiveSegmentState>) -> Track
    ensures { result ≡ active_to active track }
{
    Track {
        active_segment: active,
        ..track
    }
}

// A track that has heard nothing.
pub fn fresh_track(noise_floor: f32) -> Track
    ensures { result ≡ fresh_track noise_floor }
{
    Track {
        noise_floor,
        last_segment_end: 0,
        rows_reported: 0,
        talk_samples: 0,
        active_segment: None,
    }
}
