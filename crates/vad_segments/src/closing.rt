// A segment closed: `finalize_segment`, and what the track keeps of it.
ghost use Rattle.std.specs.Prelude.{◌≡◌, ◌+◌, ◌≤◌};
ghost use Rattle.vad_row.specs.Rows.{reported, talk_of};
ghost use Rattle.vad_segments.specs.Closing.{mean_energy_of, time_at, row_of, padded_start, padded_end, dropped_of, too_short, timed_of, finalized_of, booked_of, closed_of};
ghost use Rattle.vad_segments.specs.Judging.{ended_of};
ghost use Rattle.vad_segments.specs.Rooms.{length_most, positions_most, counts_most, SegmentWithin, Within};

use super::{ActiveSegmentState, CallRules, Finalized, Judged, Track};
use vad_config::VadConfig;
use vad_row::{Row, rows_in, talk_in};

fn mean_energy(segment: ActiveSegmentState) -> f32
    ensures { result ≡ mean_energy_of segment }
{
    segment.energy_sum / float::whole::nearest(segment.loud_frames.max(1))
}

fn time_at(config: VadConfig, sample: u64) -> u64
    ensures { result ≡ time_at config sample }
{
    vad_config::time_of_sample(config.stream_start_time, config.sample_rate, sample)
}

// The one place where a row is made.
fn row_of(config: VadConfig, start: u64, end: u64, segment: ActiveSegmentState) -> Row
    ensures { result ≡ row_of config start end segment }
{
    Row {
        start_sample: start,
        end_sample: end,
        start_time: time_at(config, start),
        end_time: time_at(config, end),
        score_total: segment.score_total,
        loud_frames: segment.loud_frames,
        mean_energy: float::to_bits(mean_energy(segment)) as u64,
    }
}

// No row, but the end moves.
fn dropped(segment: ActiveSegmentState, limit: u64, prev_end: u64) -> Finalized
    ensures { result ≡ dropped_of limit prev_end segment }
{
    Finalized {
        end: segment.last_end_sample.min(limit).max(prev_end),
        report: None,
    }
}

fn too_short(config: VadConfig, segment: ActiveSegmentState) -> bool
    ensures { result ≡ too_short config segment }
{
    segment.last_end_sample <= segment.start_sample
        || segment.loud_frames < config.min_speech_frames
}

fn padded_start(padding: u64, prev_end: u64, segment: ActiveSegmentState) -> u64
    ensures { result ≡ padded_start padding prev_end segment }
{
    segment.start_sample.saturating_sub(padding).max(prev_end)
}

fn padded_end(padding: u64, limit: u64, segment: ActiveSegmentState) -> u64
    requires { (padding ≤ length_most) × SegmentWithin positions_most counts_most segment }
    ensures { result ≡ padded_end padding limit segment }
{
    (segment.last_end_sample + padding).min(limit.max(segment.start_sample + 1))
}

fn timed(
    config: VadConfig,
    limit: u64,
    prev_end: u64,
    start: u64,
    end: u64,
    segment: ActiveSegmentState,
) -> Finalized
    ensures { result ≡ timed_of config limit prev_end start end segment }
{
    if time_at(config, end) <= time_at(config, start) {
        return dropped(segment, limit, prev_end);
    }
    Finalized {
        end,
        report: Some(row_of(config, start, end, segment)),
    }
}

fn book(track: Track, finalized: Finalized) -> Judged
    requires { (track.rows_reported ≤ counts_most) × (track.talk_samples ≤ counts_most) × (talk_of (reported finalized.report) ≤ counts_most) }
    ensures { result ≡ booked_of track finalized }
{
    let report = finalized.report;
    Judged {
        track: Track {
            last_segment_end: finalized.end,
            rows_reported: track.rows_reported + rows_in(report),
            talk_samples: track.talk_samples + talk_in(report),
            active_segment: None,
            ..track
        },
        report,
        loud: false,
    }
}

impl CallRules {
    // Padded on both sides, without reaching back over the previous segment's end or past the limit.
    fn finalize_segment(&self, segment: ActiveSegmentState, prev_end: u64) -> Finalized
        requires { SegmentWithin positions_most counts_most segment }
        ensures { result ≡ finalized_of self.now.rules self.now.limit prev_end segment }
    {
        let config = self.rules.config;
        if too_short(config, segment) {
            return dropped(segment, self.limit, prev_end);
        }
        let padding = self.rules.lengths.padding_samples as u64;
        let start = padded_start(padding, prev_end, segment);
        let end = padded_end(padding, self.limit, segment);
        timed(config, self.limit, prev_end, start, end, segment)
    }

    // Closes the open segment, if there is one.
    pub fn close(&self, track: Track) -> Judged
        requires { Within positions_most counts_most track }
        ensures { result ≡ closed_of self.now.rules self.now.limit track }
    {
        match track.active_segment {
            None => Judged {
                track,
                report: None,
                loud: false,
            },
            Some(segment) => {
                book(
                    track,
                    self.finalize_segment(segment, track.last_segment_end),
                )
            }
        }
    }

    // What a call's end does: flush closes the open segment.
    pub fn ended(&self, finish: bool, track: Track) -> Judged
        requires { Within positions_most counts_most track }
        ensures { result ≡ ended_of finish self.now.rules self.now.limit track }
    {
        if finish {
            return self.close(track);
        }
        Judged {
            track,
            report: None,
            loud: false,
        }
    }
}
