// A call's frames in order, and their rows: the loop of `classify` of the Rust's src/vad/detector.rs around what vad_segments judges of one frame. The track is passed in and returned; rows are lent.

#![tactic(auto)]

ghost use Rattle.std.specs.Prelude.{◌≡◌, cond, ◌+◌, ◌≤◌, length};
ghost use Rattle.std.proofs.lemmas.List.Edits.{sets};
ghost use Rattle.vad_row.specs.Rows.{flat};
ghost use Rattle.vad_segments.specs.Judging.{frame_at, frames_at, judged_of, track_after, rows_of, louds_of, count_of, call_rows};
ghost use Rattle.vad_segments.specs.Rooms.{frames_most, positions_first, counts_first, positions_most, counts_most, LengthsWithin, Within};
ghost use Rattle.vad_classify.specs.Classify.{classified_of};

use vad_row::put_report;
use vad_segments::judging::frame_at;
use vad_segments::{CallRules, Judged, Rules, Track};

// The track after a call, and its frames, loud and quiet.
#[derive(Clone, Copy)]
pub struct Classified {
    pub track: Track,
    pub frames: usize,
    pub loud: usize,
    pub quiet: usize,
}

// The track so far, and where the next frame starts.
#[derive(Clone, Copy)]
struct Cursor {
    pub track: Track,
    pub start: u64,
}

impl Cursor {
    // Judges the next frame, and moves on by a hop.
    fn judge_next(&mut self, call: &CallRules, energy: f32) -> Judged
        requires { Within positions_most counts_most self.old.track × (self.old.start ≤ positions_most) }
        ensures judged { result ≡ judged_of call.now.rules call.now.limit self.old.track (frame_at call.now.rules.lengths call.now.limit self.old.start energy) }
        ensures track { self.new.track ≡ result.track }
        ensures start { self.new.start ≡ self.old.start + call.now.rules.lengths.hop_length }
    {
        let lengths = call.rules.lengths;
        let frame = frame_at(lengths, call.limit, self.start, energy);
        let judged = call.judge(self.track, frame);
        self.track = judged.track;
        self.start += lengths.hop_length as u64;
        judged
    }
}

// A call's frames judged one after the other, the first of them at `first`; with `finish` the open segment is closed after them.
pub fn classify(
    rules: Rules,
    received: u64,
    track: Track,
    first: u64,
    energies: &[f32],
    finish: bool,
) -> Classified
    requires lengths_within { LengthsWithin rules.lengths × Within positions_first counts_first track }
    requires received_le_positions_first { (received ≤ positions_first) × (first ≤ positions_first) × (length energies.now ≤ frames_most) }
    ensures { result ≡ classified_of finish rules received track (frames_at rules.lengths received first energies.now) }
{
    let call = CallRules {
        rules,
        limit: received,
    };
    let mut cursor = Cursor {
        track,
        start: first,
    };
    let mut loud = 0;
    for &energy in energies {
        let judged = cursor.judge_next(&call, energy);
        loud += usize::from(judged.loud);
    }
    let end = call.ended(finish, cursor.track);
    let frames = energies.len();
    Classified {
        track: end.track,
        frames,
        loud,
        quiet: frames - loud,
    }
}

// The rows of the call that `classify` judges, from the slice's start; what stands past them stays.
pub fn write_rows(
    rules: Rules,
    received: u64,
    track: Track,
    first: u64,
    energies: &[f32],
    finish: bool,
    rows: &mut [u64],
)
    requires lengths_within { LengthsWithin rules.lengths × Within positions_first counts_first track }
    requires received_le_positions_first { (received ≤ positions_first) × (first ≤ positions_first) × (length energies.now ≤ frames_most) }
    requires energies_in_bounds { length (flat (call_rows finish rules received track (frames_at rules.lengths received first energies.now))) ≤ length rows.old }
    ensures { rows.new ≡ sets rows.old 0 (flat (call_rows finish rules received track (frames_at rules.lengths received first energies.now))) }
{
    let call = CallRules {
        rules,
        limit: received,
    };
    let mut cursor = Cursor {
        track,
        start: first,
    };
    let mut end = 0;
    for &energy in energies {
        let judged = cursor.judge_next(&call, energy);
        end = put_report(rows, end, judged.report);
    }
    let last = call.ended(finish, cursor.track);
    put_report(rows, end, last.report);
}
