// How long frames are held, and from where on the stream is undecided.
ghost use Rattle.std.specs.Prelude.{◌≡◌};
ghost use Rattle.vad_segments.specs.Positions.{holds_of, next_of, decided_to, undecided_of};

use super::{ActiveSegmentState, Track};

// Whether a call whose frames make `held` in all goes on holding them.
pub fn holds(finish: bool, warmup_frames: usize, held: usize) -> bool
    ensures { result ≡ holds_of finish warmup_frames held }
{
    !finish && held < warmup_frames
}

// Where the next segment can begin at the earliest, or the open one began.
fn next_start(carry_start: u64, active: Option<ActiveSegmentState>) -> u64
    ensures { result ≡ next_of carry_start active }
{
    active.map_or(carry_start, |segment| {
        carry_start.min(segment.start_sample)
    })
}

// A segment is reported with leading padding, so sound up to one padding before it is still undecided; but not what the last segment covered.
fn decided_to(padding: u64, last_segment_end: u64, next: u64) -> u64
    ensures { result ≡ decided_to padding last_segment_end next }
{
    next.saturating_sub(padding).max(last_segment_end.min(next))
}

// The first sample whose judgement can still change.
pub fn undecided_from(warming: bool, padding: u64, carry_start: u64, track: Track) -> u64
    ensures { result ≡ undecided_of warming padding carry_start track }
{
    if warming {
        return 0;
    }
    let next = next_start(carry_start, track.active_segment);
    decided_to(padding, track.last_segment_end, next)
}
