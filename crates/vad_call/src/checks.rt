// What refuses a call before anything is heard.
ghost use Rattle.std.specs.Prelude.{◌≡◌, ◌≤◌};
ghost use Rattle.refusals.specs.Refusals.{first_of};
ghost use Rattle.ranges.specs.Sizes.{received_most};
ghost use Rattle.vad_state.specs.State.{state_of};
ghost use Rattle.vad_call.specs.Checks.{block_refusals, check_of};

use ranges::{BLOCK_MOST, RECEIVED_MOST};
use refusals::Refusal;
use vad_state::{Kept, LentArrays, sound_lent};

// 19, 15, 16 and 17, in this order, of a state whose arrays are lent.
pub fn check(kept: Kept, arrays: LentArrays, samples: &[f32]) -> Result<(), Refusal>
    ensures { result ≡ check_of (state_of kept arrays.entry.window.now arrays.entry.carry.now arrays.entry.warmup.now) samples.now }
{
    if !sound_lent(kept, arrays) {
        return Err(Refusal::State);
    }
    block_refusal(kept.stream.processed_samples, samples)
}

fn block_refusal(received: u64, samples: &[f32]) -> Result<(), Refusal>
    requires { received ≤ received_most }
    ensures { result ≡ first_of (block_refusals received samples.now) }
{
    if BLOCK_MOST < samples.len() {
        return Err(Refusal::Block);
    }
    let place = ranges::clean(samples);
    if place < samples.len() {
        return Err(Refusal::Sample(place));
    }
    if RECEIVED_MOST < received + samples.len() as u64 {
        return Err(Refusal::Received);
    }
    Ok(())
}
