// Calls on a state whose arrays stay where the host keeps them.

#![tactic(auto)]

ghost use Rattle.std.specs.Prelude.{◌≡◌, true, ◌+◌, ◌≤◌, length, take, drop, IfOk};
ghost use Rattle.vad_layout.specs.Layout.{carry_first, warmup_first, singles_first};
ghost use Rattle.ranges.specs.Sizes.{frame_most, warmup_most, block_most, received_most};
ghost use Rattle.vad_state.specs.State.{sound_of};
ghost use Rattle.vad_call.specs.Calls.{values_most, energies_most, ran_of, written_of, tallied, PartsFit};
ghost use Rattle.vad_call.specs.Checks.{check_of};
ghost use Rattle.vad_lent.specs.Inside.{put_in, heard_in, settled_in};
ghost use Rattle.vad_lent.specs.Lent.{state_at, arrays_in};

use refusals::Refusal;
use vad_call::checks::check;
use vad_call::{ENERGIES_MOST, Heard, VALUES_MOST, hear};
use vad_layout::in_floats;
use vad_state::arrays::{clear, fill_slice};
use vad_state::{Kept, LentArrays, sound_lent};

// The arrays in their places.
fn lent_in(floats: &[f32]) -> LentArrays
    requires { singles_first ≤ length floats.now }
    ensures window_value { result.window.now ≡ take frame_most floats.now }
    ensures carry_value { result.carry.now ≡ take frame_most (drop carry_first floats.now) }
    ensures warmup_value { result.warmup.now ≡ take warmup_most (drop warmup_first floats.now) }
{
    let (window, behind) = floats.split_first_chunk().unwrap();
    let (carry, behind) = behind.split_first_chunk().unwrap();
    let (warmup, _) = behind.split_first_chunk().unwrap();
    LentArrays {
        window,
        carry,
        warmup,
    }
}

pub fn sound_at(kept: Kept, floats: &[f32]) -> bool
    requires { singles_first ≤ length floats.now }
    ensures { result ≡ sound_of (state_at kept floats.now) }
{
    sound_lent(kept, lent_in(floats))
}

// 19, 15, 16 and 17, in this order.
pub fn check_at(kept: Kept, floats: &[f32], samples: &[f32]) -> Result<(), Refusal>
    requires { singles_first ≤ length floats.now }
    ensures { result ≡ check_of (state_at kept floats.now) samples.now }
{
    check(kept, lent_in(floats), samples)
}

// The frame's part of the window stays; zeros stand past the used parts.
fn put_arrays(floats: &mut [f32], frame_length: usize, carry: &[f32], held: &[f32])
    requires { (singles_first ≤ length floats.old) × (frame_length ≤ frame_most) × (length carry.now ≤ frame_most) × (length held.now ≤ warmup_most) }
    ensures { floats.new ≡ put_in frame_length carry.now held.now floats.old }
{
    clear(&mut floats[0..in_floats::CARRY], frame_length);
    fill_slice(&mut floats[in_floats::CARRY..in_floats::WARMUP], carry);
    fill_slice(&mut floats[in_floats::WARMUP..in_floats::SINGLES], held);
}

// The arrays after a call that was not refused: the new carry stands among its values, what is held first among its energies.
fn put_heard(
    floats: &mut [f32],
    frame_length: usize,
    heard: Heard,
    values: &[f32; VALUES_MOST],
    energies: &[f32; ENERGIES_MOST],
)
    requires singles_first_in_bounds { (singles_first ≤ length floats.old) × (frame_length ≤ frame_most) }
    requires carry_len_bound { PartsFit heard }
    ensures { floats.new ≡ heard_in frame_length heard values.now energies.now floats.old }
{
    let consumed = heard.consumed;
    let total = consumed + heard.kept.stream.carry_len;
    let held = heard.kept.desk.held;
    put_arrays(
        floats,
        frame_length,
        &values[consumed..total],
        &energies[0..held],
    );
}

#[tactic(auto, unfolding(crate::specs::Inside::settled_in))]
fn settle_at(
    floats: &mut [f32],
    frame_length: usize,
    hearing: Result<Heard, Refusal>,
    values: &[f32; VALUES_MOST],
    energies: &[f32; ENERGIES_MOST],
)
    requires singles_first_in_bounds { (singles_first ≤ length floats.old) × (frame_length ≤ frame_most) }
    requires carry_len_bound { IfOk hearing PartsFit }
    ensures { floats.new ≡ settled_in frame_length hearing values.now energies.now floats.old }
{
    match hearing {
        Err(_) => {}
        Ok(heard) => put_heard(floats, frame_length, heard, values, energies),
    }
}

// A block heard, or with `finish` the stream's end. Nothing is written where the rows do not fit.
pub fn hear_at(
    kept: Kept,
    floats: &mut [f32],
    samples: &[f32],
    finish: bool,
    rows: &mut [u64],
) -> Result<Heard, Refusal>
    requires floats_value { sound_of (state_at kept floats.old) ≡ true }
    requires singles_first_in_bounds { (singles_first ≤ length floats.old) × (length samples.now ≤ block_most) × (kept.stream.processed_samples + length samples.now ≤ received_most) }
    ensures refusal_value { (tallied result ≡ (ran_of finish (state_at kept floats.old) samples.now (length rows.old)).outcome) × IfOk result (λ h. h.kept ≡ (ran_of finish (state_at kept floats.old) samples.now (length rows.old)).detector.kept) }
    ensures floats_left { floats.new ≡ arrays_in (ran_of finish (state_at kept floats.old) samples.now (length rows.old)).detector floats.old }
    ensures rows_left { rows.new ≡ written_of finish (state_at kept floats.old) samples.now rows.old }
{
    let mut values = [0.0; VALUES_MOST];
    let mut energies = [0.0; ENERGIES_MOST];
    let hearing = hear(
        kept,
        lent_in(floats),
        samples,
        finish,
        &mut values,
        &mut energies,
        rows,
    );
    settle_at(
        floats,
        kept.rules.lengths.frame_length,
        hearing,
        &values,
        &energies,
    );
    hearing
}
