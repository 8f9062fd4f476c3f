// One call: the Rust's `run`, which detect and flush share.

#![tactic(auto)]

pub mod checks;

ghost use Rattle.std.specs.Prelude.{◌≡◌, true, cond, ◌+◌, ◌≤◌, ◌^◌, [], ◌++◌, length, take, IfOk};
ghost use Rattle.std.proofs.lemmas.List.Edits.{sets};
ghost use Rattle.vad_frames.specs.Emphasis.{emphasized, last_of};
ghost use Rattle.vad_frames.specs.Grid.{frames_of, energies_of, framed_of};
ghost use Rattle.vad_row.specs.Rows.{room_of, flat};
ghost use Rattle.vad_segments.specs.Rooms.{LengthsWithin, Within, positions_first, counts_first};
ghost use Rattle.ranges.specs.Sizes.{frame_most, warmup_most, block_most, received_most};
ghost use Rattle.vad_state.specs.State.{state_of, sound_of};
ghost use Rattle.vad_call.specs.Calls.{values_most, energies_most, holding_with, due_of, seeded_of, grid_start, verdict_of, rows_due, refused_by, too_many, reported_in, ran_of, written_of, joined_of, taken_of, settled_of, tally_in, PartsFit};
ghost use Rattle.vad_call.specs.Inside.{hearing_of};

use refusals::Refusal;
use vad_classify::Classified;
use vad_frames::Framed;
use vad_row::ROW_FIELDS;
use vad_segments::Track;
use vad_state::arrays::{clear_past, fill, put_first};
use vad_state::{Desk, Kept, LentArrays, Stream, VadDetector};

// What a call counted: frames judged, the loud and the quiet among them, and rows written; and the floor after it.
#[derive(Clone, Copy, Default)]
pub struct Tally {
    pub frames: usize,
    pub loud: usize,
    pub quiet: usize,
    pub noise_floor: f32,
    pub rows: usize,
}

// What a call answers, and the state, which is a new one only where nothing was refused.
#[derive(Clone, Copy)]
pub struct Answered<T> {
    pub outcome: Result<T, Refusal>,
    pub detector: VadDetector,
}

// Of detect and flush.
pub type Detected = Answered<Tally>;

// What a call heard: where the new carry starts among the values, and the state's numbers and the tally after it.
#[derive(Clone, Copy)]
pub struct Heard {
    pub consumed: usize,
    pub kept: Kept,
    pub tally: Tally,
}

// What a call works in: the carry and a block, and the energies held and those of its frames.
pub const VALUES_MOST: usize = 3072;

pub const ENERGIES_MOST: usize = 1024;

// The carry, then the block's values; answers the block's last raw sample.
fn gather(
    carry: &[f32],
    carry_len: usize,
    coeff: f32,
    previous: f32,
    samples: &[f32],
    values: &mut [f32],
) -> f32
    requires { (carry_len ≤ length carry.now) × (carry_len + length samples.now ≤ length values.old) }
    ensures value { result ≡ last_of previous samples.now }
    ensures values_left { values.new ≡ sets values.old 0 (take carry_len carry.now ++ emphasized coeff previous samples.now) }
{
    put_first(values, carry, carry_len);
    vad_frames::pre_emphasize(coeff, previous, samples, &mut values[carry_len..])
}

// How many frames are held from earlier calls.
fn waiting(kept: Kept) -> usize
    ensures { result ≡ cond kept.desk.warming kept.desk.held 0 }
{
    if kept.desk.warming { kept.desk.held } else { 0 }
}

// The frames by the frame's part of the window, which is lent whole.
fn frame_values(
    values: &[f32],
    window: &[f32],
    frame_length: usize,
    hop_length: usize,
    finish: bool,
    energies: &mut [f32],
) -> Framed
    requires le_hop_length { (1 ≤ hop_length) × (hop_length ≤ frame_length) × (frame_length ≤ length window.now) }
    requires values_in_bounds { length (frames_of finish frame_length hop_length values.now) ≤ length energies.old }
    ensures value { result ≡ framed_of finish (take frame_length window.now) hop_length values.now }
    ensures energies_left { energies.new ≡ sets energies.old 0 (energies_of finish (take frame_length window.now) hop_length values.now) }
{
    vad_frames::frame_signal(
        values,
        &window[0..frame_length],
        hop_length,
        finish,
        energies,
    )
}

// The energies held, then those of the frames in the values; answers how many they are in all, and how many values were used up.
// The window and the warm-up have one lifetime, as two fields of one state that are lent at once.
fn measure<'a>(
    window: &'a [f32],
    frame_length: usize,
    hop_length: usize,
    warmup: &'a [f32],
    held: usize,
    values: &[f32],
    finish: bool,
    energies: &mut [f32],
) -> Framed
    requires le_hop_length { (8 ≤ hop_length) × (hop_length ≤ frame_length) × (frame_length ≤ length window.now) }
    requires held_le_warmup_most { (held ≤ warmup_most) × (held ≤ length warmup.now) × (length values.now ≤ values_most) × (length energies.old ≡ energies_most) }
    ensures frames_value { result.frames ≡ length (take held warmup.now ++ energies_of finish (take frame_length window.now) hop_length values.now) }
    ensures consumed_value { result.consumed ≡ (framed_of finish (take frame_length window.now) hop_length values.now).consumed }
    ensures energies_left { energies.new ≡ sets energies.old 0 (take held warmup.now ++ energies_of finish (take frame_length window.now) hop_length values.now) }
{
    put_first(energies, warmup, held);
    let framed = frame_values(
        values,
        window,
        frame_length,
        hop_length,
        finish,
        &mut energies[held..],
    );
    let frames = held + framed.frames;
    Framed {
        frames,
        consumed: framed.consumed,
    }
}

// Whether frames go on being held.
#[tactic(auto, unfolding(crate::specs::Calls::holding_with))]
fn holding(kept: Kept, finish: bool, frames: usize) -> bool
    ensures { result ≡ holding_with finish kept frames }
{
    kept.desk.warming
        && vad_segments::positions::holds(finish, kept.rules.lengths.warmup_frames, frames)
}

// The energies that are judged now: none where they are held.
fn due_of(holds: bool, energies: &[f32]) -> &[f32]
    ensures { result.now ≡ cond holds [] energies.now }
{
    if holds { &energies[..0] } else { energies }
}

// The track that the frames are judged from: as warm-up ends, its floor is the background's.
#[tactic(auto, unfolding(crate::specs::Calls::seeded_of, vad_segments::specs::Judging::floored_to))]
fn seeded(kept: Kept, due: &[f32]) -> Track
    ensures { result ≡ seeded_of kept due.now }
{
    let track = kept.desk.track;
    if kept.desk.warming {
        Track {
            noise_floor: vad_segments::seed(kept.rules.config.energy_floor, track.noise_floor, due),
            ..track
        }
    } else {
        track
    }
}

#[tactic(auto, unfolding(crate::specs::Calls::grid_start))]
fn grid_start(kept: Kept) -> u64
    ensures { result ≡ grid_start kept }
{
    if kept.desk.warming {
        0
    } else {
        kept.stream.carry_start
    }
}

// The rows, judged once more: most calls have none.
fn report(kept: Kept, received: u64, due: &[f32], finish: bool, needed: u64, rows: &mut [u64])
    requires lengths_within { LengthsWithin kept.rules.lengths × Within positions_first counts_first kept.desk.track }
    requires carry_start_bound { (kept.stream.carry_start ≤ positions_first) × (received ≤ positions_first) × (length due.now ≤ energies_most) }
    requires needed_value { (needed ≡ length (rows_due finish kept received due.now)) × (needed ≤ room_of (length rows.old)) }
    ensures { rows.new ≡ sets rows.old 0 (flat (rows_due finish kept received due.now)) }
{
    if needed == 0 {
        return;
    }
    let rules = kept.rules;
    vad_classify::write_rows(
        rules,
        received,
        seeded(kept, due),
        grid_start(kept),
        due,
        finish,
        rows,
    );
}

// The state comes back.
#[tactic(auto, unfolding(crate::specs::Calls::refused_by))]
pub fn refused(by: Refusal, detector: VadDetector) -> Detected
    ensures { result ≡ refused_by by detector }
{
    Answered {
        outcome: Err(by),
        detector,
    }
}

// What a call counted: of a refused one zeros.
#[tactic(auto, unfolding(crate::specs::Calls::tally_in, crate::specs::Calls::no_tally))]
pub fn counted(outcome: Result<Tally, Refusal>) -> Tally
    ensures { result ≡ tally_in outcome }
{
    match outcome {
        Ok(tally) => tally,
        Err(_) => Tally::default(),
    }
}

// What the frames come to: whether they are held, and the rows that they need; whether those fit is known before one is written. No `Result`, since what is needed is told either way.
#[derive(Clone, Copy)]
pub struct Outcome {
    pub refused: bool,
    pub holds: bool,
    pub needed: u64,
    pub classified: Classified,
}

// Holds the energies or judges them. No array of the state stands in what it reads or answers.
fn hold_or_judge(
    kept: Kept,
    received: u64,
    energies: &[f32],
    finish: bool,
    rows: &mut [u64],
) -> Outcome
    requires lengths_within { LengthsWithin kept.rules.lengths × Within positions_first counts_first kept.desk.track }
    requires carry_start_bound { (kept.stream.carry_start ≤ positions_first) × (received ≤ positions_first) × (length energies.now ≤ energies_most) }
    ensures refused_value { (result.refused ≡ too_many (rows_due finish kept received (due_of finish kept energies.now)) (length rows.old)) × (result.holds ≡ holding_with finish kept (length energies.now)) }
    ensures needed_value { (result.needed ≡ length (rows_due finish kept received (due_of finish kept energies.now))) × (result.classified ≡ verdict_of finish kept received (due_of finish kept energies.now)) }
    ensures rows_left { rows.new ≡ reported_in (rows_due finish kept received (due_of finish kept energies.now)) rows.old }
{
    let holds = holding(kept, finish, energies.len());
    let due = due_of(holds, energies);
    let rules = kept.rules;
    let classified = vad_classify::classify(
        rules,
        received,
        seeded(kept, due),
        grid_start(kept),
        due,
        finish,
    );
    let needed = classified.track.rows_reported - kept.desk.track.rows_reported;
    if ((rows.len() / ROW_FIELDS) as u64) < needed {
        return Outcome {
            refused: true,
            holds,
            needed,
            classified,
        };
    }
    report(kept, received, due, finish, needed, rows);
    Outcome {
        refused: false,
        holds,
        needed,
        classified,
    }
}

// How many frames go on being held.
fn held_after(holds: bool, frames: usize) -> usize
    ensures { result ≡ cond holds frames 0 }
{
    if holds { frames } else { 0 }
}

// What was heard, once the frames are judged.
fn concluded(
    kept: Kept,
    stream: Stream,
    frames: usize,
    outcome: Outcome,
    consumed: usize,
) -> Result<Heard, Refusal>
    ensures { result ≡ hearing_of kept stream frames outcome consumed }
{
    if outcome.refused {
        return Err(Refusal::Rows(outcome.needed as usize));
    }
    let classified = outcome.classified;
    let rules = kept.rules;
    let track = classified.track;
    Ok(Heard {
        consumed,
        kept: Kept {
            rules,
            stream,
            desk: Desk {
                warming: outcome.holds,
                held: held_after(outcome.holds, frames),
                track,
            },
        },
        tally: Tally {
            frames: classified.frames,
            loud: classified.loud,
            quiet: classified.quiet,
            noise_floor: classified.track.noise_floor,
            rows: outcome.needed as usize,
        },
    })
}

// A block heard, or with `finish` the stream's end, by a state's numbers and its arrays as they are lent. The values and the energies stay in the slices lent for them: the new carry starts at `consumed` among the values, the energies held stand first.
pub fn hear(
    kept: Kept,
    arrays: LentArrays,
    samples: &[f32],
    finish: bool,
    values: &mut [f32],
    energies: &mut [f32],
    rows: &mut [u64],
) -> Result<Heard, Refusal>
    requires arrays_value { sound_of (state_of kept arrays.window.now arrays.carry.now arrays.warmup.now) ≡ true }
    requires values_len { (length values.old ≡ values_most) × (length energies.old ≡ energies_most) }
    requires samples_len_bound { (length samples.now ≤ block_most) × (kept.stream.processed_samples + length samples.now ≤ received_most) }
    ensures rows_value { ran_of finish (state_of kept arrays.entry.window.now arrays.entry.carry.now arrays.entry.warmup.now) samples.now (length rows.old) ≡ settled_of result values.new energies.new (state_of kept arrays.entry.window.now arrays.entry.carry.now arrays.entry.warmup.now) }
    ensures kept_value { IfOk result (λ h. (h.kept ≡ (ran_of finish (state_of kept arrays.entry.window.now arrays.entry.carry.now arrays.entry.warmup.now) samples.now (length rows.old)).detector.kept) × (h.kept.stream.carry_start ≡ kept.stream.carry_start + h.consumed)) }
    ensures carry_len_bound { IfOk result PartsFit }
    ensures rows_left { rows.new ≡ written_of finish (state_of kept arrays.entry.window.now arrays.entry.carry.now arrays.entry.warmup.now) samples.now rows.old }
{
    let coeff = vad_frames::coefficient(
        kept.rules.config.has_pre_emphasis,
        kept.rules.config.pre_emphasis,
    );
    let LentArrays {
        window,
        carry,
        warmup,
    } = arrays;
    let last = gather(
        carry,
        kept.stream.carry_len,
        coeff,
        kept.stream.pre_emphasis_prev,
        samples,
        values,
    );
    let total = kept.stream.carry_len + samples.len();
    let held = waiting(kept);
    let framed = measure(
        window,
        kept.rules.lengths.frame_length,
        kept.rules.lengths.hop_length,
        warmup,
        held,
        &values[0..total],
        finish,
        energies,
    );
    let frames = framed.frames;
    let consumed = framed.consumed;
    let processed_samples = kept.stream.processed_samples + samples.len() as u64;
    let outcome = hold_or_judge(kept, processed_samples, &energies[0..frames], finish, rows);
    concluded(
        kept,
        Stream {
            carry_len: total - consumed,
            carry_start: kept.stream.carry_start + consumed as u64,
            processed_samples,
            pre_emphasis_prev: last,
        },
        frames,
        outcome,
        consumed,
    )
}

// The state after a call that was not refused, in place: its arrays are not copied.
fn joined(mut detector: VadDetector, kept: Kept, carry: &[f32], held: &[f32]) -> VadDetector
    requires { (detector.kept.rules.lengths.frame_length ≤ frame_most) × (length carry.now ≤ frame_most) × (length held.now ≤ warmup_most) }
    ensures { result ≡ joined_of detector kept carry.now held.now }
{
    let frame_length = detector.kept.rules.lengths.frame_length;
    clear_past(&mut detector.window, frame_length);
    fill(&mut detector.carry, carry);
    fill(&mut detector.warmup, held);
    detector.kept = kept;
    detector
}

// The answer, from what was heard and the slices that it was heard in.
#[tactic(auto, unfolding(crate::specs::Calls::settled_of))]
fn settled(
    hearing: Result<Heard, Refusal>,
    detector: VadDetector,
    values: &[f32; VALUES_MOST],
    energies: &[f32; ENERGIES_MOST],
) -> Detected
    requires frame_length_bound { detector.kept.rules.lengths.frame_length ≤ frame_most }
    requires carry_len_bound { IfOk hearing PartsFit }
    ensures { result ≡ settled_of hearing values.now energies.now detector }
{
    match hearing {
        Err(by) => refused(by, detector),
        Ok(heard) => taken(heard, detector, values, energies),
    }
}

// The answer to a call that was not refused.
fn taken(
    heard: Heard,
    detector: VadDetector,
    values: &[f32; VALUES_MOST],
    energies: &[f32; ENERGIES_MOST],
) -> Detected
    requires frame_length_bound { detector.kept.rules.lengths.frame_length ≤ frame_most }
    requires carry_len_bound { PartsFit heard }
    ensures { result ≡ taken_of heard values.now energies.now detector }
{
    let kept = heard.kept;
    let consumed = heard.consumed;
    let end = consumed + kept.stream.carry_len;
    let held = kept.desk.held;
    Answered {
        outcome: Ok(heard.tally),
        detector: joined(detector, kept, &values[consumed..end], &energies[0..held]),
    }
}

// The same of a state that is given whole. Its arrays are lent here: a callee that took the state and lent them would copy them.
pub fn run(detector: VadDetector, samples: &[f32], finish: bool, rows: &mut [u64]) -> Detected
    requires detector_value { sound_of detector ≡ true }
    requires samples_len_bound { (length samples.now ≤ block_most) × (detector.kept.stream.processed_samples + length samples.now ≤ received_most) }
    ensures value { result ≡ ran_of finish detector samples.now (length rows.old) }
    ensures rows_left { rows.new ≡ written_of finish detector samples.now rows.old }
{
    let mut values = [0.0; VALUES_MOST];
    let mut energies = [0.0; ENERGIES_MOST];
    let kept = detector.kept;
    settled(
        hear(
            kept,
            LentArrays {
                window: &detector.window,
                carry: &detector.carry,
                warmup: &detector.warmup,
            },
            samples,
            finish,
            &mut values,
            &mut energies,
            rows,
        ),
        detector,
        &values,
        &energies,
    )
}
