// The detector's door: its entry points, which the crate fallowcart exports. The host keeps the state as numbers and floats, laid out as vad_memory says; every input is answered.

#![tactic(auto)]

ghost use Rattle.std.specs.Prelude.{◌≡◌, true, ℕ, ◌+◌, ◌≤◌, ◌<◌, ◌^◌, length, IfSome};
ghost use Rattle.refusals.specs.Refusals.{number_in};
ghost use Rattle.ranges.specs.Sizes.{block_most, received_most};
ghost use Rattle.vad_state.specs.State.{sound_of};
ghost use Rattle.vad_call.specs.Calls.{no_tally, ran_of, written_of};
ghost use Rattle.vad_detector.specs.Opening.{reset_of};
ghost use Rattle.vad_detector.specs.Readings.{undecided_read, analyzed_read, rows_read, talk_read, open_start};
ghost use Rattle.vad_memory.specs.DetectorState.{kept_at, detector_at, long_enough, readable, numbers_written, floats_written};
ghost use Rattle.vad_detector.specs.Run.{Detect, Flush, Reset, answered};
ghost use Rattle.vad_door.specs.DetectorDoor.{open_answer, open_numbers, open_floats, call_answer, call_numbers, call_floats, detected_rows, flushed_rows, read_answer, floor_word, start_word, segment_word};
ghost use Rattle.vad_door.specs.Inside.{carried_in, word_of, call_outcome, heard_of, rows_heard, WordsSmall, ReadBy};

use float::to_bits;
use refusals::{Refusal, answer, number_in};
use vad_call::Tally;
use vad_config::VadConfig;
use vad_detector::Opened;
use vad_lent::{check_at, hear_at, sound_at};
use vad_memory::{detector_at, is_readable, kept_at, long_enough, put_detector, put_kept};
use vad_segments::{ActiveSegmentState, Track};
use vad_state::Kept;

// An outcome in one word: a refusal and what it carries, or 0 and a value.
fn word(outcome: Result<u64, Refusal>) -> u64
    requires { carried_in outcome < 2 ^ 55 }
    ensures { result ≡ word_of outcome }
{
    match outcome {
        Ok(value) => answer(0, value),
        Err(by) => answer(by.number(), by.carries() as u64),
    }
}

// Opens a detector in the memory lent; a refused opening leaves zeros there, and memory that is too short is left as it is.
pub fn open(
    config: VadConfig,
    window: &[f32],
    speech_floor_rise: f32,
    numbers: &mut [u64],
    floats: &mut [f32],
) -> u64
    ensures value { result ≡ open_answer config window.now speech_floor_rise numbers.old floats.old }
    ensures numbers_left { numbers.new ≡ open_numbers config window.now speech_floor_rise numbers.old floats.old }
    ensures floats_left { floats.new ≡ open_floats config window.now speech_floor_rise numbers.old floats.old }
{
    if !long_enough(numbers, floats) {
        return word(Err(Refusal::State));
    }
    put_opened(
        numbers,
        floats,
        vad_detector::open(config, window, speech_floor_rise),
    )
}

// What refuses an opening or a reset carries nothing, so that its number is the word.
fn put_opened(numbers: &mut [u64], floats: &mut [f32], opened: Opened) -> u64
    requires { long_enough numbers.old floats.old ≡ true }
    ensures value { result ≡ number_in opened.outcome }
    ensures numbers_left { numbers.new ≡ numbers_written opened.detector.kept no_tally numbers.old }
    ensures floats_left { floats.new ≡ floats_written opened.detector floats.old }
{
    put_detector(numbers, floats, opened.detector, nothing_counted());
    number_in(opened.outcome) as u64
}

#[tactic(auto, unfolding(vad_call::specs::Calls::no_tally))]
fn nothing_counted() -> Tally
    ensures { result ≡ no_tally }
{
    Tally::default()
}

// Hears a block, or with `finish` the stream's end, in a state that no check refused. The arrays are changed where they stand and the numbers put beside them; nothing is written where the rows do not fit.
fn call_checked(
    numbers: &mut [u64],
    floats: &mut [f32],
    kept: Kept,
    samples: &[f32],
    finish: bool,
    rows: &mut [u64],
) -> Result<u64, Refusal>
    requires floats_value { readable numbers.old floats.old ≡ true }
    requires kept_value { (kept ≡ kept_at numbers.old floats.old) × (sound_of (detector_at numbers.old floats.old) ≡ true) }
    requires samples_len_bound { (length samples.now ≤ block_most) × (kept.stream.processed_samples + length samples.now ≤ received_most) }
    ensures value { result ≡ call_outcome numbers.old floats.old (λ d. ran_of finish d samples.now (length rows.old)) }
    ensures numbers_left { numbers.new ≡ call_numbers numbers.old floats.old (λ d. ran_of finish d samples.now (length rows.old)) }
    ensures floats_left { floats.new ≡ call_floats numbers.old floats.old (λ d. ran_of finish d samples.now (length rows.old)) }
    ensures rows_left { rows.new ≡ written_of finish (detector_at numbers.old floats.old) samples.now rows.old }
{
    let heard = hear_at(kept, floats, samples, finish, rows)?;
    put_kept(numbers, floats, heard.kept, heard.tally);
    Ok(0)
}

// Detect and flush; what is heard carries 0. What a check refuses, it refuses before anything is written.
fn call(
    numbers: &mut [u64],
    floats: &mut [f32],
    samples: &[f32],
    finish: bool,
    rows: &mut [u64],
) -> Result<u64, Refusal>
    ensures value { result ≡ call_outcome numbers.old floats.old (heard_of finish samples.now (length rows.old)) }
    ensures numbers_left { numbers.new ≡ call_numbers numbers.old floats.old (heard_of finish samples.now (length rows.old)) }
    ensures floats_left { floats.new ≡ call_floats numbers.old floats.old (heard_of finish samples.now (length rows.old)) }
    ensures rows_left { rows.new ≡ rows_heard finish numbers.old floats.old samples.now rows.old }
{
    if !is_readable(numbers, floats) {
        return Err(Refusal::State);
    }
    let kept = kept_at(numbers, floats);
    check_at(kept, floats, samples)?;
    call_checked(numbers, floats, kept, samples, finish, rows)
}

// Carries the sample's place with 16, the rows needed with 18. What was counted stands among the numbers.
pub fn detect(numbers: &mut [u64], floats: &mut [f32], samples: &[f32], rows: &mut [u64]) -> u64
    ensures value { result ≡ call_answer numbers.old floats.old (answered (Detect samples.now (length rows.old))) }
    ensures numbers_left { numbers.new ≡ call_numbers numbers.old floats.old (answered (Detect samples.now (length rows.old))) }
    ensures floats_left { floats.new ≡ call_floats numbers.old floats.old (answered (Detect samples.now (length rows.old))) }
    ensures rows_left { rows.new ≡ detected_rows numbers.old floats.old samples.now rows.old }
{
    word(call(numbers, floats, samples, false, rows))
}

// Carries the rows needed with 18.
pub fn flush(numbers: &mut [u64], floats: &mut [f32], rows: &mut [u64]) -> u64
    ensures value { result ≡ call_answer numbers.old floats.old (answered (Flush (length rows.old))) }
    ensures numbers_left { numbers.new ≡ call_numbers numbers.old floats.old (answered (Flush (length rows.old))) }
    ensures floats_left { floats.new ≡ call_floats numbers.old floats.old (answered (Flush (length rows.old))) }
    ensures rows_left { rows.new ≡ flushed_rows numbers.old floats.old rows.old }
{
    word(call(numbers, floats, &[], true, rows))
}

// Apart from `reset`, where the state read would be one more struct at every place.
fn emptied(numbers: &[u64], floats: &[f32], stream_start_time: u64) -> Opened
    requires { readable numbers.now floats.now ≡ true }
    ensures { result ≡ reset_of (detector_at numbers.now floats.now) stream_start_time }
{
    vad_detector::reset(detector_at(numbers, floats), stream_start_time)
}

// Forgets all that was heard; what the latest call counted is 0 again.
pub fn reset(numbers: &mut [u64], floats: &mut [f32], stream_start_time: u64) -> u64
    ensures value { result ≡ call_answer numbers.old floats.old (answered (Reset stream_start_time)) }
    ensures numbers_left { numbers.new ≡ call_numbers numbers.old floats.old (answered (Reset stream_start_time)) }
    ensures floats_left { floats.new ≡ call_floats numbers.old floats.old (answered (Reset stream_start_time)) }
{
    if !is_readable(numbers, floats) {
        return word(Err(Refusal::State));
    }
    let opened = emptied(numbers, floats, stream_start_time);
    if opened.outcome.is_err() {
        return number_in(opened.outcome) as u64;
    }
    put_opened(numbers, floats, opened)
}

// A match and no `map_or`, since the arm says of which segment the sum has to fit.
fn start_word(track: Track) -> u64
    requires { IfSome (open_start track.active_segment) (λ start. start ≤ received_most) }
    ensures { result ≡ start_word (open_start track.active_segment) }
{
    let active = track.active_segment;
    match active {
        None => 0,
        Some(segment) => segment.start_sample + 1,
    }
}

// Carries a value of a sound state, which the caller takes from its numbers.
fn read<F: FnOnce(Kept) -> u64>(numbers: &[u64], floats: &[f32], value: F) -> u64
    requires callable { (k : Kept) → WordsSmall k → F.pre value k }
    requires small { (k : Kept) (v : ℕ) → WordsSmall k → F.post value k v → v < 2 ^ 55 }
    ensures { ReadBy (F.post value) numbers.now floats.now result }
{
    if !is_readable(numbers, floats) {
        return word(Err(Refusal::State));
    }
    let kept = kept_at(numbers, floats);
    if !sound_at(kept, floats) {
        return word(Err(Refusal::State));
    }
    word(Ok(value(kept)))
}

// The first sample whose judgement can still change.
pub fn undecided_from(numbers: &[u64], floats: &[f32]) -> u64
    ensures { result ≡ read_answer numbers.now floats.now undecided_read }
{
    read(numbers, floats, |kept| {
        vad_segments::positions::undecided_from(
            kept.desk.warming,
            kept.rules.lengths.padding_samples as u64,
            kept.stream.carry_start,
            kept.desk.track,
        )
    })
}

// The first sample not yet covered by a complete frame.
pub fn analyzed_until(numbers: &[u64], floats: &[f32]) -> u64
    ensures { result ≡ read_answer numbers.now floats.now analyzed_read }
{
    read(numbers, floats, |kept| kept.stream.carry_start)
}

// Carries 0 where no segment is open, else one more than its start.
pub fn active_segment_start_sample(numbers: &[u64], floats: &[f32]) -> u64
    ensures { result ≡ read_answer numbers.now floats.now segment_word }
{
    read(numbers, floats, |kept| start_word(kept.desk.track))
}

// Rows since the opening or the latest reset.
pub fn rows_reported(numbers: &[u64], floats: &[f32]) -> u64
    ensures { result ≡ read_answer numbers.now floats.now rows_read }
{
    read(numbers, floats, |kept| kept.desk.track.rows_reported)
}

// Their samples.
pub fn talk_samples(numbers: &[u64], floats: &[f32]) -> u64
    ensures { result ≡ read_answer numbers.now floats.now talk_read }
{
    read(numbers, floats, |kept| kept.desk.track.talk_samples)
}

// Carries the floor's bits.
pub fn noise_floor(numbers: &[u64], floats: &[f32]) -> u64
    ensures { result ≡ read_answer numbers.now floats.now floor_word }
{
    read(numbers, floats, |kept| {
        to_bits(kept.desk.track.noise_floor) as u64
    })
}
