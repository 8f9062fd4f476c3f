// The filter's door. The host keeps the state as words, 25 of them, whose layout specs/FilterState.antt says; every input is answered.
// The crate fallowcart exports the four entry points, since only a library's own functions get a C name.

#![tactic(auto)]

ghost use Rattle.std.specs.Prelude.{◌≡◌, cond, ◌&&◌, is_ok, ◌<◌, ◌^◌, leb, length};
ghost use Rattle.refusals.specs.Answers.{packed};
ghost use Rattle.refusals.specs.Refusals.{number_in, carries_in};
ghost use Rattle.dc_door.specs.FilterState.{stage_at, words_of, written};
ghost use Rattle.dc_door.specs.FilterDoor.{settings_of, opened_of, open_answer, open_state, label_of, process_answer, process_state, process_output, reset_answer, reset_state, bias_answer};
ghost use Rattle.dc_door.specs.Inside.{flag_read, config_read, held_in, read_of, stages_read};

use dc_highpass::{Answered, VadContext};
use dc_state::biquad::{Biquad, BiquadCoefficients, BiquadState};
use dc_state::{DcHighPassFilter, HighpassOrder, PreprocessingConfig};
use float::{from_bits, to_bits};
use refusals::{Refusal, answer, number_in};

// The words of a state, of its settings and of a stage.
const WORDS: usize = 25;

const SETTINGS: usize = 6;

const STAGE: usize = 9;

// The settings that a caller hands over one by one.
pub fn settings(
    highpass_cutoff_hz: f32,
    sample_rate_hz: u32,
    dc_bias_alpha: f32,
    enable_dc_removal: bool,
    enable_highpass: bool,
    fourth_order: bool,
) -> PreprocessingConfig
    ensures { result ≡ settings_of highpass_cutoff_hz sample_rate_hz dc_bias_alpha enable_dc_removal enable_highpass fourth_order }
{
    PreprocessingConfig {
        highpass_cutoff_hz,
        sample_rate_hz,
        dc_bias_alpha,
        enable_dc_removal,
        enable_highpass,
        highpass_order: HighpassOrder::from(fourth_order),
    }
}

// A word that is no flag is refused: without this two different states would be read as one.
fn flag(word: u32) -> Option<bool>
    ensures { result ≡ flag_read word }
{
    match word {
        0 => Some(false),
        1 => Some(true),
        _ => None,
    }
}

#[tactic(auto, unfolding(crate::specs::FilterState::config_at, crate::specs::Inside::config_read))]
fn config_in(words: &[u32; SETTINGS]) -> Option<PreprocessingConfig>
    ensures { result ≡ config_read words.now }
{
    let [cutoff, rate, alpha, removal, highpass, order] = *words;
    Some(settings(
        from_bits(cutoff),
        rate,
        from_bits(alpha),
        flag(removal)?,
        flag(highpass)?,
        flag(order)?,
    ))
}

#[tactic(auto, unfolding(crate::specs::FilterState::stage_at, crate::specs::FilterState::coefficients_at, crate::specs::FilterState::memory_at))]
fn stage_in(words: &[u32; STAGE]) -> Biquad
    ensures { result ≡ stage_at words.now 0 }
{
    let [b0, b1, b2, a1, a2, x1, x2, y1, y2] = *words;
    Biquad {
        coeffs: BiquadCoefficients {
            b0: from_bits(b0),
            b1: from_bits(b1),
            b2: from_bits(b2),
            a1: from_bits(a1),
            a2: from_bits(a2),
        },
        state: BiquadState {
            x1: from_bits(x1),
            x2: from_bits(x2),
            y1: from_bits(y1),
            y2: from_bits(y2),
        },
    }
}

// Long enough, and each flag 0 or 1. The filter itself judges the numbers.
#[tactic(auto, using(crate::proofs::Read::no_flag), unfolding(crate::specs::FilterState::filter_at, crate::specs::FilterState::readable, crate::specs::Inside::held_in))]
fn filter_in(words: &[u32]) -> Option<DcHighPassFilter>
    ensures { result ≡ held_in words.now }
{
    let (settings, stages) = words.split_first_chunk::<SETTINGS>()?;
    let (first, rest) = stages.split_first_chunk::<STAGE>()?;
    let (second, rest) = rest.split_first_chunk::<STAGE>()?;
    let bias = rest.first()?;
    Some(DcHighPassFilter {
        config: config_in(settings)?,
        first: stage_in(first),
        second: stage_in(second),
        dc_bias: from_bits(*bias),
    })
}

// Words that are no state are read as none, which the filter refuses by 27.
#[tactic(auto, unfolding(crate::specs::Inside::held_in, crate::specs::Inside::read_of))]
fn filter_at(words: &[u32]) -> DcHighPassFilter
    ensures { result ≡ read_of words.now }
{
    filter_in(words).unwrap_or_else(dc_highpass::nothing_open)
}

// The words of a state, in their order.
#[tactic(auto, using(lists::proofs::Flags::flag_byte), unfolding(crate::specs::FilterState::words_of, crate::specs::FilterState::config_words, crate::specs::FilterState::stage_words, crate::specs::FilterState::coefficient_words, crate::specs::FilterState::memory_words))]
fn words_of(filter: DcHighPassFilter) -> [u32; WORDS]
    ensures { result ≡ words_of filter }
{
    let DcHighPassFilter {
        config,
        first,
        second,
        dc_bias,
    } = filter;
    [
        to_bits(config.highpass_cutoff_hz),
        config.sample_rate_hz,
        to_bits(config.dc_bias_alpha),
        config.enable_dc_removal as u32,
        config.enable_highpass as u32,
        u32::from(config.highpass_order),
        to_bits(first.coeffs.b0),
        to_bits(first.coeffs.b1),
        to_bits(first.coeffs.b2),
        to_bits(first.coeffs.a1),
        to_bits(first.coeffs.a2),
        to_bits(first.state.x1),
        to_bits(first.state.x2),
        to_bits(first.state.y1),
        to_bits(first.state.y2),
        to_bits(second.coeffs.b0),
        to_bits(second.coeffs.b1),
        to_bits(second.coeffs.b2),
        to_bits(second.coeffs.a1),
        to_bits(second.coeffs.a2),
        to_bits(second.state.x1),
        to_bits(second.state.x2),
        to_bits(second.state.y1),
        to_bits(second.state.y2),
        to_bits(dc_bias),
    ]
}

// The state is written only where nothing was refused. One that was read has room.
#[tactic(auto, unfolding(crate::specs::FilterState::written))]
fn keep(state: &mut [u32], outcome: Result<(), Refusal>, filter: DcHighPassFilter) -> u64
    requires { carries_in outcome < 2 ^ 55 }
    ensures value { result ≡ packed (number_in outcome) (carries_in outcome) }
    ensures state_left { state.new ≡ cond (is_ok outcome && leb 25 (length state.old)) (written filter state.old) state.old }
{
    match outcome {
        Ok(()) => {
            if let Some(words) = state.first_chunk_mut::<WORDS>() {
                *words = words_of(filter);
            }
            0
        }
        Err(by) => answer(by.number(), by.carries() as u64),
    }
}

// The first ten numbers, as two stages' coefficients.
#[tactic(auto, using(crate::proofs::Door::first_five, crate::proofs::Door::next_five), unfolding(crate::specs::Inside::stages_read))]
fn stages(numbers: &[f32]) -> Option<[[f32; 5]; 2]>
    ensures { result ≡ stages_read numbers.now }
{
    let (first, rest) = numbers.split_first_chunk::<5>()?;
    let second = rest.first_chunk::<5>()?;
    Some([*first, *second])
}

// A slice that is too short has no coefficients to read: refused as they would be.
#[tactic(auto, unfolding(crate::specs::FilterDoor::opened_of, crate::specs::Inside::stages_read))]
fn opened(config: PreprocessingConfig, coefficients: &[f32]) -> Answered
    ensures { result ≡ opened_of config coefficients.now }
{
    match stages(coefficients) {
        Some(stages) => dc_highpass::open(config, stages),
        None => Answered {
            outcome: Err(Refusal::FilterCoefficient),
            filter: dc_highpass::nothing_open(),
        },
    }
}

// The coefficients are ten numbers: b0, b1, b2, a1, a2 of one stage, then of the other. A refused opening leaves 25 zeros;
// a state that is too short is left as it is.
#[tactic(auto, unfolding(crate::specs::FilterState::written, crate::specs::FilterDoor::open_answer, crate::specs::FilterDoor::open_state))]
pub fn open(config: PreprocessingConfig, coefficients: &[f32], state: &mut [u32]) -> u64
    ensures value { result ≡ open_answer config coefficients.now state.old }
    ensures state_left { state.new ≡ open_state config coefficients.now state.old }
{
    let Some(words) = state.first_chunk_mut::<WORDS>() else {
        return Refusal::FilterState.number() as u64;
    };
    let done = opened(config, coefficients);
    *words = words_of(done.filter);
    number_in(done.outcome) as u64
}

// The Rust's `Option<VadContext>`.
pub fn label(has_context: bool, is_silence: bool) -> Option<VadContext>
    ensures { result ≡ label_of has_context is_silence }
{
    has_context.then_some(if is_silence {
        VadContext::Silence
    } else {
        VadContext::Speech
    })
}

// Carries the sample's place with 16 and 26. A refusal writes no state.
pub fn process(
    state: &mut [u32],
    samples: &[f32],
    context: Option<VadContext>,
    output: &mut [f32],
) -> u64
    ensures value { result ≡ process_answer state.old samples.now context (length output.old) }
    ensures state_left { state.new ≡ process_state state.old samples.now context (length output.old) }
    ensures output_left { output.new ≡ process_output state.old samples.now context output.old }
{
    let done = dc_highpass::process(filter_at(state), samples, context, output);
    keep(state, done.outcome, done.filter)
}

// A refusal writes nothing.
pub fn reset(state: &mut [u32]) -> u64
    ensures value { result ≡ reset_answer state.old }
    ensures state_left { state.new ≡ reset_state state.old }
{
    let cleared = dc_highpass::reset(filter_at(state));
    keep(state, cleared.outcome, cleared.filter)
}

// Carries the bias' bits.
pub fn bias(state: &[u32]) -> u64
    ensures { result ≡ bias_answer state.now }
{
    match dc_highpass::dc_bias(filter_at(state)) {
        Ok(bias) => answer(0, to_bits(bias) as u64),
        Err(by) => by.number() as u64,
    }
}
