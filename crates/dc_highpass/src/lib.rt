// DC offset removal and a Butterworth high-pass: the Rust's src/preprocessing/dc_highpass.rs. The state is passed in and returned, the output is lent.

#![tactic(auto)]

ghost use Rattle.std.specs.Prelude.{◌≡◌, ◌-◌, ◌≤◌, length, replicate};
ghost use Rattle.std.proofs.lemmas.List.Edits.{sets};
ghost use Rattle.float.specs.Numbers.{zero32};
ghost use Rattle.dc_state.specs.Operations.{centred_of};
ghost use Rattle.dc_highpass.specs.Filter.{fresh_of, nothing_open, open_of, listens, mean_of, biased_of, staged_by, pass_of, results_of, check_of, ran_of, written_of, process_of, output_after, reset_of, bias_read};

use dc_state::biquad::{Biquad, BiquadCoefficients, BiquadState};
use dc_state::settings::{sound, validate};
use dc_state::{DcHighPassFilter, HighpassOrder, PreprocessingConfig, biquad};
use ranges::BLOCK_MOST;
use refusals::Refusal;

// What is known of a block, where it is labelled.
#[derive(Clone, Copy, PartialEq, Eq)]
pub enum VadContext {
    Silence,
    Speech,
}

// What opening, a block's call and reset answer: the state is a new one only where nothing was refused.
#[derive(Clone, Copy)]
pub struct Answered {
    pub outcome: Result<(), Refusal>,
    pub filter: DcHighPassFilter,
}

// A filter that remembers nothing.
#[tactic(auto, unfolding(crate::specs::Filter::fresh_of))]
fn fresh(
    config: PreprocessingConfig,
    first: BiquadCoefficients,
    second: BiquadCoefficients,
) -> DcHighPassFilter
    ensures { result ≡ fresh_of config first second }
{
    let still = BiquadState::default();
    DcHighPassFilter {
        config,
        first: Biquad {
            coeffs: first,
            state: still,
        },
        second: Biquad {
            coeffs: second,
            state: still,
        },
        dc_bias: 0.0,
    }
}

// What a refused opening returns: all zeros, refused by 27 in every later call. No `Default`: the Rust's default settings are others.
#[tactic(auto, unfolding(crate::specs::Filter::nothing_open))]
pub fn nothing_open() -> DcHighPassFilter
    ensures { result ≡ nothing_open }
{
    let config = PreprocessingConfig {
        highpass_cutoff_hz: 0.0,
        sample_rate_hz: 0,
        dc_bias_alpha: 0.0,
        enable_dc_removal: false,
        enable_highpass: false,
        highpass_order: HighpassOrder::SecondOrder,
    };
    let none = BiquadCoefficients {
        b0: 0.0,
        b1: 0.0,
        b2: 0.0,
        a1: 0.0,
        a2: 0.0,
    };
    fresh(config, none, none)
}

// Opens a filter with the coefficients of its two stages, each b0, b1, b2, a1, a2, worked out by the host; second order never reads the second stage's.
#[tactic(auto, unfolding(crate::specs::Filter::open_of))]
pub fn open(config: PreprocessingConfig, stages: [[f32; 5]; 2]) -> Answered
    ensures { result ≡ open_of config stages }
{
    let [one, two] = stages;
    let first = BiquadCoefficients::from(one);
    let second = BiquadCoefficients::from(two);
    let outcome = validate(config, first, second);
    let filter = match outcome {
        Ok(()) => fresh(config, first, second),
        Err(_) => nothing_open(),
    };
    Answered { outcome, filter }
}

// Clears what the filter remembers, before a new stream.
#[tactic(auto, unfolding(crate::specs::Filter::reset_of))]
pub fn reset(mut filter: DcHighPassFilter) -> Answered
    ensures { result ≡ reset_of filter }
{
    if sound(filter) {
        let first = filter.first;
        let second = filter.second;
        filter = fresh(filter.config, first.coeffs, second.coeffs);
        return Answered {
            outcome: Ok(()),
            filter,
        };
    }
    Answered {
        outcome: Err(Refusal::FilterState),
        filter,
    }
}

// The running estimate of the DC offset.
#[tactic(auto, unfolding(crate::specs::Filter::bias_read))]
pub fn dc_bias(filter: DcHighPassFilter) -> Result<f32, Refusal>
    ensures { result ≡ bias_read filter }
{
    if sound(filter) {
        return Ok(filter.dc_bias);
    }
    Err(Refusal::FilterState)
}

// The sum goes left to right from −0.
fn mean(samples: &[f32]) -> f32
    ensures { result ≡ mean_of samples.now }
{
    samples.iter().sum::<f32>() / float::whole::nearest(samples.len() as u64)
}

fn listening(context: Option<VadContext>) -> bool
    ensures { result ≡ listens context }
{
    context != Some(VadContext::Speech)
}

// Speech must not leak into the estimate of the bias, so a block that is labelled speech leaves it alone. By value: the given filter is handed back on 26.
#[tactic(auto, unfolding(crate::specs::Filter::biased_of, crate::specs::Filter::bias_of))]
fn update_dc_bias(
    mut filter: DcHighPassFilter,
    samples: &[f32],
    context: Option<VadContext>,
) -> DcHighPassFilter
    ensures { result ≡ biased_of filter samples.now context }
{
    if filter.config.enable_dc_removal && !samples.is_empty() && listening(context) {
        let alpha = filter.config.dc_bias_alpha;
        filter.dc_bias = biquad::fused(alpha, filter.dc_bias, (1.0 - alpha) * mean(samples));
    }
    filter
}

#[tactic(auto, unfolding(dc_state::specs::Operations::centred_of))]
fn centred(filter: &DcHighPassFilter, sample: f32) -> f32
    ensures { result ≡ centred_of filter.now sample }
{
    if filter.config.enable_dc_removal {
        sample - filter.dc_bias
    } else {
        sample
    }
}

// Through the stages in order.
#[tactic(auto, unfolding(crate::specs::Filter::staged_by))]
fn staged(filter: &mut DcHighPassFilter, input: f32) -> f32
    ensures { let o = filter.old.config.highpass_order in (filter.new ≡ (staged_by o filter.old input).filter) × (result ≡ (staged_by o filter.old input).output) }
{
    let output = filter.first.process(input);
    match filter.config.highpass_order {
        HighpassOrder::SecondOrder => output,
        HighpassOrder::FourthOrder => filter.second.process(output),
    }
}

// One sample: the bias taken off, then the stages. The result need not be finite.
#[tactic(auto, unfolding(crate::specs::Filter::pass_of))]
fn pass(filter: &mut DcHighPassFilter, sample: f32) -> f32
    ensures { (filter.new ≡ (pass_of filter.old sample).filter) × (result ≡ (pass_of filter.old sample).output) }
{
    let input = centred(filter, sample);
    if filter.config.enable_highpass {
        staged(filter, input)
    } else {
        input
    }
}

// 27, 15, 25 and 16, in this order: what is refused before anything is written.
#[tactic(auto, unfolding(refusals::specs::Refusals::first_of, crate::specs::Filter::check_of))]
fn check(filter: DcHighPassFilter, samples: &[f32], room: usize) -> Result<(), Refusal>
    ensures { result ≡ check_of filter samples.now room }
{
    if !sound(filter) {
        return Err(Refusal::FilterState);
    }
    if BLOCK_MOST < samples.len() {
        return Err(Refusal::Block);
    }
    if room < samples.len() {
        return Err(Refusal::FilterOutput);
    }
    let place = ranges::clean(samples);
    if place < samples.len() {
        return Err(Refusal::Sample(place));
    }
    Ok(())
}

// Zeros from one place up to another.
fn clear(output: &mut [f32], from: usize, end: usize)
    requires { (from ≤ end) × (end ≤ length output.old) }
    ensures { output.new ≡ sets output.old from (replicate (end - from) zero32) }
{
    output[from..end].fill(0.0);
}

// The samples in order. One without a finite result ends the block by 26: zeros stand from its place on, and the state is the one given.
fn run(
    given: DcHighPassFilter,
    mut filter: DcHighPassFilter,
    samples: &[f32],
    output: &mut [f32],
) -> Answered
    requires { length samples.now ≤ length output.old }
    ensures value { result ≡ ran_of given filter samples.now }
    ensures output_left { output.new ≡ written_of (results_of filter samples.now) (length samples.now) output.old }
{
    for (i, sample) in samples.iter().enumerate() {
        let result = pass(&mut filter, *sample);
        if !result.is_finite() {
            clear(output, i, samples.len());
            return Answered {
                outcome: Err(Refusal::FilterOverflow(i)),
                filter: given,
            };
        }
        output[i] = result;
    }
    Answered {
        outcome: Ok(()),
        filter,
    }
}

// Filters one block into the lent output. A refusal hands the state back; only 26 has written, and then zeros stand from its place to the block's length.
#[tactic(auto, unfolding(crate::specs::Filter::process_of, crate::specs::Filter::output_after))]
pub fn process(
    filter: DcHighPassFilter,
    samples: &[f32],
    context: Option<VadContext>,
    output: &mut [f32],
) -> Answered
    ensures value { result ≡ process_of filter samples.now context (length output.old) }
    ensures output_left { output.new ≡ output_after filter samples.now context output.old }
{
    match check(filter, samples, output.len()) {
        Err(by) => Answered {
            outcome: Err(by),
            filter,
        },
        Ok(()) => {
            let biased = update_dc_bias(filter, samples, context);
            run(filter, biased, samples, output)
        }
    }
}
