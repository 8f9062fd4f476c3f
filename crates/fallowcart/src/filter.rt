// The filter, whose functions are dc_door's; the state is 25 words that the host keeps.
ghost use Rattle.std.specs.Prelude.{◌≡◌, length};
ghost use Rattle.dc_door.specs.FilterDoor.{settings_of, open_answer, open_state, label_of, process_answer, process_state, process_output, reset_answer, reset_state, bias_answer};

// The coefficients are ten numbers: b0, b1, b2, a1, a2 of one stage, then of the other.
#[unsafe(no_mangle)]
pub extern "C" fn fallowcart_filter_open(
    highpass_cutoff_hz: f32,
    sample_rate_hz: u32,
    dc_bias_alpha: f32,
    enable_dc_removal: bool,
    enable_highpass: bool,
    fourth_order: bool,
    coefficients: &[f32],
    state: &mut [u32],
) -> u64
    ensures value { result ≡ open_answer (settings_of highpass_cutoff_hz sample_rate_hz dc_bias_alpha enable_dc_removal enable_highpass fourth_order) coefficients.now state.old }
    ensures state_left { state.new ≡ open_state (settings_of highpass_cutoff_hz sample_rate_hz dc_bias_alpha enable_dc_removal enable_highpass fourth_order) coefficients.now state.old }
{
    let config = dc_door::settings(
        highpass_cutoff_hz,
        sample_rate_hz,
        dc_bias_alpha,
        enable_dc_removal,
        enable_highpass,
        fourth_order,
    );
    dc_door::open(config, coefficients, state)
}

// Carries the sample's place with 16 and 26. The flags are the Rust's `Option<VadContext>`.
#[unsafe(no_mangle)]
pub extern "C" fn fallowcart_filter_process(
    state: &mut [u32],
    samples: &[f32],
    has_context: bool,
    is_silence: bool,
    output: &mut [f32],
) -> u64
    ensures value { result ≡ process_answer state.old samples.now (label_of has_context is_silence) (length output.old) }
    ensures state_left { state.new ≡ process_state state.old samples.now (label_of has_context is_silence) (length output.old) }
    ensures output_left { output.new ≡ process_output state.old samples.now (label_of has_context is_silence) output.old }
{
    let context = dc_door::label(has_context, is_silence);
    dc_door::process(state, samples, context, output)
}

#[unsafe(no_mangle)]
pub extern "C" fn fallowcart_filter_reset(state: &mut [u32]) -> u64
    ensures value { result ≡ reset_answer state.old }
    ensures state_left { state.new ≡ reset_state state.old }
{
    dc_door::reset(state)
}

// Carries the bias' bits.
#[unsafe(no_mangle)]
pub extern "C" fn fallowcart_filter_bias(state: &[u32]) -> u64
    ensures { result ≡ bias_answer state.now }
{
    dc_door::bias(state)
}
