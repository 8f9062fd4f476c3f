// One second-order stage: its coefficients, what it remembers, and one step of it.
ghost use Rattle.std.specs.Prelude.{◌≡◌};
ghost use Rattle.float.specs.Fused.{fused_of};
ghost use Rattle.dc_state.specs.Biquad.{or_nan, coefficients_of, output_of, next_of, stepped, heard};

// Normalized so that a0 = 1.
#[derive(Clone, Copy)]
pub struct BiquadCoefficients {
    pub b0: f32,
    pub b1: f32,
    pub b2: f32,
    pub a1: f32,
    pub a2: f32,
}

// In the order of the fields.
#[tactic(auto, unfolding(crate::specs::Biquad::coefficients_of))]
impl From<[f32; 5]> for BiquadCoefficients {
    ghost from_gives = { λ numbers c. c ≡ coefficients_of numbers };

    fn from(numbers: [f32; 5]) -> Self {
        let [b0, b1, b2, a1, a2] = numbers;
        BiquadCoefficients { b0, b1, b2, a1, a2 }
    }
}

// The last two inputs and the last two outputs.
#[derive(Clone, Copy, Default)]
pub struct BiquadState {
    pub x1: f32,
    pub x2: f32,
    pub y1: f32,
    pub y2: f32,
}

#[derive(Clone, Copy)]
pub struct Biquad {
    pub coeffs: BiquadCoefficients,
    pub state: BiquadState,
}

// What `step` answers by value, as docs/PROMISES.md has it.
#[derive(Clone, Copy)]
pub struct Stepped {
    pub state: BiquadState,
    pub output: f32,
}

// a * b + c, rounded once. A NaN where that is not a finite number: it goes through every later operation, so that one test at the sample's end finds it.
pub fn fused(a: f32, b: f32, c: f32) -> f32
    ensures { result ≡ or_nan (fused_of a b c) }
{
    float::mul_add_or(a, b, c, f32::NAN)
}

// A step by value.
#[tactic(auto, unfolding(crate::specs::Biquad::output_of, crate::specs::Biquad::next_of))]
pub fn step(state: BiquadState, coeffs: BiquadCoefficients, input: f32) -> Stepped
    ensures { (result.state ≡ next_of coeffs state input) × (result.output ≡ output_of coeffs state input) }
{
    let acc = fused(
        coeffs.b0,
        input,
        fused(coeffs.b1, state.x1, coeffs.b2 * state.x2),
    );
    let output = acc - fused(coeffs.a1, state.y1, coeffs.a2 * state.y2);
    Stepped {
        state: BiquadState {
            x1: input,
            x2: state.x1,
            y1: output,
            y2: state.y1,
        },
        output,
    }
}

impl BiquadState {
    // A step on the memory where it is lent. `step` has the rule.
    pub fn process(&mut self, coeffs: BiquadCoefficients, input: f32) -> f32
        ensures { (self.new ≡ next_of coeffs self.old input) × (result ≡ output_of coeffs self.old input) }
    {
        let stepped = step(*self, coeffs, input);
        *self = stepped.state;
        stepped.output
    }
}

impl Biquad {
    // The Rust's `Biquad::process`.
    pub fn process(&mut self, input: f32) -> f32
        ensures { (self.new ≡ stepped self.old input) × (result ≡ heard self.old input) }
    {
        self.state.process(self.coeffs, input)
    }
}
