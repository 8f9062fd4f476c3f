// The filter's settings and state, and which of them are taken: refusals 20 to 24 and 27. The entry points are in dc_highpass.

#![tactic(auto)]

ghost use Rattle.std.specs.Prelude.{◌≡◌};
ghost use Rattle.dc_state.specs.Orders.{order_of, order_word};

pub mod biquad;
pub mod settings;

use biquad::Biquad;

// One stage, or two.
#[derive(Clone, Copy)]
pub enum HighpassOrder {
    SecondOrder,
    FourthOrder,
}

// Of the host's flag, which is set for fourth order.
impl From<bool> for HighpassOrder {
    ghost from_gives = { λ fourth order. order ≡ order_of fourth };

    fn from(fourth: bool) -> Self {
        if fourth {
            HighpassOrder::FourthOrder
        } else {
            HighpassOrder::SecondOrder
        }
    }
}

// The same flag in a word.
impl From<HighpassOrder> for u32 {
    ghost from_gives = { λ order word. word ≡ order_word order };

    fn from(order: HighpassOrder) -> u32 {
        match order {
            HighpassOrder::SecondOrder => 0,
            HighpassOrder::FourthOrder => 1,
        }
    }
}

#[derive(Clone, Copy)]
pub struct PreprocessingConfig {
    pub highpass_cutoff_hz: f32,
    pub sample_rate_hz: u32,
    pub dc_bias_alpha: f32,
    pub enable_dc_removal: bool,
    pub enable_highpass: bool,
    pub highpass_order: HighpassOrder,
}

#[derive(Clone, Copy)]
pub struct DcHighPassFilter {
    pub config: PreprocessingConfig,
    pub first: Biquad,
    pub second: Biquad,
    pub dc_bias: f32,
}
