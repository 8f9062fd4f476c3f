// Where the parts of a stored state stand, each under one name. The header and the Rust wrapper have the same names, and a test holds them together.

#![tactic(auto)]

pub mod in_floats;
pub mod in_numbers;

// The first number names the layout, so that a state which another layout stored is refused by 19 and never misread. Every change of the layout changes it; it is never 0, since zeros are no state.
pub const LAYOUT: u64 = 0x4641_4C4C_4F57_0001;

// How many numbers and floats a state takes.
pub const NUMBERS: usize = 30;

pub const FLOATS: usize = 4407;
