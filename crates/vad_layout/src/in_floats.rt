// The places of the floats. A new one stands at the end, and FLOATS and the name of the layout change with it.

// The arrays, one behind the other, and what is no array.
pub const WINDOW: usize = 0;

pub const CARRY: usize = 2048;

pub const WARMUP: usize = 4096;

pub const SINGLES: usize = 4396;

// The settings, and the weight that the host handed in.
pub const FRAME_OVERLAP: usize = 4396;

pub const PRE_EMPHASIS: usize = 4397;

pub const ACTIVATION_RATIO: usize = 4398;

pub const RELEASE_RATIO: usize = 4399;

pub const MIN_SPEECH_ENERGY: usize = 4400;

pub const NOISE_SMOOTHING: usize = 4401;

pub const ENERGY_FLOOR: usize = 4402;

pub const SPEECH_FLOOR_RISE: usize = 4403;

// The last raw sample.
pub const PRE_EMPHASIS_PREV: usize = 4404;

// The track: its floor, and the energy total of the open segment, 0 where none is open.
pub const NOISE_FLOOR: usize = 4405;

pub const ENERGY_SUM: usize = 4406;
