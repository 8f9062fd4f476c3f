// The places of the numbers, each of 64 bits. A new number stands at the end, and NUMBERS and the name of the layout change with it.

// The name of the layout.
pub const LAYOUT: usize = 0;

// What the latest call that was not refused counted.
pub const FRAMES: usize = 1;

pub const LOUD: usize = 2;

pub const QUIET: usize = 3;

pub const ROWS: usize = 4;

// The settings, durations and times in nanoseconds; a flag is 0 or 1.
pub const SAMPLE_RATE: usize = 5;

pub const FRAME_DURATION: usize = 6;

pub const HAS_PRE_EMPHASIS: usize = 7;

pub const HANGOVER_FRAMES: usize = 8;

pub const SPEECH_PADDING: usize = 9;

pub const MIN_SPEECH_FRAMES: usize = 10;

pub const STREAM_START_TIME: usize = 11;

// The lengths that follow from them.
pub const FRAME_LENGTH: usize = 12;

pub const HOP_LENGTH: usize = 13;

pub const WARMUP_FRAMES: usize = 14;

pub const PADDING_SAMPLES: usize = 15;

// The stream.
pub const CARRY_LEN: usize = 16;

pub const CARRY_START: usize = 17;

pub const PROCESSED_SAMPLES: usize = 18;

// The desk.
pub const WARMING: usize = 19;

pub const HELD: usize = 20;

// Its track.
pub const LAST_SEGMENT_END: usize = 21;

pub const ROWS_REPORTED: usize = 22;

pub const TALK_SAMPLES: usize = 23;

// The open segment: zeros where none is open.
pub const IS_OPEN: usize = 24;

pub const START_SAMPLE: usize = 25;

pub const LAST_END_SAMPLE: usize = 26;

pub const SCORE_TOTAL: usize = 27;

pub const LOUD_FRAMES: usize = 28;

pub const SILENCE_RUN: usize = 29;
