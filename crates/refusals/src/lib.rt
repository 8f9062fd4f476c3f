// A refusal, and what an entry point of the door answers, in one word. specs/Refusals.antt has the chain of refusals that every definition is written by.

#![tactic(auto)]

ghost use Rattle.std.specs.Prelude.{◌≡◌, ◌<◌, ◌^◌};
ghost use Rattle.refusals.specs.Answers.{packed};
ghost use Rattle.refusals.specs.Refusals.{number, carries, number_in};

// Why a call is refused, by the header's names and in the order of its numbers.
#[derive(Clone, Copy, PartialEq, Eq)]
pub enum Refusal {
    // The detector's settings.
    Rate,
    FrameDuration,
    FrameOverlap,
    PreEmphasis,
    ReleaseRatio,
    ActivationRatio,
    MinSpeechEnergy,
    NoiseSmoothing,
    EnergyFloor,
    MinSpeechFrames,
    FrameLength,
    Warmup,
    Limits,
    Window,
    // A call.
    Block,
    // A sample outside the domain, by its place.
    Sample(usize),
    Received,
    // More rows than fit: so many are needed.
    Rows(usize),
    State,
    // The filter's settings.
    FilterRate,
    FilterCutoff,
    FilterHalfRate,
    FilterAlpha,
    FilterCoefficient,
    // A block of the filter.
    FilterOutput,
    // A sample without a finite result, by its place.
    FilterOverflow(usize),
    FilterState,
}

impl Refusal {
    // What the header and the documents call it by.
    pub fn number(self) -> u32
        ensures { result ≡ number self }
    {
        match self {
            Refusal::Rate => 1,
            Refusal::FrameDuration => 2,
            Refusal::FrameOverlap => 3,
            Refusal::PreEmphasis => 4,
            Refusal::ReleaseRatio => 5,
            Refusal::ActivationRatio => 6,
            Refusal::MinSpeechEnergy => 7,
            Refusal::NoiseSmoothing => 8,
            Refusal::EnergyFloor => 9,
            Refusal::MinSpeechFrames => 10,
            Refusal::FrameLength => 11,
            Refusal::Warmup => 12,
            Refusal::Limits => 13,
            Refusal::Window => 14,
            Refusal::Block => 15,
            Refusal::Sample(_) => 16,
            Refusal::Received => 17,
            Refusal::Rows(_) => 18,
            Refusal::State => 19,
            Refusal::FilterRate => 20,
            Refusal::FilterCutoff => 21,
            Refusal::FilterHalfRate => 22,
            Refusal::FilterAlpha => 23,
            Refusal::FilterCoefficient => 24,
            Refusal::FilterOutput => 25,
            Refusal::FilterOverflow(_) => 26,
            Refusal::FilterState => 27,
        }
    }

    // The sample's place with 16 and 26, the rows needed with 18, 0 with the others.
    pub fn carries(self) -> usize
        ensures { result ≡ carries self }
    {
        match self {
            Refusal::Sample(place) => place,
            Refusal::Rows(needed) => needed,
            Refusal::FilterOverflow(place) => place,
            _ => 0,
        }
    }
}

// The number of an answer's refusal, 0 where it is none.
pub fn number_in<T: Copy>(outcome: Result<T, Refusal>) -> u32
    ensures { result ≡ number_in outcome }
{
    match outcome {
        Ok(_) => 0,
        Err(by) => by.number(),
    }
}

// The bound is for 64 bits; what is carried is a place, a count, a position or a float's bits, all below 2^41.
pub fn answer(number: u32, carried: u64) -> u64
    requires { carried < 2 ^ 55 }
    ensures { result ≡ packed number carried }
{
    (number as u64) + carried * 256
}
