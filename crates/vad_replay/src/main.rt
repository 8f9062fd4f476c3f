// Replays a run of calls and prints what the detector answers. Standard input is a run of 32-bit words, little-endian: what `opening` takes, then for
// each call its number and what it takes, and 0. What must be printed comes from the original (oracle/tests/replay.rs), so this shows equality
// without Rust at hand.

#![tactic(auto)]

ghost use Rattle.std.specs.Prelude.{◌≤◌, IfOk};

use refusals::{Refusal, number_in};
use std::io;
use std::io::Read;
use vad_call::{Detected, Tally};
use vad_config::VadConfig;
use vad_row::ROW_FIELDS;
use vad_state::VadDetector;
use words::Words;

// The most rows of a call that are printed, and the numbers they take.
const ROWS_MOST: usize = 64;

const ROOM: usize = ROWS_MOST * ROW_FIELDS;

// What is called.
#[derive(Clone, Copy)]
enum Call {
    Open,
    Detect,
    Flush,
    Reset,
    Pace,
}

// A number that is no call's.
#[derive(Clone, Copy)]
struct UnknownCall;

impl TryFrom<u32> for Call {
    type Error = UnknownCall;

    fn try_from(number: u32) -> Result<Self, UnknownCall> {
        match number {
            1 => Ok(Call::Open),
            2 => Ok(Call::Detect),
            3 => Ok(Call::Flush),
            4 => Ok(Call::Reset),
            5 => Ok(Call::Pace),
            _ => Err(UnknownCall),
        }
    }
}

fn number<R: Read>(words: &mut Words<R>) -> io::Result<f32> {
    Ok(float::from_bits(words.word()?))
}

// A word, but no more than the room for it.
fn count<R: Read>(words: &mut Words<R>, most: usize) -> io::Result<usize>
    ensures { IfOk result (λ n. n ≤ most) }
{
    Ok((words.word()? as usize).min(most))
}

// How many numbers follow, but no more than the room for them, and the numbers.
fn numbers<'a, R: Read>(words: &mut Words<R>, room: &'a mut [f32]) -> io::Result<&'a [f32]> {
    let n = count(words, room.len())?;
    let given = &mut room[..n];
    for slot in &mut *given {
        *slot = number(words)?;
    }
    Ok(given)
}

fn config<R: Read>(words: &mut Words<R>) -> io::Result<VadConfig> {
    Ok(VadConfig {
        sample_rate: words.word()?,
        frame_duration: words.long()?,
        frame_overlap: number(words)?,
        has_pre_emphasis: words.word()? != 0,
        pre_emphasis: number(words)?,
        activation_ratio: number(words)?,
        release_ratio: number(words)?,
        min_speech_energy: number(words)?,
        noise_smoothing: number(words)?,
        energy_floor: number(words)?,
        hangover_frames: words.long()?,
        speech_padding: words.long()?,
        min_speech_frames: words.long()?,
        stream_start_time: words.long()?,
    })
}

fn print_refusal(rt: &impl Print, refusal: Refusal) -> io::Result<()> {
    println!(rt; "refused {} {}", refusal.number(), refusal.carries())
}

// Frames, loud, quiet, the floor's bits.
fn print_tally(rt: &impl Print, tally: Tally) -> io::Result<()> {
    let bits = float::to_bits(tally.noise_floor);
    print!(rt;
        "heard {} {} {} {bits:08x}",
        tally.frames, tally.loud, tally.quiet
    )
}

// The open segment's start, which is - where none is open.
fn print_segment(rt: &impl Print, start: Option<u64>) -> io::Result<()> {
    match start {
        Some(start) => println!(rt; " {start}"),
        None => println!(rt; " -"),
    }
}

// Of a state that is refused 0, and no open segment.
fn print_positions(rt: &impl Print, detector: VadDetector) -> io::Result<()> {
    let undecided = vad_detector::undecided_from(detector).unwrap_or(0);
    let analyzed = vad_detector::analyzed_until(detector).unwrap_or(0);
    print!(rt; " {undecided} {analyzed}")?;
    let start = vad_detector::active_segment_start_sample(detector).unwrap_or(None);
    print_segment(rt, start)
}

// Of a row's seven numbers start and end time, loud frames, and the mean energy's bits: what the original tells of a segment.
fn print_row(rt: &impl Print, row: &[u64; ROW_FIELDS]) -> io::Result<()> {
    let [_, _, start_time, end_time, _, loud_frames, mean_energy] = *row;
    println!(rt; "row {start_time} {end_time} {loud_frames} {mean_energy:08x}")
}

fn print_answer(rt: &impl Print, answer: Detected, rows: &[u64; ROOM]) -> io::Result<()> {
    match answer.outcome {
        Err(by) => print_refusal(rt, by),
        Ok(tally) => print_heard(rt, tally, answer.detector, rows),
    }
}

fn print_heard(
    rt: &impl Print,
    tally: Tally,
    detector: VadDetector,
    rows: &[u64; ROOM],
) -> io::Result<()> {
    print_tally(rt, tally)?;
    print_positions(rt, detector)?;
    let (rows, _) = rows.as_chunks();
    for row in rows.iter().take(tally.rows) {
        print_row(rt, row)?;
    }
    Ok(())
}

// Settings, rise weight, window.
fn opening<R: Read>(rt: &impl Print, words: &mut Words<R>) -> io::Result<VadDetector> {
    let config = config(words)?;
    let rise = number(words)?;
    let mut window = [0.0; 2049];
    let window = numbers(words, &mut window)?;
    let opened = vad_detector::open(config, window, rise);
    println!(rt; "opened {}", number_in(opened.outcome))?;
    Ok(opened.detector)
}

// The block heard that many times.
fn paced(mut detector: VadDetector, times: u32, samples: &[f32], rows: &mut [u64]) -> VadDetector {
    for _ in 0..times {
        detector = vad_detector::detect(detector, samples, rows).detector;
    }
    detector
}

// The detector as the calls so far left it, the words of those that are left, and where the answers are printed.
#[derive(Drop)]
struct Replay<'a, P: Print, R: Read> {
    rt: &'a P,
    words: Words<R>,
    detector: VadDetector,
}

impl<'a, P: Print, R: Read> Replay<'a, P, R> {
    fn open(&mut self) -> io::Result<()> {
        self.detector = opening(self.rt, &mut self.words)?;
        Ok(())
    }

    // The numbers lent for rows, and the block.
    fn detect(&mut self) -> io::Result<()> {
        let room = count(&mut self.words, ROOM)?;
        let mut samples = [0.0; 1040];
        let samples = numbers(&mut self.words, &mut samples)?;
        let mut rows = [0; ROOM];
        let answer = vad_detector::detect(self.detector, samples, &mut rows[..room]);
        self.detector = answer.detector;
        print_answer(self.rt, answer, &rows)
    }

    fn flush(&mut self) -> io::Result<()> {
        let room = count(&mut self.words, ROOM)?;
        let mut rows = [0; ROOM];
        let answer = vad_detector::flush(self.detector, &mut rows[..room]);
        self.detector = answer.detector;
        print_answer(self.rt, answer, &rows)
    }

    fn reset(&mut self) -> io::Result<()> {
        let reset = vad_detector::reset(self.detector, self.words.long()?);
        self.detector = reset.detector;
        println!(self.rt; "reset {}", number_in(reset.outcome))
    }

    // How many times, and the block; no row is printed. So calls can be timed (tools/pace).
    fn pace(&mut self) -> io::Result<()> {
        let times = self.words.word()?;
        let mut samples = [0.0; 1040];
        let samples = numbers(&mut self.words, &mut samples)?;
        let mut rows = [0; ROOM];
        self.detector = paced(self.detector, times, samples, &mut rows);
        print!(self.rt; "paced")?;
        print_positions(self.rt, self.detector)
    }

    fn run(&mut self, call: Call) -> io::Result<()> {
        match call {
            Call::Open => self.open(),
            Call::Detect => self.detect(),
            Call::Flush => self.flush(),
            Call::Reset => self.reset(),
            Call::Pace => self.pace(),
        }
    }
}

// A number that is no call's changes nothing. A proved loop has to end, so it counts more calls than any list has.
fn main(rt: HostRuntime) -> io::Result<()> {
    let mut words = Words::new(rt.reader());
    let detector = opening(&rt, &mut words)?;
    let mut replay = Replay {
        rt: &rt,
        words,
        detector,
    };
    for _ in 0..u64::MAX {
        let number = replay.words.word()?;
        if number == 0 {
            break;
        }
        if let Ok(call) = Call::try_from(number) {
            replay.run(call)?;
        }
    }
    Ok(())
}
