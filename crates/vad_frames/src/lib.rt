// Pre-emphasis and the energies of frames: `pre_emphasize` and `frame_signal` of the Rust's src/vad/detector.rs.

#![tactic(auto)]

ghost use Rattle.std.specs.Prelude.{◌≡◌, true, ◌≤◌, min, length};
ghost use Rattle.std.proofs.lemmas.List.Edits.{sets};
ghost use Rattle.vad_frames.specs.Emphasis.{coefficient_of, emphasized_of, emphasized, last_of};
ghost use Rattle.float.specs.Numbers.{zero32};
ghost use Rattle.vad_frames.specs.Energy.{squares_from, energy_of};
ghost use Rattle.vad_frames.specs.Grid.{taken, frames_of, energies_of, framed_of};
ghost use Rattle.vad_frames.specs.Inside.{Operands, SamePast};

use float::quick::{both, quick_sum};

// How many frames a call took, and how many of its values they used up.
#[derive(Clone, Copy)]
pub struct Framed {
    pub frames: usize,
    pub consumed: usize,
}

// How much of the previous sample is taken off: none where there is no pre-emphasis.
pub fn coefficient(has_pre_emphasis: bool, pre_emphasis: f32) -> f32
    ensures { result ≡ coefficient_of has_pre_emphasis pre_emphasis }
{
    if has_pre_emphasis { pre_emphasis } else { 0.0 }
}

fn emphasize(coeff: f32, previous: f32, sample: f32) -> f32
    ensures { result ≡ emphasized_of coeff previous sample }
{
    float::mul_add_or(coeff, -previous, sample, 0.0)
}

// Whether each operand of a block's sums is a finite number; of the samples it is asked whether they are in the domain, which is more.
fn all_finite(coeff: f32, previous: f32, samples: &[f32]) -> bool
    ensures { result ≡ true → Operands coeff previous samples.now }
{
    float::is_finite(coeff)
        && float::is_finite(previous)
        && ranges::all_inside(-65536.0, samples, 65536.0)
}

// Writes the sums that the processor's f64 gives, several at once, and answers whether it settles them all.
fn settle_finite(coeff: f32, previous: f32, samples: &[f32], values: &mut [f32]) -> bool
    requires { (length samples.now ≤ length values.old) × Operands coeff previous samples.now }
    ensures values_left { result ≡ true → values.new ≡ sets values.old 0 (emphasized coeff previous samples.now) }
    ensures same_past { SamePast (length samples.now) values.new values.old }
{
    let mut all = true;
    let mut prior = previous;
    for (i, &sample) in samples.iter().enumerate() {
        let quick = quick_sum(coeff, -prior, sample);
        values[i] = quick.sum;
        all = both(all, quick.settled);
        prior = sample;
    }
    all
}

// The same of any operands; where it answers no, the values are not to be used.
fn settle(coeff: f32, previous: f32, samples: &[f32], values: &mut [f32]) -> bool
    requires { length samples.now ≤ length values.old }
    ensures values_left { result ≡ true → values.new ≡ sets values.old 0 (emphasized coeff previous samples.now) }
    ensures same_past { SamePast (length samples.now) values.new values.old }
{
    all_finite(coeff, previous, samples) && settle_finite(coeff, previous, samples, values)
}

// One sum after the other, whatever the operands are.
fn emphasize_each(coeff: f32, previous: f32, samples: &[f32], values: &mut [f32])
    requires { length samples.now ≤ length values.old }
    ensures { values.new ≡ sets values.old 0 (emphasized coeff previous samples.now) }
{
    let mut last = previous;
    for (i, &sample) in samples.iter().enumerate() {
        values[i] = emphasize(coeff, last, sample);
        last = sample;
    }
}

fn last_sample(previous: f32, samples: &[f32]) -> f32
    ensures { result ≡ last_of previous samples.now }
{
    samples.last().copied().unwrap_or(previous)
}

// Writes a block's values and answers its last raw sample, which the next block's first is emphasized with.
pub fn pre_emphasize(coeff: f32, previous: f32, samples: &[f32], values: &mut [f32]) -> f32
    requires { length samples.now ≤ length values.old }
    ensures value { result ≡ last_of previous samples.now }
    ensures values_left { values.new ≡ sets values.old 0 (emphasized coeff previous samples.now) }
{
    if !settle(coeff, previous, samples, values) {
        emphasize_each(coeff, previous, samples, values);
    }
    last_sample(previous, samples)
}

// Left to right. A square is never negative, so the zero that the sum begins from, −0 in the Rust, does not show.
fn sum_of_squares(frame: &[f32], window: &[f32]) -> f32
    requires { length frame.now ≤ length window.now }
    ensures { result ≡ squares_from zero32 frame.now window.now }
{
    let mut total = 0.0;
    for (i, &sample) in frame.iter().enumerate() {
        let windowed = sample * window[i];
        total += windowed * windowed;
    }
    total
}

// The windowed root mean square; a short last frame counts as filled up with zeros.
pub fn frame_energy(frame: &[f32], window: &[f32]) -> f32
    requires { length frame.now ≤ length window.now }
    ensures { result ≡ energy_of window.now frame.now }
{
    let mean_square = sum_of_squares(frame, window) / float::whole::nearest(window.len() as u64);
    float::or_zero(float::sqrt(mean_square))
}

// Whether a frame is measured where so many values are left.
fn starts(finish: bool, frame_length: usize, left: usize) -> bool
    ensures { result ≡ taken finish frame_length left }
{
    finish || frame_length <= left
}

// Measures the frames on the hop grid, and answers how many they are.
fn measure(
    values: &[f32],
    window: &[f32],
    hop_length: usize,
    finish: bool,
    energies: &mut [f32],
) -> usize
    requires le_hop_length { (1 ≤ hop_length) × (hop_length ≤ length window.now) }
    requires values_in_bounds { length (frames_of finish (length window.now) hop_length values.now) ≤ length energies.old }
    ensures value { result ≡ length (frames_of finish (length window.now) hop_length values.now) }
    ensures energies_left { energies.new ≡ sets energies.old 0 (energies_of finish window.now hop_length values.now) }
{
    let mut count = 0;
    for start in (0..values.len()).step_by(hop_length) {
        let left = values.len() - start;
        if !starts(finish, window.len(), left) {
            break;
        }
        let end = start + window.len().min(left);
        energies[count] = frame_energy(&values[start..end], window);
        count += 1;
    }
    count
}

// Splits the values into frames and writes their energies. Only whole frames are measured, unless `finish` is set.
pub fn frame_signal(
    values: &[f32],
    window: &[f32],
    hop_length: usize,
    finish: bool,
    energies: &mut [f32],
) -> Framed
    requires le_hop_length { (1 ≤ hop_length) × (hop_length ≤ length window.now) }
    requires values_in_bounds { length (frames_of finish (length window.now) hop_length values.now) ≤ length energies.old }
    ensures value { result ≡ framed_of finish window.now hop_length values.now }
    ensures energies_left { energies.new ≡ sets energies.old 0 (energies_of finish window.now hop_length values.now) }
{
    let frames = measure(values, window, hop_length, finish, energies);
    let consumed = if finish {
        values.len()
    } else {
        (frames * hop_length).min(values.len())
    };
    Framed { frames, consumed }
}
