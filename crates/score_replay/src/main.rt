// Replays a list of answers without Rust at hand: standard input is a run of f32 ratios, little-endian, and each is printed as its bits with
// its score. tools/score_table.py makes the list and, by exact whole numbers, what must be printed.

#![tactic(auto)]

use std::io;
use words::Words;

fn print_score(rt: &impl Print, bits: u32) -> io::Result<()> {
    let score = score::score(float::from_bits(bits));
    println!(rt; "{bits:08x} {score}")
}

// A proved loop has to end, so it counts more ratios than any list has.
fn main(rt: HostRuntime) -> io::Result<()> {
    let mut ratios = Words::new(rt.reader());
    for _ in 0..u64::MAX {
        let Some(bits) = ratios.next_word()? else {
            break;
        };
        print_score(&rt, bits)?;
    }
    Ok(())
}
