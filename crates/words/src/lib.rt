// Words of 32 bits out of a reader, the low byte first: what the programs that replay a list are given.

#![tactic(auto)]

ghost use Rattle.std.specs.Prelude.{◌≡◌, ◌≤◌, ◌<◌, take, IfOk};
ghost use Rattle.std.specs.Io.KnownBytes.{Consumes, IsAtEnd};
ghost use Rattle.words.specs.Words.{Reads, long_of, next_of, word_of};

use std::io;
use std::io::Read;

// A word in which a read fails is lost as far as it was read.
#[derive(Drop)]
pub struct Words<R: Read> {
    input: R,
}

impl<R: Read> Words<R> {
    pub fn new(input: R) -> Words<R>
        ensures { result.input ≡ input }
    {
        Words { input }
    }

    // Fills the bytes as far as the input goes, and answers how far. How far each read goes the reader says, so this is no loop over places.
    fn fill(&mut self, bytes: &mut [u8; 4]) -> io::Result<usize>
        ensures fits { IfOk result (λ n. n ≤ 4) }
        ensures filled { IfOk result (λ n. Consumes (R.remaining self.old.input) (R.remaining self.new.input) (take n bytes.new)) }
        ensures ended { IfOk result (λ n. n < 4 → IsAtEnd (R.remaining self.new.input)) }
    {
        let mut at = 0;
        while at < bytes.len() {
            let n = self.input.read(&mut bytes[at..])?;
            if n == 0 {
                break;
            }
            at += n;
        }
        Ok(at)
    }

    // The next word; None where fewer than four bytes are left, which are lost then.
    pub fn next_word(&mut self) -> io::Result<Option<u32>>
        ensures { IfOk result (Reads next_of 4 (R.remaining self.old.input) (R.remaining self.new.input)) }
    {
        let mut bytes = [0; 4];
        let n = self.fill(&mut bytes)?;
        if n < bytes.len() {
            return Ok(None);
        }
        Ok(Some(u32::from_le_bytes(bytes)))
    }

    // The next word, with zeros for the bytes that the input lacks: 0 where it has ended.
    pub fn word(&mut self) -> io::Result<u32>
        ensures { IfOk result (Reads word_of 4 (R.remaining self.old.input) (R.remaining self.new.input)) }
    {
        let mut bytes = [0; 4];
        let n = self.fill(&mut bytes)?;
        // A reader may have written past what it read.
        bytes[n..].fill(0);
        Ok(u32::from_le_bytes(bytes))
    }

    // A number of two words, the low one first.
    #[tactic(auto, using(crate::proofs::Reading::long_read))]
    pub fn long(&mut self) -> io::Result<u64>
        ensures { IfOk result (Reads long_of 8 (R.remaining self.old.input) (R.remaining self.new.input)) }
    {
        let low = self.word()? as u64;
        let high = self.word()? as u64;
        Ok(high * 0x1_0000_0000 + low)
    }
}
