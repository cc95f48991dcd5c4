// Reading lent bytes from an offset on: bytes and integers. Each reader moves the offset behind what it read, where it does not refuse.
ghost use Rattle.std.specs.Prelude.{◌≤◌, length};

use crate::blocks::Broken;

// Not the struct `Walker`, whose offset may lie anywhere: this one moves, and stays within the bytes.
#[derive(Clone, Copy)]
pub(crate) struct Cursor<'a> {
    pub bytes: &'a [u8],
    pub at: usize,
    ghost within: { at ≤ length bytes.now },
}

impl<'a> Cursor<'a> {
    ghost use Rattle.std.specs.Prelude.{◌≡◌};
    ghost use Rattle.walker.specs.Readers.{ByteIs, NumberIs};

    pub(crate) fn byte(&mut self) -> Result<u8, Broken>
        ensures { ByteIs self.old self.new result }
    {
        if self.bytes.len() <= self.at {
            return Err(Broken);
        }
        let b = self.bytes[self.at];
        self.at += 1;
        Ok(b)
    }

    // The number of N bytes, the lowest first.
    #[tactic(auto, using(std::proofs::lemmas::Bool::Decides::nat_tests), unfolding(crate::specs::Readers::integer, records::specs::Decode::part))]
    pub(crate) fn number<const N: usize>(&mut self) -> Result<usize, Broken>
        requires { N ≤ 8 }
        ensures { NumberIs N self.old self.new result }
    {
        let at = self.at;
        if self.bytes.len() - at < N {
            return Err(Broken);
        }
        let mut bytes = [0; 8];
        bytes[..N].copy_from_slice(&self.bytes[at..at + N]);
        self.at += N;
        Ok(usize::from_le_bytes(bytes))
    }
}
