// Counts of a written form.
ghost use Rattle.std.specs.Prelude.{◌≡◌};
ghost use Rattle.sheet.specs.Weight.{alike, added};

use std::ops::Add;

// How many bytes and characters a written form has, each at most MOST.
#[derive(Clone, Copy, Debug, PartialEq, Eq)]
pub struct Count {
    pub bytes: usize,
    pub chars: usize,
}

// More than a sheet's written form can have of either, with what stands before its first block.
const MOST: usize = 20_000;

impl Count {
    // n ASCII characters.
    pub(crate) fn ascii(n: usize) -> Count
        ensures { result ≡ alike n }
    {
        let n = n.min(MOST);
        Count { bytes: n, chars: n }
    }
}

impl Add for Count {
    type Output = Count;

    ghost add_gives = { λ a b r. r ≡ added a b };

    fn add(self, other: Count) -> Count {
        Count {
            bytes: self.bytes.saturating_add(other.bytes).min(MOST),
            chars: self.chars.saturating_add(other.chars).min(MOST),
        }
    }
}
