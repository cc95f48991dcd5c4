// Runs of ASCII.
ghost use Rattle.std.specs.Prelude.{◌+◌, ◌<◌, ◌≤◌, ◌≡◌, true, length, get_or, take, drop};
ghost use Rattle.text.specs.Words.{all};
ghost use Rattle.text.specs.Chars.{is_ascii};
ghost use Rattle.text.specs.Run.{RunTo};

use crate::runs::{Ascii, is_block, past_blocks};

// Where the blocks of 32 ASCII bytes from i on end, and the words of 8 behind them.
pub(crate) fn ascii_blocks(s: &[u8], i: usize) -> usize
    requires { i ≤ length s.now }
    ensures { RunTo is_ascii s.now i result }
{
    let end = past_blocks::<32, Ascii>(s, i, Ascii);
    past_blocks::<8, Ascii>(s, end, Ascii)
}

// How many ASCII bytes are passed over at once from i on, where one stands, and no more than `most`: a word of 8, or 1.
pub(crate) fn ascii_step(s: &[u8], i: usize, most: usize) -> usize
    requires { (get_or s.now i 0 < 0x80) × ((0 < most) × (i + most ≤ length s.now)) }
    ensures { (all is_ascii (take result (drop i s.now)) ≡ true) × ((0 < result) × (result ≤ most)) }
{
    if (i % 8 == 0) & (8 <= most) {
        if is_block::<8, Ascii>(s, i, Ascii) {
            return 8;
        }
    }
    1
}
