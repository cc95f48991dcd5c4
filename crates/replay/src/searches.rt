// Searches for codes: the input is how many codes there are in one byte, the length of each in one byte, how many bytes the codes have in two, the codes
// and the records; the answer is how many blocks were visited and each code's block in four bytes, FFFFFFFF where it has none. `compare/run NOTES_RS
// cases` made them.
use crate::case::{Case, word};
use codes::Found;

// What stands for a code that no block contains.
const NONE: u32 = u32::MAX;

// Whether the stored words are the number of blocks visited and the blocks of n codes.
fn holds(stored: &[u8], found: &Found, n: usize) -> bool {
    let size = n.saturating_mul(4).saturating_add(4);
    let mut same = (stored.len() == size) & (word(stored) as usize == found.visited);
    let mut rest = text::past(stored, 4);
    for block in found.blocks.iter().take(n) {
        same &= word(rest) as usize == block.unwrap_or(NONE as usize);
        rest = text::past(rest, 4);
    }
    same
}

pub(crate) fn agrees(case: Case) -> bool {
    let (count, rest) = case.input.split_first().unwrap_or((&0, &[]));
    let n = usize::from(*count).min(17);
    let mut lengths = [0; 17];
    for (length, byte) in lengths.iter_mut().zip(text::front(rest, n)) {
        *length = usize::from(*byte);
    }
    let behind = text::past(rest, n);
    let size = word(text::front(behind, 2)) as usize;
    let bytes = text::past(behind, 2);
    let records = text::past(bytes, size);
    match codes::find_codes(records, text::front(bytes, size), &lengths[..n]) {
        Ok(found) => case.answer.is_ok_and(|stored| holds(stored, &found, n)),
        Err(error) => case.answer == Err(error.into()),
    }
}
