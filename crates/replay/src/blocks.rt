// The block reader: the answers are the records of what the Rust's `blocks` reads, made by `tools/replay-data NOTES_RS`. No one function with that of
// pages.rt: the call and the buffers' sizes differ, and what they share is `Case::is`.
use crate::case::Case;

// The buffers are enough for the stored texts: the larger they are, the longer the proof takes.
pub(crate) fn agrees(case: Case) -> bool {
    let mut work = [0u8; 6144];
    let mut result = [0u8; 6144];
    let answer = markdown::blocks(case.input, &mut work, &mut result);
    case.is(answer, &result)
}
