// The block reader: Markdown to block records.
#![tactic(auto)]

ghost use Rattle.std.specs.Prelude.{◌*◌, ◌≤◌, ◌≡◌, true, length};
ghost use Rattle.std.proofs.lemmas.List.Edits.{sets};
ghost use Rattle.text.specs.Utf8.{chars, is_utf8};
ghost use Rattle.text.specs.Outcome.{number, returned, result_after, work_kept};
ghost use Rattle.records.specs.Format.{encode_blocks};
ghost use Rattle.markdown.specs.Blocks.{blocks};
ghost use Rattle.markdown.specs.Calls.{blocks_call};
ghost use Rattle.markdown.specs.Answers.{error_number, answer_number, answer_length};

mod classes;
mod digits;
mod lines;
mod reader;
mod rows;
mod shape;
mod writer;

use crate::lines::next_line;
use crate::reader::{flush, read_line};
use crate::writer::State;

// Why `blocks` has no records to give: the Markdown is no UTF-8, or too long; the work buffer is too small, or the result.
// An enum beside the error of `html`: each call refuses for reasons of its own, and one type for both would have cases that a call never answers.
#[derive(Clone, Copy, PartialEq, Eq, Debug)]
pub enum BlocksError {
    NotUtf8,
    SmallWork,
    TooLong,
    SmallResult,
}

// The number of a refusal, for C. A table here, and none shared with `html`: a result that is too small is 3 there and 6 here.
impl From<BlocksError> for u32 {
    ghost from_gives = { λ e n. n ≡ error_number e };

    fn from(error: BlocksError) -> u32 {
        match error {
            BlocksError::NotUtf8 => 1,
            BlocksError::SmallWork => 2,
            BlocksError::TooLong => 5,
            BlocksError::SmallResult => 6,
        }
    }
}

// Stores the records of the Markdown's blocks as far as there is room, and answers how long they are.
fn read(markdown: &[u8], work: &mut [u8], out: &mut [u8]) -> usize
    requires { (length markdown.now ≤ 65536) × ((is_utf8 markdown.now ≡ true) × (6 * length markdown.now ≤ length work.old)) }
    ensures { (result ≡ length (encode_blocks (blocks (chars markdown.now))))
        × (out.new ≡ sets out.old 0 (encode_blocks (blocks (chars markdown.now)))) }
{
    let mut s = State::new();
    let mut i = 0;
    // No iterator over the lines: each is lent the work buffer, which what is made of it writes too.
    while i < markdown.len() {
        if (markdown[i] == b'\n') & s.text.is_empty() {
            i += 1;
            continue;
        }
        let line = next_line(markdown, i, work);
        s = read_line(markdown, work, out, s, line.text);
        i = line.next;
    }
    let end = flush(markdown, work, out, s);
    end.at
}

// The Markdown's blocks as records, in the front of the result.
pub fn blocks(markdown: &[u8], work: &mut [u8], res: &mut [u8]) -> Result<usize, BlocksError>
    ensures { (answer_number result ≡ number (blocks_call markdown.now (length work.old) (length res.old)))
        × ((answer_length result ≡ returned (blocks_call markdown.now (length work.old) (length res.old)))
        × ((res.new ≡ result_after (blocks_call markdown.now (length work.old) (length res.old)) res.old)
        × (work_kept (blocks_call markdown.now (length work.old) (length res.old)) work.new
        ≡ work_kept (blocks_call markdown.now (length work.old) (length res.old)) work.old))) }
{
    let n = markdown.len();
    if 65536 < n {
        return Err(BlocksError::TooLong);
    }
    if !text::is_utf8(markdown) {
        return Err(BlocksError::NotUtf8);
    }
    if work.len() < 6 * n {
        return Err(BlocksError::SmallWork);
    }
    let end = read(markdown, work, res);
    if res.len() < end {
        records::writer::clear(res);
        return Err(BlocksError::SmallResult);
    }
    Ok(end)
}
