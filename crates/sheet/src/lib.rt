// The sheet test: document 01, "Sheet".
#![tactic(auto)]

ghost use Rattle.std.specs.Prelude.{◌≡◌, true};
ghost use Rattle.text.specs.Words.{all};
ghost use Rattle.text.specs.Chars.{is_ascii};
ghost use Rattle.text.specs.Utf8.{chars};
ghost use Rattle.sheet.specs.Reader.{closed_by, headed, block};
ghost use Rattle.sheet.specs.Says.{Says, Weighs};
ghost use Rattle.sheet.specs.Forms.{led, block_form};
ghost use Rattle.sheet.specs.Weight.{judged};
ghost use Rattle.sheet.specs.Calls.{sheet_call, answer};

mod count;
mod kind;
mod line;
mod list;
mod passage;
mod reading;

pub use count::Count;
use line::line;
use list::outermost;
use reading::{Read, after_newline, strip};

// The page is not UTF-8.
#[derive(Clone, Copy, Debug, PartialEq, Eq)]
pub struct NotUtf8;

// Its number among the refusals.
impl From<NotUtf8> for u32 {
    ghost from_gives = { λ _ n. n ≡ 1 };

    fn from(_refusal: NotUtf8) -> u32 {
        1
    }
}

// A line and the tag after it, counted with the `lead` ASCII characters that its written form has before it.
fn closed_by<'a>(page: &'a [u8], tag: &[u8], lead: usize) -> Option<Read<'a, Count>>
    requires { all is_ascii tag.now ≡ true }
    ensures { Says (Weighs (led lead)) (closed_by tag.now (chars page.now)) result }
{
    let line = line(page)?;
    let rest = strip(line.rest, tag)?;
    Some(Read {
        value: Count::ascii(lead) + line.value,
        rest,
    })
}

// A heading after its `<h`.
fn heading(page: &[u8]) -> Option<Read<Count>>
    ensures { Says (Weighs block_form) (headed (chars page.now)) result }
{
    let (&digit, after) = page.split_first()?;
    if (digit < b'1') | (b'6' < digit) {
        return None;
    }
    let start = strip(after, b">")?;
    let close = [b'<', b'/', b'h', digit, b'>'];
    closed_by(start, &close, usize::from(digit - b'0').min(3) + 3)
}

// The block that the page begins with.
fn block(page: &[u8]) -> Option<Read<Count>>
    ensures { Says (Weighs block_form) (block (chars page.now)) result }
{
    if let Some(rest) = strip(page, b"<h") {
        return heading(rest);
    }
    if let Some(rest) = strip(page, b"<p>") {
        return closed_by(rest, b"</p>", 2);
    }
    let list = outermost(page)?;
    Some(Read {
        value: Count::ascii(1) + list.value,
        rest: list.rest,
    })
}

// The counts of a sheet's written form, from those of all its blocks, each with two bytes 10 before it; none where they pass a limit.
fn judged(blocks: Count) -> Option<Count>
    ensures { result ≡ judged blocks }
{
    let written = Count {
        bytes: blocks.bytes.saturating_sub(2),
        chars: blocks.chars.saturating_sub(2),
    };
    if written.bytes < 16_000 && written.chars <= 8_000 {
        Some(written)
    } else {
        None
    }
}

// Whether the page is a sheet: how many bytes and characters its written form then has.
pub fn sheet(page: &[u8]) -> Result<Option<Count>, NotUtf8>
    ensures { answer result ≡ sheet_call page.now }
{
    if !text::is_utf8(page) {
        return Err(NotUtf8);
    }
    let mut rest = after_newline(page);
    let mut count = Count::ascii(0);
    // Only a block that was read says where the next begins.
    while let Some(read) = block(rest) {
        rest = after_newline(read.rest);
        count = count + read.value;
    }
    if !rest.is_empty() {
        return Ok(None);
    }
    Ok(judged(count))
}
