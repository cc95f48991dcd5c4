// The walker: what stands at an offset of lent records (crate `records`). Numbers and texts come from separate calls; a text is a part
// of the records, and empty where there is none. Each call takes the records and an offset, as C's calls do; `Walker` is the struct of
// both. `blocks` has what is found, `reader` reads one block, by `cursor` its bytes and integers, and `markers` tests a marker.
#![tactic(auto)]

ghost use Rattle.std.specs.Prelude.{◌≡◌};
ghost use Rattle.text.specs.Utf8.{encode};
ghost use Rattle.walker.specs.Answers.{block_answer, marker_answer, span_answer, text_answer};
ghost use Rattle.walker.specs.Numbers.{block_values, span_values, first_values, here_values};
ghost use Rattle.walker.specs.Places.{marker_place, text_place, marker_part, text_part, first_answer, here_answer};
ghost use Rattle.walker.specs.Decoded.{blocks_from, is_whole};
ghost use Rattle.walker.specs.Readers.{NthIs};

mod blocks;
mod cursor;
mod markers;
mod reader;

use crate::cursor::Cursor;
use crate::reader::{NOWHERE, block_read};
pub use blocks::{Block, Broken, Emphasis, Kind, Span};
use text::Part;

// The block at an offset; none at the end of the records.
#[tactic(auto, using(crate::proofs::WalkerLaws::block_is))]
pub fn block_at(records: &[u8], at: usize) -> Result<Option<Block>, Broken>
    ensures { block_values result ≡ block_answer records.now at }
{
    Ok(block_read(records, at)?.map(|whole| whole.block))
}

// Whether well-formed blocks, and nothing else, stand from an offset on up to the end of the records. No `while let`: the end and a refusal leave the
// loop with different answers.
pub fn is_whole(records: &[u8], from: usize) -> bool
    ensures { result ≡ is_whole (blocks_from records.now from) }
{
    let mut at = from;
    loop {
        match block_at(records, at) {
            Ok(Some(block)) => at = block.next,
            Ok(None) => return true,
            Err(Broken) => return false,
        }
    }
}

// Where the marker of the item at an offset stands; empty where there is none.
#[tactic(auto, using(crate::proofs::WalkerLaws::marker_is))]
pub fn marker_range(records: &[u8], at: usize) -> Part
    ensures { result ≡ marker_place records.now at }
{
    let Ok(Some(whole)) = block_read(records, at) else {
        return NOWHERE;
    };
    whole.marker
}

// The marker of the item at an offset, the part of the records that stands at its range; empty where there is none.
#[tactic(auto, using(crate::proofs::PlaceLaws::marker_inside, crate::proofs::PlaceLaws::marker_bytes))]
pub fn marker_at(records: &[u8], at: usize) -> &[u8]
    ensures { (result.now ≡ encode (marker_answer records.now at)) × (result ≡ marker_part records.entry at) }
{
    marker_range(records, at).of(records)
}

// A span of a block; none from the block's span count on, and at the end of the records. Inlined: of an answer in memory the three flags would be
// read back together before each is stored, and a span of a short block takes a third longer.
#[inline(always)]
fn nth_at(s: &[u8], at: usize, n: usize) -> Result<Option<Span>, Broken>
    ensures { NthIs s.now at n result }
{
    let Some(whole) = block_read(s, at)? else {
        return Ok(None);
    };
    if whole.block.count <= n {
        return Ok(None);
    }
    let mut cursor = Cursor {
        bytes: s,
        at: whole.first,
    };
    cursor.spans(n)?;
    Ok(Some(cursor.span()?))
}

// The emphasis of a span; none where there is no such span.
#[tactic(auto, using(crate::proofs::WalkerLaws::span_is))]
pub fn span_at(records: &[u8], at: usize, n: usize) -> Result<Option<Emphasis>, Broken>
    ensures { span_values result ≡ span_answer records.now at n }
{
    Ok(nth_at(records, at, n)?.map(|span| span.emphasis))
}

// Where the text of a span stands; empty where there is none.
pub fn text_range(records: &[u8], at: usize, n: usize) -> Part
    ensures { result ≡ text_place records.now at n }
{
    let Ok(Some(span)) = nth_at(records, at, n) else {
        return NOWHERE;
    };
    span.text
}

// The text of a span, the part of the records that stands at its range; empty where there is none.
#[tactic(auto, using(crate::proofs::PlaceLaws::text_inside, crate::proofs::PlaceLaws::text_bytes))]
pub fn text_at(records: &[u8], at: usize, n: usize) -> &[u8]
    ensures { (result.now ≡ encode (text_answer records.now at n)) × (result ≡ text_part records.entry at n) }
{
    text_range(records, at, n).of(records)
}

// The calls above test the whole block each time. Whoever wants all its spans asks once where the first one stands, and then for each
// span by its own offset, which the span before it gives: that takes time in proportion to the block.

// Where the first span of a block stands, or the block's end where it has none; none at the end of the records.
#[tactic(auto, using(crate::proofs::WalkerLaws::first_is))]
pub fn first_at(records: &[u8], at: usize) -> Result<Option<usize>, Broken>
    ensures { first_values result ≡ first_answer records.now at }
{
    Ok(block_read(records, at)?.map(|whole| whole.first))
}

// A span by its own offset.
pub fn here_at(records: &[u8], at: usize) -> Result<Span, Broken>
    ensures { here_values result ≡ here_answer records.now at }
{
    if records.len() < at {
        return Err(Broken);
    }
    let mut cursor = Cursor { bytes: records, at };
    cursor.span()
}

// The walker: the lent records and an offset. Its functions take it apart and call those above.
#[derive(Clone, Copy)]
pub struct Walker<'a> {
    pub records: &'a [u8],
    pub at: usize,
}

impl<'a> Walker<'a> {
    // At an offset; 0 is that of the first block.
    pub fn new(records: &'a [u8], at: usize) -> Walker<'a>
        ensures { (result.records ≡ records.entry) × (result.at ≡ at) }
    {
        Walker { records, at }
    }

    // The block at the offset.
    pub fn block(self) -> Result<Option<Block>, Broken>
        ensures { block_values result ≡ block_answer self.entry.records.now self.entry.at }
    {
        block_at(self.records, self.at)
    }

    // The marker of the item there, a part of the records.
    pub fn marker(self) -> &'a [u8]
        ensures { (result.now ≡ encode (marker_answer self.entry.records.now self.entry.at)) × (result ≡ marker_part self.entry.records self.entry.at) }
    {
        marker_at(self.records, self.at)
    }

    // The text of a span there, a part of the records.
    pub fn text(self, n: usize) -> &'a [u8]
        ensures { (result.now ≡ encode (text_answer self.entry.records.now self.entry.at n)) × (result ≡ text_part self.entry.records self.entry.at n) }
    {
        text_at(self.records, self.at, n)
    }
}

// The block at an offset, through the struct: a caller needs the records and a number alone.
pub fn walk(records: &[u8], offset: usize) -> Result<Option<Block>, Broken>
    ensures { block_values result ≡ block_answer records.now offset }
{
    Walker::new(records, offset).block()
}
