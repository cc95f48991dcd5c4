// Reading a block from a cursor's offset on. The readers of spans and of their texts are inlined: a call costs more than to read a span
// without text, and keeps the cursor in memory.
ghost use Rattle.std.specs.Prelude.{◌≡◌, ◌≤◌, length};
ghost use Rattle.records.specs.Decode.{text_at, span_at, spans_at, level_at, marker_at, item_at, kind_at, count_at};
ghost use Rattle.walker.specs.Readers.{left, TextIs, SpanIs, span_with, EndIs, FieldsIs, CountIs, BlockIs};

use crate::blocks::{Block, Broken, Emphasis, Kind, Span};
use crate::cursor::Cursor;
use crate::markers::is_marker;
use text::Part;

// Where a text stands that is not there: an empty part, as the public calls promise it and C is given it.
pub(crate) const NOWHERE: Part = Part { start: 0, end: 0 };

// The span whose map byte is m, with its text's place. The next span starts where the text ends.
fn span_of(m: u8, text: Part) -> Span
    ensures { result ≡ span_with m text }
{
    let emphasis = Emphasis {
        bold: m % 2 == 1,
        italic: m / 2 % 2 == 1,
        code: m / 4 % 2 == 1,
    };
    Span {
        emphasis,
        text,
        next: text.end,
    }
}

// A block's kind, and where its marker stands, which is an item's last field.
#[derive(Clone, Copy)]
pub(crate) struct Fields {
    pub kind: Kind,
    pub marker: Part,
}

impl<'a> Cursor<'a> {
    // A span's text, which is not empty: its length and its bytes.
    #[tactic(auto, using(std::proofs::lemmas::Bool::Decides::nat_tests, crate::proofs::Integers::u32_is, crate::proofs::Spans::part_at), unfolding(records::specs::Decode::text_at))]
    #[inline(always)]
    fn text(&mut self) -> Result<Part, Broken>
        ensures { TextIs (text_at (left self.old)) self.old.bytes self.new result }
    {
        let size = self.number::<4>()?;
        if size < 1 {
            return Err(Broken);
        }
        let start = self.at;
        if self.bytes.len() - start < size {
            return Err(Broken);
        }
        let end = start + size;
        if !text::is_utf8(&self.bytes[start..end]) {
            return Err(Broken);
        }
        self.at = end;
        Ok(Part { start, end })
    }

    #[tactic(auto, using(std::proofs::lemmas::Bool::Decides::nat_tests, text::proofs::Laws::chars_nil), unfolding(records::specs::Decode::span_at))]
    #[inline(always)]
    pub(crate) fn span(&mut self) -> Result<Span, Broken>
        ensures { SpanIs (span_at (left self.old)) self.old.bytes self.new result }
    {
        let m = self.byte()?;
        if !(4..16).contains(&m) {
            return Err(Broken);
        }
        if m < 8 {
            let none = Part {
                start: self.at,
                end: self.at,
            };
            return Ok(span_of(m, none));
        }
        let text = self.text()?;
        Ok(span_of(m, text))
    }

    // Past n spans.
    #[tactic(auto, using(crate::proofs::Spans::spans_bad, crate::proofs::Spans::spans_next, crate::proofs::Spans::spans_none))]
    #[inline(always)]
    pub(crate) fn spans(&mut self, n: usize) -> Result<(), Broken>
        ensures { EndIs (spans_at n (left self.old)) self.old.bytes self.new result }
    {
        for _i in 0..n {
            let _span = self.span()?;
        }
        Ok(())
    }

    #[tactic(auto, using(std::proofs::lemmas::Bool::Decides::nat_tests), unfolding(records::specs::Decode::level_at, records::specs::Decode::only))]
    fn level(&mut self) -> Result<Fields, Broken>
        ensures { FieldsIs (level_at (left self.old)) self.old.bytes self.new result }
    {
        let level = usize::from(self.byte()?);
        if !(1..=3).contains(&level) {
            return Err(Broken);
        }
        Ok(Fields {
            kind: Kind::Heading { level },
            marker: NOWHERE,
        })
    }

    // The marker of an item.
    #[tactic(auto, using(std::proofs::lemmas::Bool::Decides::nat_tests), unfolding(records::specs::Decode::marker_at, records::specs::Decode::part))]
    fn marker(&mut self, depth: usize) -> Result<Fields, Broken>
        ensures { FieldsIs (marker_at depth (left self.old)) self.old.bytes self.new result }
    {
        let size = usize::from(self.byte()?);
        let start = self.at;
        if self.bytes.len() - start < size {
            return Err(Broken);
        }
        let end = start + size;
        if !is_marker(&self.bytes[start..end]) {
            return Err(Broken);
        }
        self.at = end;
        Ok(Fields {
            kind: Kind::Item { depth },
            marker: Part { start, end },
        })
    }

    // An item whose depth is not 0.
    #[tactic(auto, using(std::proofs::lemmas::Bool::Decides::nat_tests, crate::proofs::Integers::u16_is), unfolding(records::specs::Decode::item_at))]
    fn item(&mut self) -> Result<Fields, Broken>
        ensures { FieldsIs (item_at (left self.old)) self.old.bytes self.new result }
    {
        let depth = self.number::<2>()?;
        if depth < 1 {
            return Err(Broken);
        }
        self.marker(depth)
    }

    // The fields of the map's bits 0 to 2. A match and no table: each kind reads fields of its own.
    #[tactic(auto, using(std::proofs::lemmas::Bool::Decides::nat_tests), unfolding(records::specs::Decode::kind_at))]
    fn kind(&mut self, bits: u8) -> Result<Fields, Broken>
        ensures { FieldsIs (kind_at bits (left self.old)) self.old.bytes self.new result }
    {
        match bits {
            0 => Ok(Fields {
                kind: Kind::Paragraph,
                marker: NOWHERE,
            }),
            1 => self.level(),
            4 => self.marker(0),
            6 => self.item(),
            _ => Err(Broken),
        }
    }

    // The span count, where the map's bit 3 says that there is one.
    #[tactic(auto, using(std::proofs::lemmas::Bool::Decides::nat_tests, crate::proofs::Integers::u32_is), unfolding(records::specs::Decode::count_at))]
    fn count(&mut self, counted: bool) -> Result<usize, Broken>
        ensures { CountIs (count_at counted (left self.old)) self.old.bytes self.new result }
    {
        if !counted {
            return Ok(0);
        }
        let count = self.number::<4>()?;
        if count < 1 {
            return Err(Broken);
        }
        Ok(count)
    }
}

// A block, and where its marker and its first span stand.
#[derive(Clone, Copy)]
pub(crate) struct Whole {
    pub block: Block,
    pub marker: Part,
    pub first: usize,
}

// The block at an offset, or that the records end there. One test before a byte is read: with two in a row items take 1.4 per cent more instructions.
#[tactic(auto, using(std::proofs::lemmas::Bool::Decides::nat_tests, crate::proofs::Spans::rest_failed), unfolding(records::specs::Decode::block_at, records::specs::Decode::head_at))]
pub(crate) fn block_read(bytes: &[u8], at: usize) -> Result<Option<Whole>, Broken>
    ensures { BlockIs bytes.now at result }
{
    if bytes.len() <= at {
        return if at == bytes.len() {
            Ok(None)
        } else {
            Err(Broken)
        };
    }
    let mut cursor = Cursor { bytes, at };
    let m = cursor.byte()?;
    if 16 <= m {
        return Err(Broken);
    }
    let fields = cursor.kind(m % 8)?;
    let count = cursor.count(8 <= m)?;
    let first = cursor.at;
    cursor.spans(count)?;
    let block = Block {
        kind: fields.kind,
        count,
        next: cursor.at,
    };
    Ok(Some(Whole {
        block,
        marker: fields.marker,
        first,
    }))
}
