// The records of blocks, stored where the reader stands. Each writer takes the whole result and an offset, and not what is left of it: an
// offset may lie past its end, and the head of a block is stored after its spans. `s.at ≤ 412316860416` and `length text.now ≤ 1048576` in
// the contracts say only that the sums fit, and are no invariant of `State`: the bound on the offset grows from step to step.
ghost use Rattle.std.specs.Prelude.{ℕ, ◌+◌, ◌≤◌, ◌<◌, ◌≡◌, true, List, ◌∷◌, length};
ghost use Rattle.std.proofs.lemmas.List.Edits.{sets};
ghost use Rattle.text.specs.Utf8.{chars, size, encode};
ghost use Rattle.records.specs.Blocks.{Heading, Paragraph, Item, item};
ghost use Rattle.records.specs.Format.{kind_bits, encode_block, encode_kind};
ghost use Rattle.spans.specs.Spans.{spans};
ghost use Rattle.markdown.specs.Shape.{mark};
ghost use Rattle.markdown.specs.State.{fresh, SafeItem, SpansPut, plain_after, item_after, span_start, continued_after, space_bytes, continued_out};

use crate::digits::Digits;
use crate::lines::Text;
use spans::Written;

// The last block, an item, which lines may continue: where its record starts, its map byte, where its span count goes, and how many spans it has.
// The map byte is a wide number: behind a byte stands a gap, which is copied with the state, line by line, and short lines take up to twice as long.
#[derive(Clone, Copy)]
pub struct OpenItem {
    pub head: usize,
    pub map: usize,
    pub fields: usize,
    pub count: usize,
}

// Where the records end; the last block, if it is an item; and the text of the paragraph that is open, empty where none is open.
// The text is no `Option`: an open paragraph is never empty, so that an empty one in it would be a second way to say that none is open.
#[derive(Clone, Copy)]
pub struct State {
    pub at: usize,
    pub item: Option<OpenItem>,
    pub text: Text,
}

impl State {
    // No block, and no paragraph.
    pub(crate) fn new() -> Self
        ensures { result ≡ fresh }
    {
        Self {
            at: 0,
            item: None,
            text: Text::lent(0, 0),
        }
    }
}

// The spans of a text behind the fields of a block, with their count, and the block's map byte.
fn put_spans(text: &[u8], out: &mut [u8], head: usize, map: u8, fields: usize) -> Written
    requires { (head < fields) × ((fields ≤ 549755813888) × ((length text.now ≤ 1048576) × (map ≤ 6))) }
    ensures { SpansPut text.now out.old out.new head map fields result }
{
    let w = spans::spans(text, out, fields + 4);
    if w.count == 0 {
        records::writer::put(out, head, map);
        return Written {
            next: fields,
            count: 0,
        };
    }
    records::writer::put_number::<4>(out, fields, w.count);
    records::writer::put(out, head, map + 8);
    w
}

pub(crate) fn put_heading(text: &[u8], out: &mut [u8], s: State, level: usize) -> State
    requires { (s.at ≤ 412316860416) × ((length text.now ≤ 1048576) × (level ≤ 3)) }
    ensures { (result ≡ plain_after s (Heading level (spans (chars text.now))))
        × (out.new ≡ sets out.old s.at (encode_block (Heading level (spans (chars text.now))))) }
{
    records::writer::put(out, s.at + 1, level as u8);
    let w = put_spans(text, out, s.at, 1, s.at + 2);
    State {
        at: w.next,
        item: None,
        ..s
    }
}

pub(crate) fn put_paragraph(text: &[u8], out: &mut [u8], s: State) -> State
    requires { (s.at ≤ 412316860416) × (length text.now ≤ 1048576) }
    ensures { (result ≡ plain_after s (Paragraph (spans (chars text.now))))
        × (out.new ≡ sets out.old s.at (encode_block (Paragraph (spans (chars text.now))))) }
{
    let w = put_spans(text, out, s.at, 0, s.at + 1);
    State {
        at: w.next,
        item: None,
        ..s
    }
}

// A list marker: its length and its bytes. Without digits it is the bullet. Answers where it ends.
fn put_marker(digits: Digits, out: &mut [u8], at: usize) -> usize
    requires { at ≤ 549755813888 }
    ensures { (result ≡ at + length (size (mark digits.entry.bytes.now) ∷ encode (mark digits.entry.bytes.now)))
        × (out.new ≡ sets out.old at (size (mark digits.entry.bytes.now) ∷ encode (mark digits.entry.bytes.now))) }
{
    let n = digits.bytes.len();
    if n == 0 {
        records::writer::put_bytes(out, at, b"\x03\xE2\x80\xA2");
        return at + 4;
    }
    records::writer::put(out, at, (n + 1) as u8);
    records::writer::put_bytes(out, at + 1, digits.bytes);
    records::writer::put(out, at + 1 + n, b'.');
    at + 2 + n
}

// The fields of an item: its depth, unless it is 0, and its marker. Answers where they end.
fn put_fields(digits: Digits, out: &mut [u8], at: usize, depth: usize) -> usize
    requires { at ≤ 500000000000 }
    ensures { (result ≡ at + length (encode_kind (item depth (mark digits.entry.bytes.now))))
        × (out.new ≡ sets out.old at (encode_kind (item depth (mark digits.entry.bytes.now)))) }
{
    if depth == 0 {
        return put_marker(digits, out, at);
    }
    records::writer::put_number::<2>(out, at, depth);
    put_marker(digits, out, at + 2)
}

// An item's map byte without the bit of its span count.
fn item_map(depth: usize) -> u8
    ensures { (marker : List ℕ) → result ≡ kind_bits (item depth marker) }
{
    if depth == 0 {
        return 4;
    }
    6
}

pub(crate) fn put_item(digits: Digits, text: &[u8], out: &mut [u8], s: State, depth: usize) -> State
    requires { (s.at ≤ 412316860416) × (length text.now ≤ 1048576) }
    ensures { (result ≡ item_after s depth (mark digits.entry.bytes.now) (spans (chars text.now)))
        × (out.new ≡ sets out.old s.at (encode_block (Item depth (mark digits.entry.bytes.now) (spans (chars text.now))))) }
{
    let at = s.at;
    let fields = put_fields(digits, out, at + 1, depth);
    let map = item_map(depth);
    let w = put_spans(text, out, at, map, fields);
    State {
        at: w.next,
        item: Some(OpenItem {
            head: at,
            map: usize::from(map),
            fields,
            count: w.count,
        }),
        ..s
    }
}

// Where the next span of the last item goes, where the records end at `at`.
fn next_span(at: usize, item: OpenItem) -> usize
    requires { item.fields ≤ 549755813888 }
    ensures { result ≡ span_start at item }
{
    if item.count == 0 {
        return item.fields + 4;
    }
    at
}

// A span of one space.
fn put_space(out: &mut [u8], at: usize)
    ensures { out.new ≡ sets out.old at space_bytes }
{
    records::writer::put_bytes(out, at, b"\x08\x01\x00\x00\x00 ");
}

// The last item goes on: a span of one space, and those of a text; its span count and map byte are stored anew.
pub(crate) fn continue_item(text: &[u8], out: &mut [u8], s: State, item: OpenItem) -> State
    requires { (s.at ≤ 412316860416) × ((length text.now ≤ 1048576) × SafeItem item s.at) }
    ensures { (result ≡ continued_after s item (spans (chars text.now)))
        × (out.new ≡ continued_out s item (spans (chars text.now)) out.old) }
{
    let start = next_span(s.at, item);
    put_space(out, start);
    let w = spans::spans(text, out, start + 6);
    let count = item.count + 1 + w.count;
    records::writer::put_number::<4>(out, item.fields, count);
    records::writer::put(out, item.head, (item.map + 8) as u8);
    State {
        at: w.next,
        item: Some(OpenItem { count, ..item }),
        ..s
    }
}
