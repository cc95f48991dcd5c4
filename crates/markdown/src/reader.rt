// What each line does to the reader's state. The Markdown, the two buffers and the state stay parameters: a struct of them would not be
// plainer, since each contract would have to say besides that the struct holds the same buffers afterwards.
ghost use Rattle.std.specs.Prelude.{◌+◌, ◌*◌, ◌-◌, ◌≤◌, ◌<◌, ◌≡◌, ◌&&◌, List, ℕ, eqb, length};
ghost use Rattle.text.specs.Utf8.{chars, Scalars};
ghost use Rattle.records.specs.Blocks.{Paragraph, Item};
ghost use Rattle.spans.specs.Spans.{spans};
ghost use Rattle.markdown.specs.Blocks.{added, row, heading, paragraph, read_text, read_line};
ghost use Rattle.markdown.specs.Cells.{RowMade};
ghost use Rattle.text.specs.Part.{between};
ghost use Rattle.markdown.specs.Parts.{size, text_at};
ghost use Rattle.markdown.specs.Shape.{part_text, mark, MarkerAt};
ghost use Rattle.markdown.specs.State.{Safe, Given, LineGiven, Owned, Steps, continues, grown, ends, starts_with_text};

use crate::digits::Digits;
use crate::lines::{Text, put_text, text_of};
use crate::rows::put_row;
use crate::shape::{Marker, heading, is_rule, list_marker, trimmed, trimmed_from};
use crate::writer::{OpenItem, State, continue_item, put_heading, put_item, put_paragraph};
use text::Part;

// The open paragraph becomes a block. Where none is open the state is made anew: a copy of the whole would copy the gaps between its fields, line by line.
pub(crate) fn flush<'a>(markdown: &'a [u8], work: &'a [u8], out: &mut [u8], s: State) -> State
    requires { Safe markdown.now work.now s × (s.at ≤ 300000000000) }
    ensures { Steps markdown.now work.now work.now out.old out.new s result 393221 0 ends }
{
    if s.text.is_empty() {
        return State { at: s.at, ..s };
    }
    let text = text_of(markdown, work, s.text);
    let p = put_paragraph(text, out, s);
    State {
        text: Text::lent(0, 0),
        ..p
    }
}

// An item: its digits, if it has any, and its text are parts of the line.
fn item_line<'a>(
    markdown: &'a [u8],
    work: &'a [u8],
    out: &mut [u8],
    s: State,
    line: &'a [u8],
    item: Marker,
) -> State
    requires { (Safe markdown.now work.now s × (s.at ≤ 300000000000)) × ((length line.now ≤ 65536) × MarkerAt line.now item) }
    ensures { Steps markdown.now work.now work.now out.old out.new s result 800000 0
        (added (Item item.depth (mark (part_text line.now item.digits)) (spans (chars (part_text line.now item.text))))) }
{
    let p = flush(markdown, work, out, s);
    let digits = Digits {
        bytes: item.digits.of(line),
    };
    put_item(digits, item.text.of(line), out, p, item.depth)
}

// A new paragraph of one line: a part of the Markdown itself, or a copy of the line in the work buffer.
fn open_paragraph(markdown: &[u8], work: &mut [u8], s: State, text: Text) -> State
    requires { Given markdown.now work.old s text.part.start text.part.end }
    ensures { (out : List ℕ) → Steps markdown.now work.old work.new out out s result 0 (size text)
        (starts_with_text (chars (text_at markdown.now work.old text))) }
{
    if text.copied {
        let n = markdown.len();
        put_text(markdown, work, text, n);
        return State {
            text: Text::copied(n, n + text.len()),
            ..s
        };
    }
    State { text, ..s }
}

// A line that starts with `#`: a heading, or the first line of a paragraph.
fn hash_line(markdown: &[u8], work: &mut [u8], out: &mut [u8], s: State, text: Text) -> State
    requires { Given markdown.now work.old s text.part.start text.part.end × (s.at ≤ 274877906944) }
    ensures { Steps markdown.now work.old work.new out.old out.new s result 800000 (size text)
        (heading (chars (text_at markdown.now work.old text))) }
{
    let p = flush(markdown, work, out, s);
    let line = text_of(markdown, work, text);
    let Some(title) = heading(line) else {
        return open_paragraph(markdown, work, p, text);
    };
    put_heading(title.text.of(line), out, p, title.level)
}

// The open paragraph is copied to the second part of the work buffer, where lines can join it.
fn own_paragraph(markdown: &[u8], work: &mut [u8], s: State)
    requires { Safe markdown.now work.old s }
    ensures { Owned markdown.now work.old work.new s }
{
    if s.text.copied {
        return;
    }
    put_text(markdown, work, s.text, markdown.len());
}

// A line joins the open paragraph.
fn join_paragraph(markdown: &[u8], work: &mut [u8], s: State, text: Text) -> State
    requires { Given markdown.now work.old s text.part.start text.part.end × ((s.text.part.start < s.text.part.end) × (size s.text + 1 + size text ≤ length markdown.now)) }
    ensures { (out : List ℕ) → Steps markdown.now work.old work.new out out s result 0 (size s.text + 1 + size text)
        (paragraph (chars (text_at markdown.now work.old text))) }
{
    let n = markdown.len();
    let end = n + s.text.len();
    own_paragraph(markdown, work, s);
    records::writer::put(work, end, b' ');
    put_text(markdown, work, text, end + 1);
    State {
        text: Text::copied(n, end + 1 + text.len()),
        ..s
    }
}

// A line of the open paragraph, or of a new one.
fn add_text(markdown: &[u8], work: &mut [u8], s: State, text: Text) -> State
    requires { Given markdown.now work.old s text.part.start text.part.end × (grown s + size text ≤ length markdown.now) }
    ensures { (out : List ℕ) → Steps markdown.now work.old work.new out out s result 0 (grown s + size text)
        (paragraph (chars (text_at markdown.now work.old text))) }
{
    if s.text.is_empty() {
        return open_paragraph(markdown, work, s, text);
    }
    join_paragraph(markdown, work, s, text)
}

// The row of a table, made in the third part of the work buffer: where it starts and ends there.
fn make_row(markdown: &[u8], work: &mut [u8], text: Text) -> Part
    requires { ((text.part.start ≤ text.part.end) × (text.part.end ≤ length markdown.now)) × ((6 * length markdown.now ≤ length work.old)
        × Scalars (chars (text_at markdown.now work.old text))) }
    ensures { RowMade markdown.now work.old work.new text result }
{
    let n = markdown.len();
    put_text(markdown, work, text, n);
    let start = n + n;
    let whole = Part {
        start: n,
        end: n + text.len(),
    };
    let end = put_row(work, whole, start);
    trimmed(work, Part { start, end })
}

// A row of a table.
fn row_line(markdown: &[u8], work: &mut [u8], out: &mut [u8], s: State, text: Text) -> State
    requires { Given markdown.now work.old s text.part.start text.part.end × Scalars (chars (text_at markdown.now work.old text)) }
    ensures { Steps markdown.now work.old work.new out.old out.new s result 2000000 0
        (added (Paragraph (spans (row (chars (text_at markdown.now work.old text)))))) }
{
    let p = flush(markdown, work, out, s);
    let row = make_row(markdown, work, text);
    put_paragraph(row.of(work), out, p)
}

// The last item, if a line continues it: an indented one, where no paragraph is open.
fn continued(s: State, indented: bool) -> Option<OpenItem>
    ensures { result ≡ continues s indented }
{
    if indented & s.text.is_empty() {
        return s.item;
    }
    None
}

// A line that neither starts with `#` nor has a list marker.
fn text_line(
    markdown: &[u8],
    work: &mut [u8],
    out: &mut [u8],
    s: State,
    text: Text,
    indented: bool,
) -> State
    requires { Given markdown.now work.old s text.part.start text.part.end × ((text.part.start < text.part.end) × ((grown s + size text ≤ length markdown.now)
        × Scalars (chars (text_at markdown.now work.old text)))) }
    ensures { Steps markdown.now work.old work.new out.old out.new s result 2000000 (grown s + size text)
        (λ q. read_text q indented (chars (text_at markdown.now work.old text))) }
{
    let line = text_of(markdown, work, text);
    if is_rule(line) {
        return flush(markdown, work, out, s);
    }
    if line[0] == b'|' {
        return row_line(markdown, work, out, s, text);
    }
    let Some(item) = continued(s, indented) else {
        return add_text(markdown, work, s, text);
    };
    continue_item(line, out, s, item)
}

// A line is read.
pub(crate) fn read_line(md: &[u8], work: &mut [u8], out: &mut [u8], s: State, line: Text) -> State
    requires { LineGiven md.now work.old s line }
    ensures { Steps md.now work.old work.new out.old out.new s result 2000000 (grown s + size line)
        (λ q. read_line q (chars (text_at md.now work.old line))) }
{
    let text = text_of(md, work, line);
    let words = trimmed_from(text, 0);
    let a = words.start;
    if a == words.end {
        return flush(md, work, out, s);
    }
    let start = line.part.start;
    let trimmed = Text {
        copied: line.copied,
        part: Part {
            start: start + a,
            end: start + words.end,
        },
    };
    if text[a] == b'#' {
        return hash_line(md, work, out, s, trimmed);
    }
    let Some(item) = list_marker(text, a) else {
        let indented = text[0] == b' ';
        return text_line(md, work, out, s, trimmed, indented);
    };
    item_line(md, work, out, s, text, item)
}
