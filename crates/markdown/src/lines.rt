// Lines of the Markdown, once its comments are removed.
ghost use Rattle.std.specs.Prelude.{◌+◌, ◌-◌, ◌<◌, ◌≤◌, ◌≡◌, eqb, length, take, drop};
ghost use Rattle.std.proofs.lemmas.List.Edits.{sets};
ghost use Rattle.text.specs.Words.{starts_with};
ghost use Rattle.text.specs.Part.{Inside};
ghost use Rattle.markdown.specs.Parts.{source, lent, copied, size, text_at, CommentedIs, LineIs};

use crate::classes::Quiet;
use text::{Part, past_blocks};

// Where a text stands: a part of the Markdown, or of the work buffer. No enum of the two: each would hold the same part, and most of what is
// asked of a text is asked of its part. Nor is `copied` an enum of the two sources: each function that asks it asks whether the bytes were
// copied, by one `if`, and a match would have two arms there and a name more for the same two answers.
#[derive(Clone, Copy)]
pub struct Text {
    pub copied: bool,
    pub part: Part,
}

// A line: its text, which is in the work buffer where a comment was removed from it; and where the next line starts.
#[derive(Clone, Copy)]
pub struct Line {
    pub text: Text,
    pub next: usize,
}

// `lent` and `copied` take two offsets and no `Part`: their callers have the offsets in hand, and would make the part only to give it away.
impl Text {
    // A part of the Markdown.
    pub(crate) fn lent(start: usize, end: usize) -> Self
        ensures { result ≡ lent start end }
    {
        Self {
            copied: false,
            part: Part { start, end },
        }
    }

    // A part of the work buffer.
    pub(crate) fn copied(start: usize, end: usize) -> Self
        ensures { result ≡ copied start end }
    {
        Self {
            copied: true,
            part: Part { start, end },
        }
    }

    pub(crate) fn len(self) -> usize
        requires { self.part.start ≤ self.part.end }
        ensures { result ≡ size self }
    {
        self.part.end - self.part.start
    }

    pub(crate) fn is_empty(self) -> bool
        ensures { result ≡ eqb self.part.start self.part.end }
    {
        self.part.start == self.part.end
    }
}

// A part of one of two lent slices.
pub(crate) fn text_of<'a>(markdown: &'a [u8], work: &'a [u8], text: Text) -> &'a [u8]
    requires { Inside (source text.copied markdown.now work.now) text.part.start text.part.end }
    ensures { result.now ≡ text_at markdown.now work.now text }
{
    let Part { start, end } = text.part;
    if text.copied {
        return &work[start..end];
    }
    &markdown[start..end]
}

// Whether `mark` stands at j.
pub(crate) fn stands_at(s: &[u8], j: usize, mark: &[u8]) -> bool
    requires { 0 < length mark.now }
    ensures { result ≡ starts_with mark.now (drop j s.now) }
{
    j < s.len() && s[j] == mark[0] && text::starts_with(s, j, mark)
}

// The rest of a line from `start` on, after the `have` bytes of it that are in the work buffer: a comment stands in the line.
fn commented(markdown: &[u8], start: usize, have: usize, work: &mut [u8]) -> Line
    requires { (start ≤ length markdown.now) × ((have ≤ start) × (length markdown.now ≤ length work.old)) }
    ensures { CommentedIs markdown.now start have work.old work.new result }
{
    let mut j = start;
    let mut k = have;
    // No iterator: a comment is passed in one step, and what is stored stays behind what is read.
    while j < markdown.len() {
        let b = markdown[j];
        if b == b'\n' {
            return Line {
                text: Text::copied(0, k),
                next: j + 1,
            };
        }
        if stands_at(markdown, j, b"<!--") {
            j = text::comment_end(markdown, j);
            continue;
        }
        work[k] = b;
        k += 1;
        j += 1;
    }
    Line {
        text: Text::copied(0, k),
        next: j + 1,
    }
}

// The line that starts at i.
pub(crate) fn next_line(markdown: &[u8], i: usize, work: &mut [u8]) -> Line
    requires { (i ≤ length markdown.now) × (length markdown.now ≤ length work.old) }
    ensures { LineIs markdown.now i work.old work.new result }
{
    let start = past_blocks::<16, _>(markdown, i, Quiet);
    for j in start..markdown.len() {
        let b = markdown[j];
        if b == b'\n' {
            return Line {
                text: Text::lent(i, j),
                next: j + 1,
            };
        }
        if stands_at(markdown, j, b"<!--") {
            records::writer::put_bytes(work, 0, &markdown[i..j]);
            return commented(markdown, j, j - i, work);
        }
    }
    Line {
        text: Text::lent(i, markdown.len()),
        next: markdown.len() + 1,
    }
}

// Stores a text from `at` on. What is copied within the work buffer is copied from one part of it to another: `copy_within` would be a call of
// `memmove`, which the archive for C does without.
pub(crate) fn put_text(markdown: &[u8], work: &mut [u8], text: Text, at: usize)
    requires { (text.part.start ≤ text.part.end) × ((text.part.end ≤ length markdown.now) × ((length markdown.now ≤ at) × (at + size text ≤ length work.old))) }
    ensures { work.new ≡ sets work.old at (text_at markdown.now work.old text) }
{
    let Part { start, end } = text.part;
    if text.copied {
        let (front, behind) = work.split_at_mut(at);
        records::writer::put_bytes(behind, 0, &front[start..end]);
        return;
    }
    records::writer::put_bytes(work, at, &markdown[start..end]);
}
