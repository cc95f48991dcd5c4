// Text outside tags: `text` of notes.rs, with the references of `unescape` replaced as they are met.
ghost use Rattle.std.specs.Prelude.{◌≡◌, ◌==◌, ℕ, ◌+◌, ◌-◌, ◌*◌, ◌≤◌, ◌<◌, List, ◌∷◌, false, length, drop};
ghost use Rattle.std.specs.List.{list_any};
ghost use Rattle.text.specs.Trim.{trim_start};
ghost use Rattle.text.specs.Utf8.{IsScalar, Scalars, utf8, chars, code_at};
ghost use Rattle.html.specs.State.{State, with_out, special, opens, escape, blank, paused, put_all, text};
ghost use Rattle.reference.specs.Unescape.{unescape};
ghost use Rattle.html.specs.State as state;
ghost use Rattle.html.specs.Struct.{state_of, last_first, out_of, with_space, pending};
ghost use Rattle.html.specs.Pen.{pen_state, plain, AboveAscii, Unescaped, Behind, Inking};

use crate::Converter;
use crate::output::{copy_char, ends_digit, line_start, push, put_char, spaced};

// Where text is written: the output's length, a pending space, and whether nothing of this text has been written yet.
// Two flags: each is a fact of its own, and no value stands beside it.
#[derive(Clone, Copy)]
pub struct Pen {
    pub len: usize,
    pub space: bool,
    pub first: bool,
}

// A character of text, and where the next one starts.
// Stays beside `Inked`: both have an offset behind what was read, and a type for the other half would say no more than the two names.
#[derive(Clone, Copy)]
pub struct Piece {
    pub code: u32,
    pub next: usize,
}

// The character above ASCII at i. The text is UTF-8, so the first byte says how many there are, and none is tested, as `text::code_at` does.
// Bytes widen by `as`: with `u32::from` about ten answers below would cite that a byte and its number are the same.
// The text and an offset stay apart here and below: the loops count the offset in the text, and a slice for each character would have to be
// tied to it again.
fn above_ascii(raw: &[u8], i: usize) -> Piece
    requires { AboveAscii raw.now i }
    ensures { Unescaped raw.now i result × ((result.code ≡ code_at raw.now i) × (chars (drop i raw.now) ≡ result.code ∷ chars (drop result.next raw.now))) }
{
    let a = raw[i] as u32;
    let b = raw[i + 1] as u32 - 0x80;
    if a < 0xE0 {
        return Piece {
            code: (a - 0xC0) * 64 + b,
            next: i + 2,
        };
    }
    let c = raw[i + 2] as u32 - 0x80;
    if a < 0xF0 {
        return Piece {
            code: ((a - 0xE0) * 64 + b) * 64 + c,
            next: i + 3,
        };
    }
    let d = raw[i + 3] as u32 - 0x80;
    Piece {
        code: (((a - 0xF0) * 64 + b) * 64 + c) * 64 + d,
        next: i + 4,
    }
}

// The character at i, a reference replaced.
fn unescaped(raw: &[u8], i: usize) -> Piece
    requires { (i < length raw.now) × Scalars (chars (drop i raw.now)) }
    ensures { Unescaped raw.now i result }
{
    let b = raw[i];
    if b == b'&' {
        let Some(found) = reference::reference(raw, i + 1) else {
            return Piece {
                code: 38,
                next: i + 1,
            };
        };
        return Piece {
            code: found.code,
            next: i + 1 + found.len,
        };
    }
    if b < 0x80 {
        return Piece {
            code: b as u32,
            next: i + 1,
        };
    }
    above_ascii(raw, i)
}

// An ASCII character that is written as it is behind another one. Its spaces are written out: with `Blank` of text the proof at the return did not close.
fn plain(b: u8, pre: bool) -> bool
    ensures { result ≡ plain pre b }
{
    (b < 0x80) & (b != b'&') & (pre | !(((9 <= b) & (b <= 13)) | (b == b' ') | special(b as u32)))
}

// A space outside `pre`.
fn blank(c: u32, pre: bool) -> bool
    ensures { result ≡ blank pre c }
{
    !pre & text::is_space(c)
}

// Whether c is one of the marks.
fn among(c: u32, marks: &[u8]) -> bool
    ensures { result ≡ list_any (λ mark. c == mark) marks.now }
{
    marks.iter().any(|mark| c == u32::from(*mark))
}

// Characters that the Markdown reader would take for emphasis or a link.
pub fn special(c: u32) -> bool
    ensures { result ≡ special c }
{
    among(c, b"\\*`[!")
}

// Characters that it would take for a heading, a list, a quotation or a table at the start of a line.
fn opens(c: u32) -> bool
    ensures { result ≡ opens c }
{
    among(c, b"#-+>|")
}

// Whether c gets a backslash behind the written bytes.
fn escapes(written: &[u8], c: u32, first: bool) -> bool
    ensures { result ≡ escape first c (last_first written.now) }
{
    if special(c) {
        return true;
    }
    if opens(c) {
        return line_start(written);
    }
    if c != 46 {
        return false;
    }
    if first {
        return ends_digit(written);
    }
    false
}

impl Pen {
    // Behind a character that was written.
    fn behind(len: usize) -> Pen
        ensures { result ≡ record { len = len; space = false; first = false } }
    {
        Pen {
            len,
            space: false,
            first: false,
        }
    }

    // A character that is written.
    fn write(self, out: &mut [u8], c: u32, pre: bool) -> Pen
        requires { (self.len + 2 + length (utf8 c) ≤ length out.old) × IsScalar c }
        ensures { ((s : State) → s.pre ≡ pre → pen_state s result out.new ≡ state.put self.first c (state.spaced (pen_state s self out.old))) × (result.first ≡ false) }
    {
        let n = spaced(out, self.len, self.space);
        if !pre & escapes(&out[..n], c, self.first) {
            let k = push(out, n, b'\\');
            return Pen::behind(put_char(out, k, c));
        }
        Pen::behind(put_char(out, n, c))
    }

    // An ASCII character that is written as it is.
    fn bare(self, out: &mut [u8], b: u8) -> Pen
        requires { (self.len + 2 ≤ length out.old) × (b < 0x80) }
        ensures { ((s : State) → pen_state s result out.new ≡ with_out (b ∷ with_space self.space (out_of self.len out.old)) false s) × (result.first ≡ false) }
    {
        let n = spaced(out, self.len, self.space);
        Pen::behind(push(out, n, b))
    }

    // The character above ASCII at i of raw, written: none of them is escaped.
    fn high(self, out: &mut [u8], raw: &[u8], i: usize) -> Pen
        requires { (self.len + 1 + length (utf8 (code_at raw.now i)) ≤ length out.old) × AboveAscii raw.now i }
        ensures { ((s : State) → pen_state s result out.new ≡ state.put self.first (code_at raw.now i) (state.spaced (pen_state s self out.old))) × (result.first ≡ false) }
    {
        let n = spaced(out, self.len, self.space);
        Pen::behind(copy_char(out, n, raw, i))
    }

    // A space: pending, unless nothing is on the line yet.
    fn pause(self, out: &[u8]) -> Pen
        requires { self.len ≤ length out.now }
        ensures { ((s : State) → pen_state s result out.now ≡ paused (pen_state s self out.now)) × (result.first ≡ self.first) }
    {
        Pen {
            space: !line_start(&out[..self.len]),
            ..self
        }
    }
}

// Where the spaces from i on end. After a first space they change nothing.
fn blanks_end(raw: &[u8], i: usize) -> usize
    requires { i ≤ length raw.now }
    ensures { (chars (drop result raw.now) ≡ trim_start (chars (drop i raw.now))) × ((i ≤ result) × (result ≤ length raw.now)) }
{
    i + text::start_of(&raw[i..])
}

// A pen, and where the text goes on.
#[derive(Clone, Copy)]
pub struct Inked {
    pub pen: Pen,
    pub next: usize,
}

// The characters from i on, behind one that is written, up to the next `&`. Nothing here is at the start of a line or of the text, so that few
// tests are left for each.
// Stays a `while`: the next character starts one to four bytes on, so no `for` goes from byte to byte.
fn run(pen: Pen, out: &mut [u8], raw: &[u8], from: usize, pre: bool) -> Inked
    requires from_in_bounds { (from ≤ length raw.now) × (Scalars (chars (drop from raw.now)) × (pen.len + pending pen.space + 2 * (length raw.now - from) < length out.old)) }
    requires behind { Behind pre pen out.old }
    ensures { ((s t : State) (m : ℕ) → s.pre ≡ pre → Inking raw.now s t m out.old pen from → Inking raw.now s t m out.new result.pen result.next) × (from ≤ result.next) }
{
    let mut p = pen;
    let mut i = from;
    while i < raw.len() {
        let b = raw[i];
        if plain(b, pre) {
            p = p.bare(out, b);
            i += 1;
            continue;
        }
        if 0x80 <= b {
            let v = above_ascii(raw, i);
            if blank(v.code, pre) {
                p = p.pause(out);
                i = v.next;
                continue;
            }
            p = p.high(out, raw, i);
            i = v.next;
            continue;
        }
        if b == b'&' {
            return Inked { pen: p, next: i };
        }
        if special(b as u32) {
            let q = p.bare(out, b'\\');
            p = q.bare(out, b);
            i += 1;
            continue;
        }
        p = p.pause(out);
        i += 1;
    }
    Inked { pen: p, next: i }
}

// The characters of a text, one after the other. That the text is UTF-8 (`Scalars`) is a premise here, in `text` and in `words`: each hands the same
// slice on, and a struct of it would be made and taken apart for that alone.
// Stays a `while`: a turn goes on where `run` or the spaces end.
fn ink(pen: Pen, out: &mut [u8], raw: &[u8], pre: bool) -> Pen
    requires { (pen.len + 2 + 2 * length raw.now ≤ length out.old) × Scalars (chars raw.now) }
    ensures { (s : State) → s.pre ≡ pre → pen_state s result out.new ≡ put_all pen.first (unescape 0 (chars raw.now)) (pen_state s pen out.old) }
{
    let mut p = pen;
    let mut i = 0;
    while i < raw.len() {
        let u = unescaped(raw, i);
        if blank(u.code, pre) {
            p = p.pause(out);
            i = blanks_end(raw, u.next);
            continue;
        }
        let w = p.write(out, u.code, pre);
        let written = run(w, out, raw, u.next, pre);
        p = written.pen;
        i = written.next;
    }
    p
}

impl Converter {
    pub(crate) fn text(mut self, out: &mut [u8], raw: &[u8]) -> Self
        requires { (self.len + 2 + 2 * length raw.now ≤ length out.old) × Scalars (chars raw.now) }
        ensures { state_of result out.new ≡ text (chars raw.now) (state_of self out.old) }
    {
        let begun = Pen {
            len: self.len,
            space: self.space,
            first: true,
        };
        let pen = ink(begun, out, raw, self.pre);
        self.len = pen.len;
        self.space = pen.space;
        self
    }
}
