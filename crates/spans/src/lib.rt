// The spans of a line: bold, italic, code, links and images, read from the line's bytes and written as records.
#![tactic(auto)]

ghost use Rattle.std.specs.Prelude.{ℕ, ◌≡◌, ◌+◌, ◌*◌, ◌^◌, ◌-◌, ◌≤◌, ◌<◌, Bool, true, false, ◌||◌, List, length, set, get_or, take, drop};
ghost use Rattle.std.proofs.lemmas.List.Edits.{sets};
ghost use Rattle.records.specs.Format.{span_map, encode_spans};
ghost use Rattle.spans.specs.Spans.{spans};
ghost use Rattle.spans.specs.Line.{line_spans};
ghost use Rattle.spans.specs.Turn.{record_of};
ghost use Rattle.spans.specs.State.{unmarked, next_at, link_at, Known, within, head, moved_to, ended_at, push_of, flush_of, code_span};
ghost use Rattle.spans.specs.State.{code_of, pend, link_to, link_head, Ready, Does, BangAt, PlainIs, PlainTo, push_all_of, Wrote};

use records::writer::{put, put_bytes, put_head, span_map};
use text::{ByteClass, byte, past_blocks};

// Where a link's `]` stands, and where its `)` does.
#[derive(Clone, Copy)]
struct Link {
    pub close: usize,
    pub end: usize,
}

// How far the searches of a line for `]`, for `)` and for the backtick have read: from where the walk is up to there the mark does not
// stand. A search goes on from there, so that no byte is read twice for the same mark.
#[derive(Clone, Copy, Default)]
struct Seen {
    pub close: usize,
    pub end: usize,
    pub tick: usize,
}

// The first backtick at or after i. Most code is short, so the first bytes are looked at here: `text::find` alone is a call more for each.
fn first_tick(s: &[u8], i: usize) -> Option<usize>
    ensures { result ≡ next_at 96 s.now i }
{
    for k in i..s.len().min(i.saturating_add(8)) {
        if s[k] == b'`' {
            return Some(k);
        }
    }
    text::find(s, i, b'`')
}

// The next backtick at or after `from`, where code ends. A backslash before it does not protect it.
// Not inlined: the walk would lose its registers to the search, and a line of escapes would take a third more instructions.
#[inline(never)]
fn find(s: &[u8], from: usize, seen: &mut Seen) -> Option<usize>
    requires { Known s.now from seen.old }
    ensures { (result ≡ next_at 96 s.now from) × Known s.now from seen.new }
{
    let found = first_tick(s, from.max(seen.tick));
    seen.tick = found.unwrap_or(s.len());
    found
}

// The link whose label starts at `from`: the search is left at the first bracket that is missing. 40 is `(`.
// By a rule of the project the search is labelled loops, one for each bracket, and a loop's `break` yields where its bracket stands.
fn find_link(s: &[u8], from: usize, seen: &mut Seen) -> Option<Link>
    requires { Known s.now from seen.old }
    ensures { (result ≡ link_at s.now from) × Known s.now from seen.new }
{
    'link: loop {
        let mut i = from.max(seen.close);
        let close = 'close: loop {
            if s.len() <= i {
                seen.close = i;
                break 'link None;
            }
            if s[i] == b']' {
                break 'close i;
            }
            i += 1;
        };
        seen.close = close;
        let target = 'paren: loop {
            if byte(s, close + 1) != 40 {
                break 'link None;
            }
            break 'paren close + 2;
        };
        let mut j = target.max(seen.end);
        let end = 'end: loop {
            if s.len() <= j {
                seen.end = j;
                break 'link None;
            }
            if s[j] == b')' {
                break 'end j;
            }
            j += 1;
        };
        seen.end = end;
        break 'link Some(Link { close, end });
    }
}

// Whether a text is bold, and whether it is italic.
#[derive(Clone, Copy, Default)]
struct Emphasis {
    pub bold: bool,
    pub italic: bool,
}

impl Emphasis {
    // The map byte of a span with it.
    fn map(self, code: bool, text: bool) -> u8
        ensures { result ≡ span_map self.bold self.italic code text }
    {
        span_map(self.bold, self.italic, code, text)
    }
}

// Where the walk is: the next byte of the line; where the pending span's record starts, how long its text is, and how many spans
// stand before it; and the emphasis. The pending text is stored behind a gap of five bytes for its head, which is stored when the span ends.
// The emphasis is no field of type `Emphasis`: the compiler would keep the two in one number, and a line of escapes takes a fifth more.
#[derive(Clone, Copy, Default)]
struct State {
    pub i: usize,
    pub at: usize,
    pub len: usize,
    pub count: usize,
    pub bold: bool,
    pub italic: bool,
}

// Where the records end, and how many there are.
#[derive(Clone, Copy)]
pub struct Written {
    pub next: usize,
    pub count: usize,
}

// The line, the buffer and what the searches have read stay parameters: a struct of them, lent to each method, would not be plainer,
// since each contract would have to say that the line and the buffer stay the same. The buffer comes whole, with an offset that may lie
// past its end: a head is stored behind what follows it. `self.at + self.len < 2 ^ 63` and its like in the contracts say only that the
// sums fit, and are no facts of a state: each step asks for another bound, and leaves a larger offset or a longer text.
impl State {
    // The emphasis here, with that around the line.
    fn emphasis(self, around: Emphasis) -> Emphasis
        ensures { result ≡ within self around }
    {
        Emphasis {
            bold: self.bold | around.bold,
            italic: self.italic | around.italic,
        }
    }

    // The state at another byte, with another emphasis.
    fn moved(self, i: usize, emphasis: Emphasis) -> Self
        ensures { result ≡ moved_to self i emphasis }
    {
        Self {
            i,
            bold: emphasis.bold,
            italic: emphasis.italic,
            ..self
        }
    }

    // The state after spans that end at `at`: no text is pending.
    fn ended(self, i: usize, at: usize, count: usize) -> Self
        ensures { result ≡ ended_at self i at count }
    {
        Self {
            i,
            at,
            len: 0,
            count,
            ..self
        }
    }

    // A byte joins the pending text.
    fn push(self, c: u8, used: usize, out: &mut [u8]) -> Self
        requires { (self.at + self.len < 2 ^ 63) × (self.i + used < 2 ^ 63) }
        ensures { (result ≡ push_of self used) × (out.new ≡ set out.old (self.at + 5 + self.len) c) }
    {
        put(out, self.at + 5 + self.len, c);
        Self {
            i: self.i + used,
            len: self.len + 1,
            ..self
        }
    }

    // The bytes up to `end` join the pending text.
    fn push_all(self, line: &[u8], end: usize, out: &mut [u8]) -> Self
        requires { (self.at + self.len < 2 ^ 62) × ((self.i ≤ end) × ((end ≤ length line.now) × (length line.now < 2 ^ 62))) }
        ensures { (result ≡ push_all_of self (end - self.i))
            × (out.new ≡ sets out.old (self.at + 5 + self.len) (take (end - self.i) (drop self.i line.now))) }
    {
        let i = self.i;
        put_bytes(out, self.at + 5 + self.len, &line[i..end]);
        Self {
            i: end,
            len: self.len + (end - i),
            ..self
        }
    }

    // The pending text becomes a span, unless it is empty.
    fn flush(self, around: Emphasis, out: &mut [u8]) -> Self
        requires { (self.at + self.len < 2 ^ 63) × (self.count < 2 ^ 63) }
        ensures { (result ≡ flush_of self)
            × (out.new ≡ sets out.old self.at (head (span_map (self.bold || around.bold) (self.italic || around.italic) false true) self.len)) }
    {
        if self.len == 0 {
            return self;
        }
        put_head(
            out,
            self.at,
            self.emphasis(around).map(false, true),
            self.len,
        );
        self.ended(self.i, self.at + 5 + self.len, self.count + 1)
    }

    // A span of code.
    fn put_code(self, text: &[u8], next: usize, around: Emphasis, out: &mut [u8]) -> Self
        requires { (self.at + length text.now < 2 ^ 62) × (self.count < 2 ^ 63) }
        ensures { (result ≡ code_of self next around.bold around.italic text.now)
            × (out.new ≡ sets out.old self.at (record_of around.bold around.italic (code_span self text.now))) }
    {
        let n = text.len();
        let emphasis = self.emphasis(around);
        let count = self.count + 1;
        if n == 0 {
            put(out, self.at, emphasis.map(true, false));
            return self.ended(next, self.at + 1, count);
        }
        put_head(out, self.at, emphasis.map(true, true), n);
        let start = self.at + 5;
        put_bytes(out, start, text);
        self.ended(next, start + n, count)
    }

    // Where the pending text ends.
    fn text_end(self) -> usize
        requires { self.at + self.len < 2 ^ 63 }
        ensures { result ≡ self.at + pend self.len }
    {
        if self.len == 0 {
            return self.at;
        }
        self.at + 5 + self.len
    }

    // The spans of a link's label stand at the end of the pending text, which they end if there are any.
    fn join_label(self, label: Written, next: usize, around: Emphasis, out: &mut [u8]) -> Self
        requires { (self.at + self.len < 2 ^ 63) × (self.count + label.count < 2 ^ 63) }
        ensures { (result ≡ link_to self label next)
            × (out.new ≡ sets out.old self.at (link_head (span_map (self.bold || around.bold) (self.italic || around.italic) false true) self.len label.count)) }
    {
        if label.count == 0 {
            return Self { i: next, ..self };
        }
        let f = self.flush(around, out);
        self.ended(next, label.next, f.count + label.count)
    }

    // A backslash: the next byte is text.
    fn escape(self, line: &[u8], out: &mut [u8]) -> Self
        requires { Ready line.now self × (get_or line.now self.i 0 ≡ 92) }
        ensures { (around : Emphasis) → Does around line.now self out.old result out.new }
    {
        let j = self.i + 1;
        if j < line.len() {
            return self.push(line[j], 2, out);
        }
        self.push(b'\\', 1, out)
    }

    // A backtick: code up to the next one.
    fn tick(self, line: &[u8], around: Emphasis, out: &mut [u8], seen: &mut Seen) -> Self
        requires { Ready line.now self × ((get_or line.now self.i 0 ≡ 96) × Known line.now self.i seen.old) }
        ensures { Does around line.now self out.old result out.new × Known line.now (self.i + 1) seen.new }
    {
        let from = self.i + 1;
        let Some(end) = find(line, from, seen) else {
            return self.push(b'`', 1, out);
        };
        let f = self.flush(around, out);
        f.put_code(&line[from..end], end + 1, around, out)
    }

    // A star or two: the emphasis changes.
    fn star(self, line: &[u8], around: Emphasis, out: &mut [u8]) -> Self
        requires { Ready line.now self × (get_or line.now self.i 0 ≡ 42) }
        ensures { Does around line.now self out.old result out.new }
    {
        let j = self.i + 1;
        let f = self.flush(around, out);
        let Self { bold, italic, .. } = self;
        if byte(line, j) != 42 {
            return f.moved(
                j,
                Emphasis {
                    bold,
                    italic: !italic,
                },
            );
        }
        f.moved(
            j + 1,
            Emphasis {
                bold: !bold,
                italic,
            },
        )
    }

    // An exclamation mark before a bracket: an image is dropped.
    fn bang(self, line: &[u8], out: &mut [u8], seen: &mut Seen) -> Self
        requires { Ready line.now self × (BangAt line.now self.i × Known line.now self.i seen.old) }
        ensures { ((around : Emphasis) → Does around line.now self out.old result out.new) × Known line.now (self.i + 1) seen.new }
    {
        let j = self.i + 1;
        let Some(link) = find_link(line, j + 1, seen) else {
            return self.push(b'!', 1, out);
        };
        Self {
            i: link.end + 1,
            ..self
        }
    }

    // The turn at a mark but `[`. A match and no table: what the marks need differs.
    fn turn(self, line: &[u8], around: Emphasis, out: &mut [u8], seen: &mut Seen) -> Self
        requires { Ready line.now self × (PlainIs line.now self.i false × ((get_or line.now self.i 0 ≡ 91 → ⊥) × Known line.now self.i seen.old)) }
        ensures { Does around line.now self out.old result out.new × Known line.now (self.i + 1) seen.new }
    {
        let i = self.i;
        match line[i] {
            b'\\' => self.escape(line, out),
            b'`' => self.tick(line, around, out, seen),
            b'*' => self.star(line, around, out),
            _ => self.bang(line, out, seen),
        }
    }
}

// Whether the byte at i is text: no mark, or an exclamation mark without a bracket after it.
// No `matches!`: with it 800,000 bytes, half of them without marks, take 18,000,000 instructions in place of 14,900,000.
fn is_plain(line: &[u8], i: usize) -> bool
    requires { i < length line.now }
    ensures { PlainIs line.now i result }
{
    let c = line[i];
    if c == b'!' {
        return byte(line, i + 1) != 91;
    }
    !((c == b'\\') | (c == b'`') | (c == b'*') | (c == b'['))
}

// The bytes that are text wherever they stand.
#[derive(Clone, Copy)]
struct Unmarked;

impl ByteClass for Unmarked {
    ghost holds = { λ class b. unmarked b };

    fn has(self, b: u8) -> bool {
        !((b == b'\\') | (b == b'`') | (b == b'*') | (b == b'[')) & (b != b'!')
    }
}

// Where the bytes from i on that are text end. Marks are near one another or far, so the first bytes are looked at one by one, and what follows them
// by blocks: the time of a loop over all of them is half as much again where the compiler happens to lay it over two lines of the cache.
fn plain_end(line: &[u8], i: usize) -> usize
    requires { i ≤ length line.now }
    ensures { PlainTo line.now i result }
{
    let near = line.len().min(i.saturating_add(8));
    for j in i..near {
        if !is_plain(line, j) {
            return j;
        }
    }
    for j in past_blocks::<16, _>(line, near, Unmarked)..line.len() {
        if !is_plain(line, j) {
            return j;
        }
    }
    line.len()
}

// Writes the records of the spans of a line from `at` on, as far as there is room, with an emphasis around them.
fn spans_in(line: &[u8], around: Emphasis, out: &mut [u8], at: usize) -> Written
    requires { at + 6 * length line.now < 2 ^ 62 }
    ensures { Wrote (spans line.now) around at out.old out.new result }
{
    let mut w = State {
        at,
        ..State::default()
    };
    let mut seen = Seen::default();
    // No iterator: how many bytes a turn reads, one or many, is known only once it has read them.
    while w.i < line.len() {
        let i = w.i;
        if is_plain(line, i) {
            w = w.push_all(line, plain_end(line, i + 1), out);
            continue;
        }
        if line[i] != b'[' {
            w = w.turn(line, around, out, &mut seen);
            continue;
        }
        let from = i + 1;
        let Some(link) = find_link(line, from, &mut seen) else {
            w = w.push(b'[', 1, out);
            continue;
        };
        let close = link.close;
        let label = spans_in(&line[from..close], w.emphasis(around), out, w.text_end());
        w = w.join_label(label, link.end + 1, around, out);
    }
    let f = w.flush(around, out);
    Written {
        next: f.at,
        count: f.count,
    }
}

// Writes the records of the spans of a line from `at` on, as far as there is room, and answers where they end and how many there are.
pub fn spans(line: &[u8], out: &mut [u8], at: usize) -> Written
    ensures { (result.next ≡ at + length (encode_spans (line_spans line.now at)))
        × ((result.count ≡ length (line_spans line.now at))
        × (out.new ≡ sets out.old at (encode_spans (line_spans line.now at)))) }
{
    if (line.len() <= 1048576) & (at <= 1099511627776) {
        return spans_in(line, Emphasis::default(), out, at);
    }
    Written { next: at, count: 0 }
}
