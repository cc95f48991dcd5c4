// The shape of a line: a heading, an item or a rule.
ghost use Rattle.std.specs.Prelude.{◌+◌, ◌-◌, ◌*◌, ◌<◌, ◌≤◌, ◌≡◌, false, ◌||◌, length, take, drop, eqb};
ghost use Rattle.text.specs.Part.{Inside};
ghost use Rattle.text.specs.Words.{all, starts, matches};
ghost use Rattle.markdown.specs.Shape.{marker, Trimmed, TitleIs, MarkerIs};
ghost use Rattle.markdown.specs.Blocks.{is_rule};
ghost use Rattle.text.specs.Chars.{is_digit};
ghost use Rattle.text.specs.Utf8.{chars};
ghost use Rattle.text.specs.Trim.{start_of};

use crate::classes::{Digit, Only, Ruled, is_mark, is_ruled};
use text::{Part, past_blocks, run_end};

// The part of s without the spaces at its ends.
pub(crate) fn trimmed(s: &[u8], part: Part) -> Part
    requires { Inside s.now part.start part.end }
    ensures { Trimmed s.now part.start part.end result }
{
    let start = part.start + text::start_of(part.of(s));
    let rest = Part {
        start,
        end: part.end,
    };
    Part {
        start,
        end: start + text::end_of(rest.of(s)),
    }
}

// The part of a line from n on, without the spaces at its ends.
pub(crate) fn trimmed_from(line: &[u8], n: usize) -> Part
    requires { n ≤ length line.now }
    ensures { Trimmed line.now n (length line.now) result }
{
    let rest = Part {
        start: n,
        end: line.len(),
    };
    trimmed(line, rest)
}

// Whether from i on all bytes are such. Blocks are tried only from multiples of 32 on, so that an ordinary line costs little:
// an iterator's step would be one byte or one block, and not either.
fn all_ruled(line: &[u8], i: usize) -> bool
    requires { i ≤ length line.now }
    ensures { result ≡ all (matches "-*_ |:") (drop i line.now) }
{
    let mut j = i;
    while j < line.len() {
        if !is_ruled(line[j]) {
            return false;
        }
        j += 1;
        if j % 32 == 0 {
            j = past_blocks::<32, Ruled>(line, j, Ruled);
        }
    }
    true
}

// Whether a trimmed line is a rule. From the first mark on none is looked for.
pub(crate) fn is_rule(line: &[u8]) -> bool
    ensures { result ≡ is_rule (chars line.now) }
{
    if line.len() < 3 {
        return false;
    }
    for (i, b) in line.iter().enumerate() {
        let b = *b;
        if is_mark(b) {
            return all_ruled(line, i + 1);
        }
        if !is_ruled(b) {
            return false;
        }
    }
    false
}

// A heading: its level, and where its text stands in the line.
#[derive(Clone, Copy)]
pub struct Title {
    pub level: usize,
    pub text: Part,
}

// What a trimmed line that starts with `#` is: a heading, or text like any other.
pub(crate) fn heading(line: &[u8]) -> Option<Title>
    ensures { TitleIs line.now result }
{
    let level = run_end(line, 0, Only(b'#'));
    if 6 < level {
        return None;
    }
    if !text::starts_with(line, level, b" ") {
        return None;
    }
    Some(Title {
        level: level.min(3),
        text: trimmed_from(line, level),
    })
}

// An item: its depth, and where its digits and its text stand in the line. The digits are empty at a bullet, as in `Digits`.
#[derive(Clone, Copy)]
pub struct Marker {
    pub depth: usize,
    pub digits: Part,
    pub text: Part,
}

// Whether a bullet stands at i.
fn is_bullet(line: &[u8], i: usize) -> bool
    requires { i < length line.now }
    ensures { result ≡ starts "- " (drop i line.now) || starts "* " (drop i line.now) || starts "+ " (drop i line.now) }
{
    matches!(line[i], b'-' | b'*' | b'+') & (text::byte(line, i + 1) == 32)
}

// A marker of digits, where the line's text starts.
fn ordered_marker(line: &[u8], at: usize) -> Option<Marker>
    requires { (at ≡ start_of line.now) × (starts "- " (drop at line.now) || starts "* " (drop at line.now) || starts "+ " (drop at line.now) ≡ false) }
    ensures { MarkerIs line.now result }
{
    let stop = run_end(line, at, Digit);
    if stop == at {
        return None;
    }
    if 9 < stop - at {
        return None;
    }
    if !text::starts_with(line, stop, b". ") {
        return None;
    }
    Some(marker_of(line, at, stop, stop + 2))
}

// The marker whose digits stand from `at` to `stop`, with its text somewhere after `from`.
fn marker_of(line: &[u8], at: usize, stop: usize, from: usize) -> Marker
    requires { from ≤ length line.now }
    ensures { (result ≡ marker at stop result.text) × Trimmed line.now from (length line.now) result.text }
{
    Marker {
        depth: at / 2,
        digits: Part {
            start: at,
            end: stop,
        },
        text: trimmed_from(line, from),
    }
}

// The marker of a line whose text starts at `at`.
pub(crate) fn list_marker(line: &[u8], at: usize) -> Option<Marker>
    requires { (at ≡ start_of line.now) × (at < length line.now) }
    ensures { MarkerIs line.now result }
{
    if is_bullet(line, at) {
        return Some(marker_of(line, at, at, at + 2));
    }
    ordered_marker(line, at)
}
