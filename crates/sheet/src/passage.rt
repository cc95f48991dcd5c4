// The text of a run: its characters, and what is kept of them.
ghost use Rattle.std.specs.Prelude.{◌≡◌, true, [], ◌∷◌};
ghost use Rattle.text.specs.Words.{all};
ghost use Rattle.text.specs.Chars.{is_ascii};
ghost use Rattle.text.specs.Utf8.{chars};
ghost use Rattle.sheet.specs.Grammar.{shown};
ghost use Rattle.sheet.specs.Reader.{referred, char};
ghost use Rattle.sheet.specs.Written.{escaped};
ghost use Rattle.sheet.specs.Weight.{weight};
ghost use Rattle.sheet.specs.Says.{Says};
ghost use Rattle.sheet.specs.Keeps.{IsCharacter, spelt, gist, pushed, Scanned};

use crate::count::Count;
use crate::reading::{Read, tagged};

// The first and the last character of a text.
#[derive(Clone, Copy)]
pub struct Edges {
    pub first: u32,
    pub last: u32,
}

// What is kept of a text: the counts of its written form, its edges if it has a character, whether no two bytes 32 stand together, and whether none of
// its characters is one to be escaped. No `bool` says whether another field has a value.
#[derive(Clone, Copy)]
pub struct Gist {
    pub count: Count,
    pub edges: Option<Edges>,
    pub single: bool,
    pub calm: bool,
}

fn is_shown(c: u32) -> bool
    ensures { result ≡ shown c }
{
    if c < 0x80 {
        return (32 < c) & (c != 127) & (c != 60) & (c != 38);
    }
    !text::is_control(c) & !text::is_space(c) & (c != 60) & (c != 38)
}

// The character c, where the page begins with the tag that stands for it.
fn spelt<'a>(page: &'a [u8], tag: &[u8], c: u32) -> Option<Read<'a, u32>>
    requires { all is_ascii tag.now ≡ true }
    ensures { Says IsCharacter (spelt tag.now c (chars page.now)) result }
{
    tagged(page, tag, c)
}

// Byte 32 or a reference, where the page begins with one.
fn reference(page: &[u8]) -> Option<Read<u32>>
    ensures { Says IsCharacter (referred (chars page.now)) result }
{
    spelt(page, b" ", 32)
        .or_else(|| spelt(page, b"&lt;", 60))
        .or_else(|| spelt(page, b"&amp;", 38))
        .or_else(|| spelt(page, b"&gt;", 62))
        .or_else(|| spelt(page, b"&quot;", 34))
}

// The character of text that the page begins with.
fn character(page: &[u8]) -> Option<Read<u32>>
    ensures { Says IsCharacter (char (chars page.now)) result }
{
    if page.is_empty() {
        return None;
    }
    let code = text::code_at(page, 0);
    if is_shown(code) {
        let (_, rest) = page.split_at(text::width(code));
        return Some(Read { value: code, rest });
    }
    reference(page)
}

// The counts of a character's written form.
fn weight_of(c: u32) -> Count
    ensures { result ≡ weight (escaped (c ∷ [])) }
{
    let n = text::width(c);
    if html::special(c) {
        return Count {
            bytes: n + 1,
            chars: 2,
        };
    }
    Count { bytes: n, chars: 1 }
}

impl Gist {
    // No text yet.
    fn new() -> Gist
        ensures { result ≡ gist [] }
    {
        Gist {
            count: Count { bytes: 0, chars: 0 },
            edges: None,
            single: true,
            calm: true,
        }
    }

    // One character more.
    fn push(self, c: u32) -> Gist
        ensures { result ≡ pushed self c }
    {
        let first = self.edges.map_or(c, |edges| edges.first);
        let after_blank = self.edges.is_some_and(|edges| edges.last == 32);
        Gist {
            count: self.count + weight_of(c),
            edges: Some(Edges { first, last: c }),
            single: self.single & !(after_blank & (c == 32)),
            calm: self.calm & !html::special(c),
        }
    }
}

// The text that the page begins with, as far as it goes.
pub fn passage(page: &[u8]) -> Read<Gist>
    ensures { Scanned (chars page.now) result }
{
    let mut gist = Gist::new();
    let mut rest = page;
    // Only a character that was read says where the next begins, so no iterator over the page gives them.
    while let Some(read) = character(rest) {
        gist = gist.push(read.value);
        rest = read.rest;
    }
    Read { value: gist, rest }
}
