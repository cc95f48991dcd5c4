// UTF-8, by RFC 3629: the character at an offset.
ghost use Rattle.std.specs.Prelude.{◌<◌, ◌≤◌, ◌≡◌, true, length, get_or, drop};
ghost use Rattle.text.specs.Char.{At};
ghost use Rattle.text.specs.Utf8.{tail, starts3, starts4, join, char_of, char, size_of, char_size, some_size, char_code, FourAt, code_at, is_utf8};

use crate::ascii::ascii_blocks;
use crate::beside::past_block;
use crate::classes::within;

// The byte at i, or 0 past the end. A number for none here and below: the definitions that callers' contracts are written in have it so.
pub fn byte(s: &[u8], i: usize) -> u32
    ensures { result ≡ get_or s.now i 0 }
{
    s.get(i).map_or(0, |b| u32::from(*b))
}

pub(crate) fn is_tail(b: u32) -> bool
    ensures { result ≡ tail b }
{
    within(0x80, 0xBF, b)
}

// Whether a character of three bytes may start with a and the tail b: it is neither overlong nor a surrogate.
fn is_start3(a: u32, b: u32) -> bool
    requires { (0xE0 ≤ a) × ((a < 0xF0) × (b < 0x100)) }
    ensures { tail b ≡ true → result ≡ starts3 a b }
{
    let v = a * 64 + b;
    (0x38A0 <= v) & !within(0x3BE0, 0x3BFF, v)
}

// Whether one of four bytes may: it is neither overlong nor above 0x10FFFF.
fn is_start4(a: u32, b: u32) -> bool
    requires { (0xF0 ≤ a) × ((a < 0x100) × (b < 0x100)) }
    ensures { tail b ≡ true → result ≡ starts4 a b }
{
    within(0x3C90, 0x3D8F, a * 64 + b)
}

// Six bits more, those of the tail b.
pub(crate) fn join(v: u32, b: u32) -> u32
    requires { (v < 0x10000) × (tail b ≡ true) }
    ensures { result ≡ join v b }
{
    v * 64 + (b - 0x80)
}

// Four bytes, with 0 for each that is not there: by name and no array, as the definitions speak of them.
#[derive(Clone, Copy)]
pub(crate) struct Four {
    pub(crate) a: u32,
    pub(crate) b: u32,
    pub(crate) c: u32,
    pub(crate) d: u32,
}

impl Four {
    // How many bytes the character has that they start with.
    fn size(self) -> Option<usize>
        requires { (self.a < 0x100) × (self.b < 0x100) }
        ensures { result ≡ some_size (char_size (char_of self.a self.b self.c self.d)) }
    {
        let Four { a, b, c, d } = self;
        if a <= 0x7F {
            return Some(1);
        }
        if a < 0xE0 {
            return (within(0xC2, 0xDF, a) & is_tail(b)).then_some(2);
        }
        if a < 0xF0 {
            return (is_tail(b) & is_tail(c) & is_start3(a, b)).then_some(3);
        }
        (is_tail(b) & is_tail(c) & is_tail(d) & is_start4(a, b)).then_some(4)
    }

    // The character of n bytes that they start with.
    fn code(self, n: usize) -> u32
        requires { (n ≡ char_size (char_of self.a self.b self.c self.d)) × (0 < n) }
        ensures { char_of self.a self.b self.c self.d ≡ At result n }
    {
        let Four { a, b, c, d } = self;
        if n == 1 {
            return a;
        }
        if n == 2 {
            return join(a - 0xC0, b);
        }
        if n == 3 {
            return join(join(a - 0xE0, b), c);
        }
        join(join(join(a - 0xF0, b), c), d)
    }

    // The code that they start with: a character, or 0x110000 and the first byte.
    fn code_or_stray(self) -> u32
        requires { (self.a < 0x100) × (self.b < 0x100) }
        ensures { result ≡ char_code (char_of self.a self.b self.c self.d) self.a }
    {
        match self.size() {
            Some(n) => self.code(n),
            None => 0x110000 + self.a,
        }
    }
}

// The bytes from i on. Where there are four, none is tested for being there.
fn four_at(s: &[u8], i: usize) -> Four
    requires { i < length s.now }
    ensures { FourAt s.now i result }
{
    if s.len() - i < 4 {
        return Four {
            a: byte(s, i),
            b: byte(s, i + 1),
            c: byte(s, i + 2),
            d: byte(s, i + 3),
        };
    }
    Four {
        a: u32::from(s[i]),
        b: u32::from(s[i + 1]),
        c: u32::from(s[i + 2]),
        d: u32::from(s[i + 3]),
    }
}

// How many bytes the character at i has, where one starts.
fn char_size(s: &[u8], i: usize) -> Option<usize>
    requires { i < length s.now }
    ensures { result ≡ some_size (char_size (char (drop i s.now))) }
{
    four_at(s, i).size()
}

// The code at i: a character, or 0x110000 and a byte that starts none; 0 at the end. Numbers, as in the definition, which tells all three by order.
pub fn code_at(s: &[u8], i: usize) -> u32
    ensures { result ≡ code_at s.now i }
{
    if s.len() <= i {
        return 0;
    }
    four_at(s, i).code_or_stray()
}

// How many bytes the character at i has: 1 for a byte that starts none, 0 at the end, as the definition says it and its callers add it.
pub(crate) fn size_at(s: &[u8], i: usize) -> usize
    ensures { result ≡ size_of (char (drop i s.now)) }
{
    if s.len() <= i {
        return 0;
    }
    char_size(s, i).unwrap_or(1)
}

// Whether s is UTF-8 from i on. The character sets how far a turn goes on, so that a `for` over the bytes would be no plainer.
fn is_utf8_from(s: &[u8], i: usize) -> bool
    requires { i ≤ length s.now }
    ensures { result ≡ is_utf8 (drop i s.now) }
{
    let mut j = i;
    while j < s.len() {
        let Some(n) = char_size(s, j) else {
            return false;
        };
        j += n;
    }
    true
}

// Whether all of s is UTF-8. While more than 8 bytes are left, no character is tested for going past the end. Blocks of ASCII are tried only at
// multiples of 8, so that a short run costs little. No `simdutf8` and no `str::from_utf8`: the one takes half the instructions from 64 bytes on, but
// both take 112 in place of 58 for 32 bytes of ASCII, and 610 in place of 354 for 40 of Russian, and most texts are short. It stays a `while`, as
// `is_utf8_from` does.
pub fn is_utf8(s: &[u8]) -> bool
    ensures { result ≡ is_utf8 s.now }
{
    let mut i = 0;
    while 8 < s.len() - i {
        if i % 8 == 0 {
            let e = ascii_blocks(s, i);
            if e != i {
                i = e;
                continue;
            }
        }
        if s[i] < 0x80 {
            i += 1;
            continue;
        }
        if let Some(j) = past_block(s, i) {
            i = j;
            continue;
        }
        let Some(n) = char_size(s, i) else {
            return false;
        };
        i += n;
    }
    is_utf8_from(s, i)
}
