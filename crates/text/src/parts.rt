// Parts of a text: by bytes, and by characters.
ghost use Rattle.std.specs.Prelude.{◌≡◌, length, take, drop};
ghost use Rattle.text.specs.Utf8.{chars, encode};
ghost use Rattle.text.specs.Cut.{cut, splits, cut_end};
ghost use Rattle.text.specs.Part.{between, part_of, Inside};

use crate::ascii::ascii_step;
use crate::decoding::size_at;

// Where a part of some bytes stands.
#[derive(Clone, Copy)]
pub struct Part {
    pub start: usize,
    pub end: usize,
}

impl Part {
    // The bytes that stand there, as a part of s.
    pub fn of<'a>(self, s: &'a [u8]) -> &'a [u8]
        requires { Inside s.now self.start self.end }
        ensures bytes { result.now ≡ between s.now self.start self.end }
        ensures place { result ≡ part_of s.entry self }
    {
        &s[self.start..self.end]
    }
}

// The first n bytes of s, or all of them.
pub fn front(s: &[u8], n: usize) -> &[u8]
    ensures { result.now ≡ take n s.now }
{
    s.get(..n).unwrap_or(s)
}

// What follows the first n bytes of s, or nothing.
pub fn past(s: &[u8], n: usize) -> &[u8]
    ensures { result.now ≡ drop n s.now }
{
    s.get(n..).unwrap_or(&[])
}

// Whether the character that starts k bytes before n goes on past n.
#[tactic(auto, unfolding(crate::specs::Cut::splits))]
fn is_split(s: &[u8], n: usize, k: usize) -> bool
    ensures { result ≡ splits s.now n k }
{
    if n < k {
        return false;
    }
    k < size_at(s, n - k)
}

// Where the first n bytes of s end without a split character.
fn cut_end(s: &[u8], n: usize) -> usize
    ensures { result ≡ cut_end s.now n }
{
    for k in 1..4 {
        if is_split(s, n, k) {
            return n - k;
        }
    }
    n
}

// How many bytes the first n bytes of s are without a split character.
pub fn cut_len(s: &[u8], n: usize) -> usize
    ensures { result ≡ length (encode (cut n (chars s.now))) }
{
    if s.len() <= n {
        return s.len();
    }
    cut_end(s, n)
}

// The first n characters of s. Where no more bytes are left than characters may follow, all of s is taken. A turn goes
// on by a character or by 8 bytes, so that a `for` over either would be no plainer.
pub fn first(s: &[u8], n: usize) -> &[u8]
    ensures { result.now ≡ encode (take n (chars s.now)) }
{
    let mut i = 0;
    let mut k = 0;
    while k < n {
        let most = n - k;
        if s.len() - i <= most {
            return s;
        }
        if s[i] < 0x80 {
            let w = ascii_step(s, i, most);
            k += w;
            i += w;
            continue;
        }
        i += size_at(s, i);
        k += 1;
    }
    &s[..i]
}
