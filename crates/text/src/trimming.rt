// Spaces taken off the ends.
ghost use Rattle.std.specs.Prelude.{◌≡◌, true, ◌+◌, ◌-◌, ◌≤◌, ◌<◌, length, get_or, take, drop};
ghost use Rattle.text.specs.Words.{all};
ghost use Rattle.text.specs.Run.{RunTo};
ghost use Rattle.text.specs.Utf8.{chars, encode, char, some_size};
ghost use Rattle.text.specs.Trim.{trim, start_of, end_of, is_blank, wide_space, space_before};

use crate::classes::{is_space, within};
use crate::decoding::{byte, is_tail, join};
use crate::runs::{Blank, ByteClass, past_blocks};

// An offset after i up to which all are ASCII spaces, as the byte at i is. Blocks are tried only from multiples of 32 on.
fn past_blank(s: &[u8], i: usize) -> usize
    requires { (i < length s.now) × (is_blank (get_or s.now i 0) ≡ true) }
    ensures { RunTo is_blank s.now i result × (i < result) }
{
    let j = i + 1;
    if j % 32 != 0 {
        return j;
    }
    past_blocks::<32, Blank>(s, j, Blank)
}

// How many bytes the space at i has that is not ASCII, where one stands there. Only C2, E1, E2 and E3 start one.
fn wide_space(s: &[u8], i: usize) -> Option<usize>
    requires { i < length s.now }
    ensures { result ≡ some_size (wide_space (char (drop i s.now))) }
{
    let a = u32::from(s[i]);
    if a == 0xC2 {
        let b = byte(s, i + 1);
        return ((b == 0x85) | (b == 0xA0)).then_some(2);
    }
    if !within(0xE1, 0xE3, a) {
        return None;
    }
    let b = byte(s, i + 1);
    let c = byte(s, i + 2);
    if !(is_tail(b) & is_tail(c)) {
        return None;
    }
    is_space(join(join(a - 0xE0, b), c)).then_some(3)
}

// Where s starts without the spaces before it. A turn goes on by a space's bytes or by blocks, so that a `for` over the bytes would be no plainer.
pub fn start_of(s: &[u8]) -> usize
    ensures { result ≡ start_of s.now }
{
    let mut i = 0;
    while i < s.len() {
        let b = s[i];
        if Blank.has(b) {
            i = past_blank(s, i);
            continue;
        }
        let Some(k) = wide_space(s, i) else {
            return i;
        };
        i += k;
    }
    i
}

// How many bytes the space before e has, whose last byte is not ASCII, where one stands there.
fn space_before(s: &[u8], e: usize) -> Option<usize>
    requires { (1 ≤ e) × ((e ≤ length s.now) × (0x80 ≤ get_or s.now (e - 1) 0)) }
    ensures { result ≡ some_size (space_before s.now e) }
{
    if e < 2 {
        return None;
    }
    if wide_space(s, e - 2) == Some(2) {
        return Some(2);
    }
    if e < 3 {
        return None;
    }
    if wide_space(s, e - 3) == Some(3) {
        return Some(3);
    }
    None
}

// Where s ends without the spaces after it. A turn goes on by a space's bytes, as in `start_of`.
pub fn end_of(s: &[u8]) -> usize
    ensures { result ≡ end_of s.now }
{
    let mut e = s.len();
    while 0 < e {
        let b = s[e - 1];
        if Blank.has(b) {
            e -= 1;
            continue;
        }
        if b < 0x80 {
            return e;
        }
        let Some(k) = space_before(s, e) else {
            return e;
        };
        e -= k;
    }
    e
}

// s without the spaces at its ends.
pub fn trim(s: &[u8]) -> &[u8]
    ensures { result.now ≡ encode (trim (chars s.now)) }
{
    let a = start_of(s);
    let t = &s[a..];
    let e = end_of(t);
    &t[..e]
}
