// Characters written as UTF-8.
ghost use Rattle.std.specs.Prelude.{◌<◌, ◌≡◌, length};
ghost use Rattle.text.specs.Utf8.{utf8};
ghost use Rattle.text.specs.Put.{BytesOf, put_size, put_at};

use crate::decoding::Four;

// How many bytes the code c has: 1 where it is above 10FFFF (hexadecimal), so that no `char` says it.
pub fn width(c: u32) -> usize
    ensures { result ≡ length (utf8 c) }
{
    if c < 0x80 {
        return 1;
    }
    if c < 0x800 {
        return 2;
    }
    if c < 0x10000 {
        return 3;
    }
    if c < 0x110000 {
        return 4;
    }
    1
}

// The bytes of the character c, and 0 for those that it does not have.
fn bytes_of(c: u32) -> Four
    requires { c < 0x110000 }
    ensures { BytesOf c result }
{
    let last = 0x80 + c % 64;
    if c < 0x80 {
        return Four {
            a: c,
            b: 0,
            c: 0,
            d: 0,
        };
    }
    if c < 0x800 {
        return Four {
            a: 0xC0 + c / 64,
            b: last,
            c: 0,
            d: 0,
        };
    }
    let penult = 0x80 + c / 64 % 64;
    if c < 0x10000 {
        return Four {
            a: 0xE0 + c / 4096,
            b: penult,
            c: last,
            d: 0,
        };
    }
    Four {
        a: 0xF0 + c / 262144,
        b: 0x80 + c / 4096 % 64,
        c: penult,
        d: last,
    }
}

// Writes the code c at `at` in the form of UTF-8, and answers how many bytes that took: none where c is above 10FFFF (hexadecimal) or has no room.
// A surrogate is written like any other code of three bytes; `is_scalar` tells it from a character.
// It answers a count, which callers add, and so 0 and no `Option` where nothing is written.
// The bytes are stored one by one: by `copy_from_slice` from an array a call takes 55 instructions in place of 25.
pub fn put(out: &mut [u8], at: usize, c: u32) -> usize
    ensures { (result ≡ put_size (length out.old) at c) × (out.new ≡ put_at out.old at c) }
{
    let n = out.len();
    let k = width(c);
    if 0x10FFFF < c {
        return 0;
    }
    if n < k {
        return 0;
    }
    if n - k < at {
        return 0;
    }
    let f = bytes_of(c);
    out[at] = f.a as u8;
    if k == 1 {
        return k;
    }
    out[at + 1] = f.b as u8;
    if k == 2 {
        return k;
    }
    out[at + 2] = f.c as u8;
    if k == 3 {
        return k;
    }
    out[at + 3] = f.d as u8;
    k
}
