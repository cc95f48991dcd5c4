// Character references: what stands between an `&` and a `;`, by `unescape` of notes.rs.
#![tactic(auto)]

ghost use Rattle.std.specs.Prelude.{◌≤◌, ◌≡◌, length, take, drop};
ghost use Rattle.text.specs.Words.{same};
ghost use Rattle.text.specs.Utf8.{chars};
ghost use Rattle.reference.specs.Unescape.{digit, from_str_radix, number, named, reference, some_digits, is_hexadecimal, written};
ghost use Rattle.reference.specs.Answers.{answer, value};

// What a reference is replaced by: its character; and how many bytes it has after the `&`.
#[derive(Clone, Copy)]
pub struct Replacement {
    pub code: u32,
    pub len: usize,
}

// The number that digits make. At most 8 of them make a number of 32 bits.
fn some_digits(digits: &[u8], radix: u32) -> Option<u32>
    requires { (length digits.now ≤ 8) × ((2 ≤ radix) × (radix ≤ 16)) }
    ensures { result ≡ value (some_digits radix digits.now) }
{
    if digits.is_empty() {
        return None;
    }
    let mut v = 0;
    for b in digits {
        v = v * radix + char::from(*b).to_digit(radix)?;
    }
    Some(v)
}

// The number of digits that may have one `+` before them. No `u32::from_str_radix`: it wants a `str`, and with that test five digits take 180
// instructions in place of 80.
fn from_str_radix(s: &[u8], radix: u32) -> Option<u32>
    requires { (length s.now ≤ 8) × ((2 ≤ radix) × (radix ≤ 16)) }
    ensures { result ≡ value (from_str_radix radix s.now) }
{
    some_digits(s.strip_prefix(b"+").unwrap_or(s), radix)
}

// The number that a name writes. That a name has at most 9 bytes is said here and in the two below, and in no struct: `named` compares the bytes
// themselves, `reference` makes the one name, and a struct would be taken apart in each.
fn written(name: &[u8]) -> Option<u32>
    requires { length name.now ≤ 9 }
    ensures { result ≡ value (written name.now) }
{
    let hexadecimal = name.strip_prefix(b"#x").or(name.strip_prefix(b"#X"));
    if let Some(digits) = hexadecimal {
        return from_str_radix(digits, 16);
    }
    from_str_radix(name.strip_prefix(b"#")?, 10)
}

// The character whose number a name writes.
fn number(name: &[u8]) -> Option<u32>
    requires { length name.now ≤ 9 }
    ensures { result ≡ value (number name.now) }
{
    let c = written(name)?;
    if !text::is_scalar(c) {
        return None;
    }
    if text::is_control(c) {
        return None;
    }
    Some(c)
}

// The character that a name stands for. No `match` on the six: in its last arm, where 18 branches join, the proof knows none of the bytes tested.
// A table searched by a loop and a chain of `or_else` were not tried: each test stands in the proof with the word that it asks for.
fn named(name: &[u8]) -> Option<u32>
    requires { length name.now ≤ 9 }
    ensures { result ≡ value (named name.now) }
{
    if name == b"amp".as_slice() {
        return Some(38);
    }
    if name == b"lt".as_slice() {
        return Some(60);
    }
    if name == b"gt".as_slice() {
        return Some(62);
    }
    if name == b"quot".as_slice() {
        return Some(34);
    }
    if name == b"apos".as_slice() {
        return Some(39);
    }
    if name == b"nbsp".as_slice() {
        return Some(32);
    }
    number(name)
}

// What becomes of the `&` before i in a piece of text. At most 10 bytes are looked at.
pub fn reference(s: &[u8], i: usize) -> Option<Replacement>
    ensures { result ≡ answer (reference (chars (drop i s.now))) }
{
    let rest = s.get(i..)?;
    let near = &rest[..rest.len().min(10)];
    let n = text::find(near, 0, b';')?;
    let c = named(&near[..n])?;
    Some(Replacement {
        code: c,
        len: n + 1,
    })
}
