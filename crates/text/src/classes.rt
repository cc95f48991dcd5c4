// Classes of characters.
ghost use Rattle.std.specs.Prelude.{◌≡◌};
ghost use Rattle.text.specs.Chars.{within, is_space, is_control, is_scalar, is_digit};

// lo <= x <= hi
pub fn within(lo: u32, hi: u32, x: u32) -> bool
    ensures { result ≡ within lo hi x }
{
    (lo..=hi).contains(&x)
}

// White_Space, by ranges: a letter from 0x400 on takes 12 instructions, and 16 by `char::is_whitespace` or `matches!`, one from 0x4E00 on 5, and 16 or 23.
pub fn is_space(c: u32) -> bool
    ensures { result ≡ is_space c }
{
    if c < 0x80 {
        return within(9, 13, c) | (c == 32);
    }
    if 0x2060 <= c {
        return c == 12288;
    }
    if c < 0x2000 {
        return (c == 133) | (c == 160) | (c == 5760);
    }
    within(8192, 8202, c) | (c == 8232) | (c == 8233) | (c == 8239) | (c == 8287)
}

// A control.
#[tactic(auto, unfolding(crate::specs::Chars::is_control))]
pub fn is_control(c: u32) -> bool
    ensures { result ≡ is_control c }
{
    matches!(c, 0..=31 | 127..=159)
}

// A scalar value.
pub fn is_scalar(c: u32) -> bool
    ensures { result ≡ is_scalar c }
{
    char::from_u32(c).is_some()
}

// An ASCII digit.
pub fn is_digit(b: u8) -> bool
    ensures { result ≡ is_digit b }
{
    b.is_ascii_digit()
}
