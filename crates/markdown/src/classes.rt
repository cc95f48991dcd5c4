// The classes of bytes that the reader tells apart.
ghost use Rattle.std.specs.Prelude.{◌≡◌, eqb};
ghost use Rattle.text.specs.Chars.{is_digit};
ghost use Rattle.text.specs.Words.{matches};
ghost use Rattle.markdown.specs.Parts.{quiet};

use text::ByteClass;

// One byte.
#[derive(Clone, Copy)]
pub struct Only(pub u8);

impl ByteClass for Only {
    ghost holds = { λ class b. eqb b class.0 };

    fn has(self, b: u8) -> bool {
        b == self.0
    }
}

// The digits.
#[derive(Clone, Copy)]
pub struct Digit;

impl ByteClass for Digit {
    ghost holds = { λ class b. is_digit b };

    fn has(self, b: u8) -> bool {
        text::is_digit(b)
    }
}

// The bytes that end no line and start no comment.
#[derive(Clone, Copy)]
pub struct Quiet;

impl ByteClass for Quiet {
    ghost holds = { λ class b. quiet b };

    fn has(self, b: u8) -> bool {
        !matches!(b, b'\n' | b'<')
    }
}

// `-`, `*` or `_`. No `matches!`: the blocks of `Ruled` are tested by it, and in `text` one such test by `matches!` (`Blank`) kept the
// compiler from taking 32 bytes at once.
pub(crate) fn is_mark(b: u8) -> bool
    ensures { result ≡ matches "-*_" b }
{
    (b == b'-') | (b == b'*') | (b == b'_')
}

// What a rule may have.
pub(crate) fn is_ruled(b: u8) -> bool
    ensures { result ≡ matches "-*_ |:" b }
{
    is_mark(b) | (b == b' ') | (b == b'|') | (b == b':')
}

// The bytes that a rule may have.
#[derive(Clone, Copy)]
pub struct Ruled;

impl ByteClass for Ruled {
    ghost holds = { λ class b. matches "-*_ |:" b };

    fn has(self, b: u8) -> bool {
        is_ruled(b)
    }
}
