// The digits of a list marker.
ghost use Rattle.std.specs.Prelude.{◌≤◌, ◌≡◌, true, length};
ghost use Rattle.text.specs.Words.{all};
ghost use Rattle.text.specs.Chars.{is_digit};

// At most nine digits, and none where the marker is a bullet.
// No `Option`: a marker of digits has at least one, so that no digits in it would be a second way to say that it is a bullet.
#[derive(Clone, Copy)]
pub struct Digits<'a> {
    pub bytes: &'a [u8],
    ghost few: { length bytes.now ≤ 9 },
    ghost ascii: { all is_digit bytes.now ≡ true },
}
