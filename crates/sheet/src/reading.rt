// What a reader answers, and the readers of what is written in one way only.
ghost use Rattle.std.specs.Prelude.{◌≡◌, true};
ghost use Rattle.text.specs.Words.{all};
ghost use Rattle.text.specs.Chars.{is_ascii};
ghost use Rattle.text.specs.Utf8.{chars};
ghost use Rattle.sheet.specs.Reader.{nl?};
ghost use Rattle.sheet.specs.Says.{Says, Strips, valued};

// What was read, and what of the page follows it.
#[derive(Clone, Copy)]
pub struct Read<'a, T> {
    pub value: T,
    pub rest: &'a [u8],
}

// What follows the tag, where the page begins with it. The library's `strip_prefix` in its place takes 1.3 times as many instructions on short runs,
// since it compares by a call. Here and below that the tag is ASCII is no fact of a type: tags are byte strings written where they are asked for, and
// each would have to be wrapped.
pub(crate) fn strip<'a>(page: &'a [u8], tag: &[u8]) -> Option<&'a [u8]>
    requires { all is_ascii tag.now ≡ true }
    ensures { Strips tag.now page.now result }
{
    if !text::starts_with(page, 0, tag) {
        return None;
    }
    let (_, rest) = page.split_at(tag.len());
    Some(rest)
}

// The value of a tag, where the page begins with the tag.
pub(crate) fn tagged<'a, T: Copy>(page: &'a [u8], tag: &[u8], value: T) -> Option<Read<'a, T>>
    requires { all is_ascii tag.now ≡ true }
    ensures { Says (λ a b. a ≡ b) (valued tag.now value (chars page.now)) result }
{
    let rest = strip(page, tag)?;
    Some(Read { value, rest })
}

// What follows the byte 10 that the page may begin with.
pub(crate) fn after_newline(page: &[u8]) -> &[u8]
    ensures { chars result.now ≡ nl? (chars page.now) }
{
    strip(page, b"\n").unwrap_or(page)
}
