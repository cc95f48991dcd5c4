// The end of a conversion: the output trimmed, cut to so many characters, and copied out.
ghost use Rattle.std.specs.Prelude.{◌≡◌, ◌≤◌, length, take};
ghost use Rattle.text.specs.Utf8.{chars, encode};
ghost use Rattle.text.specs.Trim.{trim};
ghost use Rattle.text.specs.Outcome.{front};

use crate::Converter;

// The front of a buffer becomes s. By a loop: with `copy_from_slice` the archive for C would need `memmove` from outside.
fn copy(s: &[u8], to: &mut [u8])
    requires { length s.now ≤ length to.old }
    ensures { to.new ≡ front s.now to.old }
{
    for (i, byte) in s.iter().enumerate() {
        to[i] = *byte;
    }
}

// The written bytes of the work buffer, trimmed, and their first 8,000 characters.
pub(crate) fn finish(written: &[u8], res: &mut [u8]) -> usize
    requires { 32000 ≤ length res.old }
    ensures { (result ≡ length (encode (take 8000 (trim (chars written.now))))) × (res.new ≡ front (encode (take 8000 (trim (chars written.now)))) res.old) }
{
    if written.is_empty() {
        return 0;
    }
    let notes = text::first(text::trim(written), Converter::MAX_NOTES);
    copy(notes, res);
    notes.len()
}
