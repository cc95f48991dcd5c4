// The written part of the lent output: bytes more and spaces fewer at its end, and what it ends with.
// A buffer and how much of it is written: with both in a struct that is lent, text took 1.04 to 1.09 times the instructions,
// and each function owes a second clause, that the struct still holds the same buffer.
ghost use Rattle.std.specs.Prelude.{◌≡◌, ◌+◌, ◌≤◌, ◌<◌, length, take, replicate, false};
ghost use mathlib.Core.List.{◌∷◌, reverse_aux};
ghost use Rattle.text.specs.Words.{is, starts, drop_while};
ghost use Rattle.text.specs.Utf8.{IsScalar, utf8, code_at};
ghost use Rattle.text.specs.Decimal.{decimal};
ghost use Rattle.text.specs.Chars.{Ascii};
ghost use Rattle.html.specs.State.{State, with_out, line_start, block, newline, ends_with_digit};
ghost use Rattle.html.specs.Pen.{AboveAscii};
ghost use Rattle.html.specs.Struct.{last_first, out_of, with_space};

// How many of the written bytes are left without the spaces at their end.
// Stays beside markdown's `end_without`: this one says what is left from the last byte on, as the state of the output does, and neither crate uses
// the other.
pub(crate) fn unspaced(written: &[u8]) -> usize
    ensures bytes { last_first (take result written.now) ≡ drop_while (is " ") (last_first written.now) }
    ensures bound { result ≤ length written.now }
{
    let mut rest = written;
    while let [front @ .., b' '] = rest {
        rest = front;
    }
    rest.len()
}

// Whether nothing is on the line yet.
pub(crate) fn line_start(written: &[u8]) -> bool
    ensures { result ≡ line_start (last_first written.now) }
{
    match written {
        [] => true,
        [.., last] => *last == b'\n',
    }
}

// Whether the written bytes end in two line feeds.
pub(crate) fn ends_blank(written: &[u8]) -> bool
    ensures { result ≡ starts "\n\n" (last_first written.now) }
{
    match written {
        [.., before, last] => (*before == b'\n') & (*last == b'\n'),
        _ => false,
    }
}

// Whether the written bytes end in a digit.
pub(crate) fn ends_digit(written: &[u8]) -> bool
    ensures { result ≡ ends_with_digit (last_first written.now) }
{
    match written {
        [] => false,
        [.., last] => last.is_ascii_digit(),
    }
}

// A pending space, written.
pub(crate) fn spaced(out: &mut [u8], n: usize, space: bool) -> usize
    requires { n < length out.old }
    ensures { out_of result out.new ≡ with_space space (out_of n out.old) }
{
    if space {
        out[n] = b' ';
        return n + 1;
    }
    n
}

// A character more.
pub(crate) fn put_char(out: &mut [u8], n: usize, c: u32) -> usize
    requires { (n + length (utf8 c) ≤ length out.old) × IsScalar c }
    ensures { out_of result out.new ≡ c ∷ out_of n out.old }
{
    if c < 0x80 {
        out[n] = c as u8;
        return n + 1;
    }
    let k = text::put(out, n, c);
    n + k
}

// The character above ASCII at i of raw more: its bytes as they stand there, so that none is made from a code again. The first of
// them says how many there are.
pub(crate) fn copy_char(out: &mut [u8], n: usize, raw: &[u8], i: usize) -> usize
    requires { (n + length (utf8 (code_at raw.now i)) ≤ length out.old) × AboveAscii raw.now i }
    ensures { out_of result out.new ≡ code_at raw.now i ∷ out_of n out.old }
{
    let a = raw[i];
    out[n] = a;
    out[n + 1] = raw[i + 1];
    if a < 0xE0 {
        return n + 2;
    }
    out[n + 2] = raw[i + 2];
    if a < 0xF0 {
        return n + 3;
    }
    out[n + 3] = raw[i + 3];
    n + 4
}

// One ASCII byte more.
pub(crate) fn push(out: &mut [u8], n: usize, byte: u8) -> usize
    requires { (n < length out.old) × (byte < 0x80) }
    ensures { out_of result out.new ≡ byte ∷ out_of n out.old }
{
    out[n] = byte;
    n + 1
}

// The bytes of an ASCII text more.
pub(crate) fn push_all(out: &mut [u8], n: usize, bytes: &[u8]) -> usize
    requires { (n + length bytes.now ≤ length out.old) × Ascii bytes.now }
    ensures { out_of result out.new ≡ reverse_aux bytes.now (out_of n out.old) }
{
    let end = n + bytes.len();
    out[n..end].copy_from_slice(bytes);
    end
}

// One ASCII byte more, several times.
pub(crate) fn push_times(out: &mut [u8], n: usize, byte: u8, times: usize) -> usize
    requires { (n + times ≤ length out.old) × (byte < 0x80) }
    ensures { out_of result out.new ≡ reverse_aux (replicate times byte) (out_of n out.old) }
{
    let end = n + times;
    out[n..end].fill(byte);
    end
}

// A number more, in decimal.
pub(crate) fn push_number(out: &mut [u8], n: usize, number: usize) -> usize
    requires { n + length (decimal number) ≤ length out.old }
    ensures { out_of result out.new ≡ reverse_aux (decimal number) (out_of n out.old) }
{
    if number < 10 {
        return push(out, n, b'0' + number as u8);
    }
    let m = push_number(out, n, number / 10);
    push(out, m, b'0' + (number % 10) as u8)
}

// A blank line at the end: what `block` does to the output.
pub(crate) fn blocked(out: &mut [u8], len: usize) -> usize
    requires { len + 2 ≤ length out.old }
    ensures { (s : State) → with_out (out_of result out.new) false s ≡ block (with_out (out_of len out.old) false s) }
{
    let n = unspaced(&out[..len]);
    if n == 0 {
        return n;
    }
    if ends_blank(&out[..n]) {
        return n;
    }
    if line_start(&out[..n]) {
        return push(out, n, b'\n');
    }
    push_all(out, n, b"\n\n")
}

// A new line at the end: what `newline` does to the output.
pub(crate) fn line_ended(out: &mut [u8], len: usize) -> usize
    requires { len + 1 ≤ length out.old }
    ensures { (s : State) → with_out (out_of result out.new) false s ≡ newline (with_out (out_of len out.old) false s) }
{
    let n = unspaced(&out[..len]);
    if line_start(&out[..n]) {
        return n;
    }
    push(out, n, b'\n')
}
