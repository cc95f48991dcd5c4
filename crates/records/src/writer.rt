// Storing record bytes into a lent buffer. An offset may lie past the buffer's end: what falls into the buffer is stored, and the
// rest is not, so a writer needs no case for a full buffer and sees at its end whether all of it fitted. Buffer and offset are two
// parameters, since a map byte and a count are stored after what stands behind them: a struct of both would be made anew for each call.
ghost use Rattle.std.specs.Prelude.{◌≡◌, [], ◌∷◌, min, length, replicate};
ghost use Rattle.std.proofs.lemmas.List.Edits.{sets};
ghost use Rattle.records.specs.Format.{little_endian, le32, span_map};

// One byte.
#[tactic(auto, using(crate::proofs::Stores::sets_out))]
pub fn put(out: &mut [u8], at: usize, b: u8)
    ensures { out.new ≡ sets out.old at (b ∷ []) }
{
    if at < out.len() {
        out[at] = b;
    }
}

// The bytes of s, as many as there is room for. By index: `copy_from_slice` calls `memmove`, which the archive for C does without, and takes longer
// for the few bytes between two marks. One test a byte, so that the compiler can take many bytes at once.
#[tactic(auto, using(crate::proofs::Stores::sets_out))]
pub fn put_bytes(out: &mut [u8], at: usize, s: &[u8])
    ensures { out.new ≡ sets out.old at s.now }
{
    if out.len() <= at {
        return;
    }
    let n = s.len().min(out.len() - at);
    for i in 0..n {
        out[at + i] = s[i];
    }
}

// The N lower bytes of n, 8 at most, the lowest first.
pub fn put_number<const N: usize>(out: &mut [u8], at: usize, n: usize)
    ensures { out.new ≡ sets out.old at (little_endian (min N 8) n) }
{
    let bytes = n.to_le_bytes();
    put_bytes(out, at, &bytes[..N.min(8)]);
}

// A map byte and the four lower bytes of n: a span's with its text's length, and that of a block without fields before its span count.
#[tactic(auto, using(crate::proofs::Stores::sets_out, crate::proofs::Stores::sets_append))]
pub fn put_head(out: &mut [u8], at: usize, map: u8, n: usize)
    ensures { out.new ≡ sets out.old at (map ∷ le32 n) }
{
    if out.len() <= at {
        return;
    }
    put(out, at, map);
    put_number::<4>(out, at + 1, n);
}

// A span's map byte; `text` says whether the span has any.
pub fn span_map(bold: bool, italic: bool, code: bool, text: bool) -> u8
    ensures { result ≡ span_map bold italic code text }
{
    u8::from(bold) + u8::from(italic) * 2 + u8::from(code) * 4 + u8::from(text) * 8
}

// All zero, as a refusal for want of room leaves the result.
pub fn clear(out: &mut [u8])
    ensures { out.new ≡ replicate (length out.old) 0 }
{
    out.fill(0);
}
