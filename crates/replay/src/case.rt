// A stored case: the letter of what is replayed, four length bytes of the input, four of the answer, the input and the answer. FFFFFF00 + n in place
// of the answer's length is refusal n.
ghost use Rattle.std.specs.Prelude.{◌<◌, length, IfSome};

// From this number on a length is a refusal.
const REFUSED: u32 = 0xFFFF_FF00;

// What stands for an answer that the file has not whole: no call's refusal.
const CUT_SHORT: u32 = u32::MAX;

#[derive(Clone, Copy)]
pub(crate) struct Case<'a> {
    pub(crate) letter: u8,
    pub(crate) input: &'a [u8],
    // The stored bytes, or the refusal's number.
    pub(crate) answer: Result<&'a [u8], u32>,
    // The stored bytes as far as the file has them; none at a refusal.
    pub(crate) present: &'a [u8],
}

// The number of the first four bytes, the lowest first, with 0 for each that is not there.
pub(crate) fn word(s: &[u8]) -> u32 {
    let mut bytes = [0; 4];
    let front = text::front(s, 4);
    bytes[..front.len()].copy_from_slice(front);
    u32::from_le_bytes(bytes)
}

// The answer in front of what follows an input, by its stored length.
fn stored(behind: &[u8], size: u32) -> Result<&[u8], u32> {
    if REFUSED <= size {
        return Err(size - REFUSED);
    }
    behind.get(..size as usize).ok_or(CUT_SHORT)
}

impl<'a> Case<'a> {
    // The case at the front, and what stands behind it; none at the end.
    pub(crate) fn split_first(cases: &'a [u8]) -> Option<(Case<'a>, &'a [u8])>
        ensures { IfSome result (λ r. length r.1.now < length cases.now) }
    {
        let (letter, rest) = cases.split_first()?;
        let size = word(rest) as usize;
        let want = word(text::past(rest, 4));
        let texts = text::past(rest, 8);
        let behind = text::past(texts, size);
        let taken = if want < REFUSED { want as usize } else { 0 };
        let case = Case {
            letter: *letter,
            input: text::front(texts, size),
            answer: stored(behind, want),
            present: text::front(behind, taken),
        };
        Some((case, text::past(behind, taken)))
    }

    // Whether a call answered what is stored: the bytes in the front of its result, or a refusal of this number.
    pub(crate) fn is<E: Into<u32>>(self, answer: Result<usize, E>, res: &[u8]) -> bool {
        match answer {
            Ok(n) => self.answer == Ok(text::front(res, n)),
            Err(refusal) => self.answer == Err(refusal.into()),
        }
    }
}
