// Classes of bytes, and how far the bytes of a class reach.
ghost use Rattle.std.specs.Prelude.{ℕ, Bool, ◌+◌, ◌<◌, ◌≤◌, ◌≡◌, length, take, drop};
ghost use Rattle.text.specs.Words.{all, take_while};
ghost use Rattle.text.specs.Chars.{is_ascii};
ghost use Rattle.text.specs.Trim.{is_blank};
ghost use Rattle.text.specs.Run.{RunTo};

// A class of bytes.
pub trait ByteClass: Copy {
    ghost holds: { Self → ℕ → Bool };

    // Whether b is of the class.
    fn has(self, b: u8) -> bool
        ensures { result ≡ holds self b };
}

// ASCII.
#[derive(Clone, Copy)]
pub struct Ascii;

impl ByteClass for Ascii {
    ghost holds = { λ class b. is_ascii b };

    fn has(self, b: u8) -> bool {
        b.is_ascii()
    }
}

// The ASCII spaces.
#[derive(Clone, Copy)]
pub struct Blank;

impl ByteClass for Blank {
    ghost holds = { λ class b. is_blank b };

    // No `matches!`: with it the blocks of 32 are no longer taken at once, and 64,000 spaces take 390,000 instructions in place of 50,000.
    fn has(self, b: u8) -> bool {
        ((9 <= b) & (b <= 13)) | (b == 32)
    }
}

// Whether the N bytes from i on are of the class. One test a byte, by index, and no way out of the loop, so that the compiler can take many bytes at
// once: 16 bytes that are neither `\n` nor `<` took 31 instructions as a slice of `chunks_exact`, and take 15.
pub(crate) fn is_block<const N: usize, C: ByteClass>(s: &[u8], i: usize, class: C) -> bool
    requires { i + N ≤ length s.now }
    ensures { result ≡ all (C.holds class) (take N (drop i s.now)) }
{
    let mut so_far = true;
    for k in 0..N {
        so_far = so_far & class.has(s[i + k]);
    }
    so_far
}

// Where the blocks of N bytes of the class from i on end: by index, as said of `is_block`.
pub fn past_blocks<const N: usize, C: ByteClass>(s: &[u8], i: usize, class: C) -> usize
    ensures run { i ≤ length s.now → RunTo (C.holds class) s.now i result }
    ensures past { length s.now < i → result ≡ i }
{
    if (N == 0) | (s.len() < i) {
        return i;
    }
    let mut end = i;
    while N <= s.len() - end {
        if !is_block::<N, C>(s, end, class) {
            return end;
        }
        end += N;
    }
    end
}

// Where the bytes of the class from i on end.
pub fn run_end<C: ByteClass>(s: &[u8], i: usize, class: C) -> usize
    ensures { result ≡ i + length (take_while (C.holds class) (drop i s.now)) }
{
    if s.len() < i {
        return i;
    }
    for (n, b) in s[i..].iter().enumerate() {
        if !class.has(*b) {
            return i + n;
        }
    }
    s.len()
}
