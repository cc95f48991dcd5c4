// Bytes searched and compared.
ghost use Rattle.std.specs.Prelude.{◌+◌, ◌≤◌, ◌≡◌, true, ◌&&◌, [], ◌∷◌, length, take, drop};
ghost use Rattle.text.specs.Words.{str, starts, starts_with, index, find};
ghost use Rattle.text.specs.Run.{SeekTo, other};
ghost use Rattle.text.specs.Find.{found, comment_end};
ghost use Rattle.memchr.specs.Find.{IsFirstByte, is_byte};

// The first b of s.
fn position_of(s: &[u8], b: u8) -> Option<usize>
    ensures { IsFirstByte (is_byte b) s.now result }
{
    s.iter().position(|x| *x == b)
}

// The first b of s at or after i. Most that is looked for is near, so the first 8 bytes are looked at one by one:
// `memchr` alone takes 58 instructions in place of 25 where it is the fourth byte.
pub fn find(s: &[u8], i: usize, b: u8) -> Option<usize>
    ensures { result ≡ found i (index (b ∷ []) (drop i s.now)) }
{
    let rest = s.get(i..)?;
    let Some((near, far)) = rest.split_first_chunk::<8>() else {
        return Some(i + position_of(rest, b)?);
    };
    if let Some(n) = position_of(near, b) {
        return Some(i + n);
    }
    Some(i + 8 + memchr::memchr(b, far)?)
}

// Whether `-->` stands at none of the 32 places from i on, tested as in `is_block`. Asked only where i is a multiple of 8, so that a near place
// is found without it.
fn is_free_block(s: &[u8], i: usize) -> bool
    requires { i + 34 ≤ length s.now }
    ensures { result ≡ true → SeekTo (str "-->") s.now i (i + 32) }
{
    if i % 8 != 0 {
        return false;
    }
    let mut free = true;
    for k in 0..32 {
        let j = i + k;
        free = free & ((s[j] != b'-') | (s[j + 1] != b'-') | (s[j + 2] != b'>'));
    }
    free
}

// Whether `-->` stands at i.
fn is_close(s: &[u8], i: usize) -> bool
    requires { i + 3 ≤ length s.now }
    ensures { result ≡ starts "-->" (drop i s.now) }
{
    (s[i] == b'-') & (s[i + 1] == b'-') & (s[i + 2] == b'>')
}

// Whether x is no byte of `-->`. Where the byte after the next is none, it stands at none of the three places that reach it.
#[tactic(auto, unfolding(crate::specs::Run::other))]
fn is_outside(x: u8) -> bool
    ensures { result ≡ other 45 x && other 62 x }
{
    (x != b'-') & (x != b'>')
}

// `close` near the end of s, where no block is left. Each turn goes on by 1 or 3, so that a `for` over the places would be no plainer.
fn close_near(s: &[u8], i: usize) -> Option<usize>
    requires { i ≤ length s.now }
    ensures { result ≡ found i (find "-->" (drop i s.now)) }
{
    let mut j = i;
    while 3 <= s.len() - j {
        if is_outside(s[j + 2]) {
            j += 3;
            continue;
        }
        if is_close(s, j) {
            return Some(j);
        }
        j += 1;
    }
    None
}

// Where the first `-->` of s at or after i stands. No `memmem::find`: it takes 1.5 times the instructions where comments are empty, and 4.7 times
// those on `--x>` again and again. Each turn goes on by 1 or 32, so that a `for` over the places would be no plainer.
fn close(s: &[u8], i: usize) -> Option<usize>
    ensures { result ≡ found i (find "-->" (drop i s.now)) }
{
    if s.len() < i {
        return None;
    }
    let mut j = i;
    while 34 <= s.len() - j {
        if is_free_block(s, j) {
            j += 32;
            continue;
        }
        if is_close(s, j) {
            return Some(j);
        }
        j += 1;
    }
    close_near(s, j)
}

// Where a comment ends: after the first `-->` of s at or after i, or at the end of s.
pub fn comment_end(s: &[u8], i: usize) -> usize
    ensures { result ≡ comment_end s.now i }
{
    let Some(at) = close(s, i) else {
        return s.len();
    };
    at + 3
}

// Whether p stands at i.
pub fn starts_with(s: &[u8], i: usize, p: &[u8]) -> bool
    ensures { result ≡ starts_with p.now (drop i s.now) }
{
    match s.get(i..) {
        Some(rest) => rest.starts_with(p),
        None => p.is_empty(),
    }
}
