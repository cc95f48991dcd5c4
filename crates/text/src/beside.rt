// UTF-8 tested 32 bytes at a time: each byte beside the three before it.
ghost use Rattle.std.specs.Prelude.{◌+◌, ◌≤◌, ◌<◌, ◌≡◌, true, length, drop, IfSome};
ghost use Rattle.text.specs.Utf8.{is_utf8};
ghost use Rattle.text.specs.Beside.{in_place, used, second, fits, AllFit, clear};

// A byte b and x, y and a before it go through the tests as plain numbers: a struct of them would have to be made for each of 32 bytes.

// Whether b is a tail where the bytes x, y and a before it ask for one, and nowhere else.
fn is_in_place(x: u8, y: u8, a: u8, b: u8) -> bool
    ensures { result ≡ in_place x y a b }
{
    let due = (0xC2 <= a) | (0xE0 <= y) | (0xF0 <= x);
    let tail = (0x80 <= b) & (b <= 0xBF);
    !(tail & !due) & !(due & !tail)
}

// A byte that UTF-8 has.
fn is_used(b: u8) -> bool
    ensures { result ≡ used b }
{
    (b != 0xC0) & (b != 0xC1) & (b < 0xF5)
}

// Whether b behind a makes no character that is overlong, a surrogate, or above 0x10FFFF.
fn is_second(a: u8, b: u8) -> bool
    ensures { result ≡ second a b }
{
    !((a == 0xE0) & (b < 0xA0))
        & !((a == 0xED) & (0xA0 <= b))
        & !((a == 0xF0) & (b < 0x90))
        & !((a == 0xF4) & (0x90 <= b))
}

// Whether b may follow x, y and a.
#[tactic(auto, unfolding(crate::specs::Beside::fits))]
fn is_fit(x: u8, y: u8, a: u8, b: u8) -> bool
    ensures { result ≡ fits x y a b }
{
    is_in_place(x, y, a, b) & is_used(b) & is_second(a, b)
}

// Whether the 32 bytes from i on fit, tested as in `is_block`.
fn is_fit_block(s: &[u8], i: usize) -> bool
    requires { (3 ≤ i) × (i + 32 ≤ length s.now) }
    ensures { result ≡ true → AllFit s.now i (i + 32) }
{
    let mut fit = true;
    for j in i..i + 32 {
        fit = fit & is_fit(s[j - 3], s[j - 2], s[j - 1], s[j]);
    }
    fit
}

// Whether no tail is due at j.
fn is_clear(s: &[u8], j: usize) -> bool
    requires { (3 ≤ j) × (j ≤ length s.now) }
    ensures { result ≡ clear s.now j }
{
    (s[j - 1] < 0xC2) & (s[j - 2] < 0xE0) & (s[j - 3] < 0xF0)
}

// The last of e, e - 1, e - 2 and e - 3 where no tail is due.
fn last_clear(s: &[u8], e: usize) -> Option<usize>
    requires { (7 ≤ e) × (e ≤ length s.now) }
    ensures { IfSome result (λ j. ((j ≤ e) × (e < j + 4)) × (clear s.now j ≡ true)) }
{
    for j in (e - 3..=e).rev() {
        if is_clear(s, j) {
            return Some(j);
        }
    }
    None
}

// An offset up to which whole characters stand from i on, so that s is UTF-8 from i on exactly if it is from there on; none where the next 32 bytes
// do not say.
pub(crate) fn past_block(s: &[u8], i: usize) -> Option<usize>
    requires { i ≤ length s.now }
    ensures { IfSome result (λ j. (is_utf8 (drop i s.now) ≡ is_utf8 (drop j s.now)) × ((i < j) × (j ≤ length s.now))) }
{
    if i < 3 {
        return None;
    }
    if s.len() - i < 32 {
        return None;
    }
    if !is_clear(s, i) {
        return None;
    }
    if !is_fit_block(s, i) {
        return None;
    }
    last_clear(s, i + 32)
}
