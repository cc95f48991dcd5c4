// Markers of items.
ghost use Rattle.std.specs.Prelude.{◌≡◌};
ghost use Rattle.std.specs.List.{list_all};
ghost use Rattle.text.specs.Chars.{is_digit};
ghost use Rattle.text.specs.Utf8.{chars};
ghost use Rattle.records.specs.Format.{is_bullet, is_ordinal, is_marker};

// Whether these are the three bytes of U+2022.
#[tactic(auto, using(crate::proofs::MarkerBytes::bullet_is))]
fn is_bullet(m: &[u8]) -> bool
    ensures { result ≡ is_bullet (chars m.now) }
{
    m == b"\xE2\x80\xA2".as_slice()
}

fn are_digits(m: &[u8]) -> bool
    ensures { result ≡ list_all is_digit m.now }
{
    m.iter().all(|b| text::is_digit(*b))
}

// 1 to 9 digits, and a full stop at the end.
#[tactic(auto, using(std::proofs::lemmas::Bool::Decides::nat_tests, crate::proofs::MarkerBytes::ordinal_is))]
fn is_ordinal(m: &[u8]) -> bool
    ensures { result ≡ is_ordinal m.now }
{
    let Some((last, digits)) = m.split_last() else {
        return false;
    };
    if !(1..=9).contains(&digits.len()) {
        return false;
    }
    if *last != b'.' {
        return false;
    }
    are_digits(digits)
}

// U+2022, or 1 to 9 digits and a full stop.
#[tactic(auto, using(crate::proofs::MarkerBytes::marker_is))]
pub(crate) fn is_marker(m: &[u8]) -> bool
    ensures { result ≡ is_marker (chars m.now) }
{
    is_bullet(m) || is_ordinal(m)
}
