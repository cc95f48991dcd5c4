// A tag's name, and what it says.
ghost use Rattle.std.specs.Prelude.{◌≡◌};
ghost use Rattle.html.specs.Page.{name_of};
ghost use Rattle.html.specs.Names.{folded, key, says};

use crate::{ListKind, Skipped, Step, Tag};

// An ASCII letter or digit in lower case.
fn folded(b: u8) -> Option<u8>
    ensures { result ≡ folded b }
{
    match b {
        b'0'..=b'9' | b'a'..=b'z' => Some(b),
        b'A'..=b'Z' => Some(b + 32),
        _ => None,
    }
}

// The name at the start of s as a number: each byte is a digit in base 76. Ten digits fit.
// Stays a number for a name: a match on the bytes in lower case took 1.36 to 1.40 times the instructions for each name.
fn key(s: &[u8]) -> Option<u64>
    ensures { result ≡ key (name_of s.now) }
{
    let mut k: u64 = 0;
    for (i, b) in s.iter().enumerate() {
        let Some(b) = folded(*b) else {
            return Some(k);
        };
        if i == 10 {
            return None;
        }
        k = k * 76 + u64::from(b - 47);
    }
    Some(k)
}

// What the name at the start of s says. Each number is the key of the name beside it, so that a name is compared with all of them at once.
// Stays a `match`: its arms are values, and a table of them would be searched by hand.
pub(crate) fn tag_of(s: &[u8]) -> Tag
    ensures { result ≡ says (name_of s.now) }
{
    let Some(number) = key(s) else {
        return Tag::Writes(Step::Other);
    };
    match number {
        174_180_310_129 => Tag::Skipped(Skipped::Script), // script
        2_299_349_426 => Tag::Skipped(Skipped::Style), // style
        4_334 => Tag::Writes(Step::Heading(1)), // h1
        4_335 => Tag::Writes(Step::Heading(2)), // h2
        4_336 => Tag::Writes(Step::Heading(3)), // h3
        4_337 => Tag::Writes(Step::Heading(4)), // h4
        4_338 => Tag::Writes(Step::Heading(5)), // h5
        4_339 => Tag::Writes(Step::Heading(6)), // h6
        65 => Tag::Writes(Step::Block), // p
        310_607 => Tag::Writes(Step::Block), // div
        4_382_965_425_423_649_586 => Tag::Writes(Step::Block), // blockquote
        2_324_238_210 => Tag::Writes(Step::Block), // table
        4_399 => Tag::Writes(Step::Block), // hr
        380_586 => Tag::Writes(Step::Pre), // pre
        3_943 => Tag::Writes(Step::Break), // br
        5_381 => Tag::List(ListKind::Unordered), // ul
        4_925 => Tag::List(ListKind::Ordered), // ol
        4_694 => Tag::Writes(Step::Item), // li
        5_311 => Tag::Writes(Step::Row), // tr
        5_297 => Tag::Writes(Step::Cell), // td
        5_301 => Tag::Writes(Step::Cell), // th
        174_747_501_612 => Tag::Writes(Step::Strong), // strong
        51 => Tag::Writes(Step::Strong), // b
        4_166 => Tag::Writes(Step::Emphasis), // em
        58 => Tag::Writes(Step::Emphasis), // i
        23_200_498 => Tag::Writes(Step::Code), // code
        _ => Tag::Writes(Step::Other),
    }
}
