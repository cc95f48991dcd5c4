// The sheet test and the whole way of a sheet. Refusal 0 stands for no; the answer for yes is four bytes that count the written form's bytes, four that
// count its characters, the written form, and the records of its tree's blocks. `compare/run NOTES_RS cases` made them.
use crate::case::{Case, word};

// Whether the page's Markdown is the first n bytes of the form and records, and its records the others.
fn goes(page: &[u8], forms: &[u8], n: usize) -> bool {
    let mut work = [0u8; 98304];
    let mut markdown = [0u8; 32000];
    let Ok(k) = html::html_to_markdown(page, &mut work, &mut markdown) else {
        return false;
    };
    let written = text::front(&markdown, k);
    let mut result = [0u8; 65536];
    let Ok(m) = markdown::blocks(written, &mut work, &mut result) else {
        return false;
    };
    (written == text::front(forms, n)) & (text::front(&result, m) == text::past(forms, n))
}

// Whether a sheet's counts are those that are stored, both of them whole, and the page goes the whole way. The bytes that are there are all that is
// compared: where the file ends within an answer, the rest is not missed.
fn is_sheet(page: &[u8], stored: &[u8], bytes: usize, chars: usize) -> bool {
    (8 <= stored.len())
        & (word(stored) as usize == bytes)
        & (word(text::past(stored, 4)) as usize == chars)
        & goes(page, text::past(stored, 8), bytes)
}

pub(crate) fn agrees(case: Case) -> bool {
    match sheet::sheet(case.input) {
        Ok(Some(count)) => is_sheet(case.input, case.present, count.bytes, count.chars),
        Ok(None) => case.answer == Err(0),
        Err(refusal) => case.answer == Err(refusal.into()),
    }
}
