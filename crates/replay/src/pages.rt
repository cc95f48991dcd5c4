// The converter: the answers are those of the Rust's `html_to_markdown`, made by `tools/replay-data NOTES_RS`.
use crate::case::Case;

pub(crate) fn agrees(case: Case) -> bool {
    let mut work = [0u8; 49152];
    let mut result = [0u8; 32000];
    let answer = html::html_to_markdown(case.input, &mut work, &mut result);
    case.is(answer, &result)
}
