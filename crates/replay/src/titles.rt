// Sections by title: the input is the title's length in one byte, the title and the records; the answer is the part of the records that is the section,
// and empty where no heading has the title, since a section has its heading at least. `compare/run NOTES_RS cases` made them.
use crate::case::Case;

pub(crate) fn agrees(case: Case) -> bool {
    let (size, rest) = case.input.split_first().unwrap_or((&0, &[]));
    let title = text::front(rest, usize::from(*size));
    let records = text::past(rest, usize::from(*size));
    let part = sections::section(records, title);
    match sections::section_at(records, title) {
        Ok(Some(place)) => {
            let found = text::past(text::front(records, place.end), place.start);
            !part.is_empty() & (case.answer == Ok(part)) & (found == part)
        }
        Ok(None) => part.is_empty() & (case.answer == Ok(part)),
        Err(broken) => part.is_empty() & (case.answer == Err(broken.into())),
    }
}
