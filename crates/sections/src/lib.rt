// Sections: a heading and all blocks up to the next heading of the same or a smaller level, found by the heading's text (document 02, U9).
// The records are read by the walker's public calls alone, and the proofs stand on its specs and theorems and on those of crate `records`: nothing here
// uses the walker's inner readers. Each block is read a fixed number of times.
// Records and title stay two parameters: both are the caller's, and a struct of them would be made by each public call only to be taken apart.
#![tactic(auto)]

ghost use Rattle.std.specs.Prelude.{◌≡◌};
ghost use Rattle.walker.specs.Answers.{found_at, block_answer, count_of};
ghost use Rattle.sections.specs.Calls.{section_answer, section_range, section_part, section_values};
ghost use Rattle.sections.specs.Readers.{has_text, level_if, closes_at, end_answer, end_values, heading_values};

use text::{Part, starts_with};
use walker::{Block, Broken, Kind, block_at, first_at, here_at, is_whole};

// Whether the joined span text of the block at an offset, which has this span count, is the title. The texts are compared one by one.
fn is_titled(records: &[u8], at: usize, count: usize, title: &[u8]) -> bool
    requires { count ≡ count_of (block_answer records.now at) }
    ensures { result ≡ has_text title.now (found_at records.now at) }
{
    let Ok(Some(first)) = first_at(records, at) else {
        return false;
    };
    let mut here = first;
    let mut met = 0;
    for _n in 0..count {
        let Ok(span) = here_at(records, here) else {
            return false;
        };
        let text = span.text.of(records);
        if !starts_with(title, met, text) {
            return false;
        }
        met += text.len();
        here = span.next;
    }
    met == title.len()
}

// The level of a block that is a heading with the title.
fn titled_level(records: &[u8], at: usize, block: Block, title: &[u8]) -> Option<usize>
    requires { block.count ≡ count_of (block_answer records.now at) }
    ensures { result ≡ level_if (has_text title.now (found_at records.now at)) block.kind }
{
    let Kind::Heading { level } = block.kind else {
        return None;
    };
    if is_titled(records, at, block.count, title) {
        Some(level)
    } else {
        None
    }
}

// A heading: where it stands, its level, and where the block after it stands.
#[derive(Clone, Copy)]
struct Heading {
    start: usize,
    level: usize,
    next: usize,
}

// The first heading with the title.
fn heading_at(records: &[u8], title: &[u8]) -> Result<Option<Heading>, Broken>
    ensures { heading_values records.now result ≡ section_answer records.now title.now }
{
    let mut at = 0;
    while let Some(block) = block_at(records, at)? {
        if let Some(level) = titled_level(records, at, block, title) {
            return Ok(Some(Heading {
                start: at,
                level,
                next: block.next,
            }));
        }
        at = block.next;
    }
    Ok(None)
}

// Whether a block of this kind ends a section of a level.
fn closes(kind: Kind, level: usize) -> bool
    ensures { result ≡ closes_at level kind }
{
    matches!(kind, Kind::Heading { level: other } if other <= level)
}

// Where a section of a level ends: at the first heading, from an offset on, of the same or a smaller level, or at the records' end.
fn end_at(records: &[u8], from: usize, level: usize) -> Result<usize, Broken>
    ensures { end_values records.now result ≡ end_answer records.now from level }
{
    let mut at = from;
    while let Some(block) = block_at(records, at)? {
        if closes(block.kind, level) {
            return Ok(at);
        }
        at = block.next;
    }
    Ok(at)
}

// Where the first section whose heading has the title stands in the records; none where no heading has it. All the records are read.
#[tactic(auto, using(crate::proofs::CallLaws::end_whole, crate::proofs::CallLaws::end_broken))]
pub fn section_at(records: &[u8], title: &[u8]) -> Result<Option<Part>, Broken>
    ensures { section_values result ≡ section_answer records.now title.now }
{
    let Some(heading) = heading_at(records, title)? else {
        return Ok(None);
    };
    let end = end_at(records, heading.next, heading.level)?;
    if is_whole(records, end) {
        Ok(Some(Part {
            start: heading.start,
            end,
        }))
    } else {
        Err(Broken)
    }
}

// Where the section stands, and 0 to 0 where there is none: as `section` promises an empty part.
fn section_range(records: &[u8], title: &[u8]) -> Part
    ensures { result ≡ section_range records.now title.now }
{
    let Ok(Some(range)) = section_at(records, title) else {
        return Part { start: 0, end: 0 };
    };
    range
}

// The section itself, a part of the records; empty where there is none, and where they are broken.
pub fn section<'a>(records: &'a [u8], title: &[u8]) -> &'a [u8]
    ensures { result ≡ section_part records.entry title.now }
{
    section_range(records, title).of(records)
}
