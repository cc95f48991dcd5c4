// The calls for C: numbers, and slices as a pointer and a length. include/release_notes.h says the same for a C programmer.
#![tactic(auto)]

ghost use Rattle.std.specs.Prelude.{◌≡◌, length};
ghost use Rattle.walker.specs.Answers.{block_answer, span_answer};
ghost use Rattle.walker.specs.Places.{marker_place, text_place, first_answer, here_answer};
ghost use Rattle.html.specs.Calls.{html_to_markdown_call};
ghost use Rattle.text.specs.Outcome.{result_after, work_kept};
ghost use Rattle.markdown.specs.Calls.{blocks_call};
ghost use Rattle.sheet.specs.Calls.{sheet_call};
ghost use Rattle.codes.specs.Calls.{codes_answer};
ghost use Rattle.sections.specs.Calls.{section_answer};
ghost use Rattle.capi.specs.Values.{written_struct, sheet_struct};
ghost use Rattle.capi.specs.Values.{block_struct, span_struct, first_struct, here_struct, part_struct, section_struct, codes_struct};

mod values;

pub use values::{BlockAt, CodesFound, FirstAt, HereAt, Part, SectionAt, SpanAt, Tested, Written};

#[unsafe(no_mangle)]
pub extern "C" fn rn_html_to_markdown(page: &[u8], work: &mut [u8], res: &mut [u8]) -> Written
    ensures value { result ≡ written_struct (html_to_markdown_call page.now (length work.old) (length res.old)) }
    ensures res_after { res.new ≡ result_after (html_to_markdown_call page.now (length work.old) (length res.old)) res.old }
    ensures work_unchanged { work_kept (html_to_markdown_call page.now (length work.old) (length res.old)) work.new ≡ work_kept (html_to_markdown_call page.now (length work.old) (length res.old)) work.old }
{
    html::html_to_markdown(page, work, res).into()
}

#[unsafe(no_mangle)]
pub extern "C" fn rn_blocks(markdown: &[u8], work: &mut [u8], res: &mut [u8]) -> Written
    ensures { (result ≡ written_struct (blocks_call markdown.now (length work.old) (length res.old)))
        × ((res.new ≡ result_after (blocks_call markdown.now (length work.old) (length res.old)) res.old)
        × (work_kept (blocks_call markdown.now (length work.old) (length res.old)) work.new
        ≡ work_kept (blocks_call markdown.now (length work.old) (length res.old)) work.old)) }
{
    markdown::blocks(markdown, work, res).into()
}

#[unsafe(no_mangle)]
pub extern "C" fn rn_block_at(records: &[u8], at: usize) -> BlockAt
    ensures { result ≡ block_struct (block_answer records.now at) }
{
    walker::block_at(records, at).into()
}

#[unsafe(no_mangle)]
pub extern "C" fn rn_span_at(records: &[u8], at: usize, n: usize) -> SpanAt
    ensures { result ≡ span_struct (span_answer records.now at n) }
{
    walker::span_at(records, at, n).into()
}

#[unsafe(no_mangle)]
pub extern "C" fn rn_marker_at(records: &[u8], at: usize) -> Part
    ensures { result ≡ part_struct (marker_place records.now at) }
{
    walker::marker_range(records, at).into()
}

#[unsafe(no_mangle)]
pub extern "C" fn rn_text_at(records: &[u8], at: usize, n: usize) -> Part
    ensures { result ≡ part_struct (text_place records.now at n) }
{
    walker::text_range(records, at, n).into()
}

#[unsafe(no_mangle)]
pub extern "C" fn rn_first_at(records: &[u8], at: usize) -> FirstAt
    ensures { result ≡ first_struct (first_answer records.now at) }
{
    walker::first_at(records, at).into()
}

#[unsafe(no_mangle)]
pub extern "C" fn rn_here_at(records: &[u8], at: usize) -> HereAt
    ensures { result ≡ here_struct (here_answer records.now at) }
{
    walker::here_at(records, at).into()
}

#[unsafe(no_mangle)]
pub extern "C" fn rn_section_at(records: &[u8], title: &[u8]) -> SectionAt
    ensures { result ≡ section_struct (section_answer records.now title.now) }
{
    sections::section_at(records, title).into()
}

#[unsafe(no_mangle)]
pub extern "C" fn rn_find_codes(records: &[u8], codes: &[u8], lengths: &[usize]) -> CodesFound
    ensures { result ≡ codes_struct (codes_answer records.now codes.now lengths.now) }
{
    codes::find_codes(records, codes, lengths).into()
}

#[unsafe(no_mangle)]
pub extern "C" fn rn_sheet(page: &[u8]) -> Tested
    ensures { result ≡ sheet_struct (sheet_call page.now) }
{
    sheet::sheet(page).into()
}
