// The converter: a release page, HTML, as Markdown with only headings, emphasis, code and lists.
#![tactic(auto)]

ghost use Rattle.std.specs.Prelude.{◌≡◌, length};
ghost use Rattle.text.specs.Outcome.{number, returned, result_after, work_kept};
ghost use Rattle.html.specs.Calls.{html_to_markdown_call};
ghost use Rattle.html.specs.Answers.{error_number, answer_number, answer_length};
ghost use Rattle.html.specs.declared.PageError.TheVariants.{TooManyLists as lists_refused};

mod converter;
mod finish;
mod names;
mod output;
mod page;
mod tags;
mod words;

pub use converter::Converter;
use finish::finish;
use page::convert;
pub use words::special;

// Why there is no Markdown for a page.
// Stays beside markdown's error: each call refuses for reasons of its own, and one type for both would have cases that a call never answers.
#[derive(Clone, Copy, PartialEq, Eq, Debug)]
pub enum PageError {
    NotUtf8,
    SmallWork,
    SmallResult,
    TooManyLists,
}

// A list that would be the 65th open.
#[derive(Clone, Copy, PartialEq, Eq, Debug)]
pub struct TooManyLists;

// A tag whose text is skipped.
#[derive(Clone, Copy, PartialEq, Eq)]
pub enum Skipped {
    Script,
    Style,
}

// A list with bullets, or one with numbers.
#[derive(Clone, Copy, PartialEq, Eq)]
pub enum ListKind {
    Unordered,
    Ordered,
}

// The tags that only write.
// Stays an enum of mixed cases: a heading alone has something to say beside its name, and none of the cases is a failure.
#[derive(Clone, Copy, PartialEq, Eq)]
pub enum Step {
    Heading(usize),
    Block,
    Pre,
    Break,
    Item,
    Row,
    Cell,
    Strong,
    Emphasis,
    Code,
    Other,
}

// What a tag's name says: a list, a tag whose text is skipped, or one that only writes.
#[derive(Clone, Copy, PartialEq, Eq)]
pub enum Tag {
    List(ListKind),
    Skipped(Skipped),
    Writes(Step),
}

// What a turn over a page leaves: the rest of the page, and the state.
// Stays beside sheet's `Read`: that type is of the crate above, and holds something read, where this holds the state of the whole.
#[derive(Clone, Copy)]
pub struct Turned<'a> {
    pub rest: &'a [u8],
    pub state: Converter,
}

// The number of a refusal, for C and for the program that writes it.
// Stays a `match`: numbers at the cases and a cast would be no shorter, and the contract has this table (`error_number`).
impl From<PageError> for u32 {
    ghost from_gives = { λ e n. n ≡ error_number e };

    fn from(error: PageError) -> u32 {
        match error {
            PageError::NotUtf8 => 1,
            PageError::SmallWork => 2,
            PageError::SmallResult => 3,
            PageError::TooManyLists => 4,
        }
    }
}

impl From<TooManyLists> for PageError {
    ghost from_gives = { λ _ e. e ≡ lists_refused };

    fn from(_refused: TooManyLists) -> PageError {
        Self::TooManyLists
    }
}

// GitHub's release HTML as Markdown with only headings, emphasis, code and lists, in the front of `result`. The output is built in `work`.
pub fn html_to_markdown(page: &[u8], work: &mut [u8], res: &mut [u8]) -> Result<usize, PageError>
    ensures result_value { (answer_number result ≡ number (html_to_markdown_call page.now (length work.old) (length res.old))) × (answer_length result ≡ returned (html_to_markdown_call page.now (length work.old) (length res.old))) }
    ensures res_after { res.new ≡ result_after (html_to_markdown_call page.now (length work.old) (length res.old)) res.old }
    ensures work_unchanged { work_kept (html_to_markdown_call page.now (length work.old) (length res.old)) work.new ≡ work_kept (html_to_markdown_call page.now (length work.old) (length res.old)) work.old }
{
    if !text::is_utf8(page) {
        return Err(PageError::NotUtf8);
    }
    let n = text::cut_len(page, Converter::MAX_HTML);
    if work.len() < 2 * n + 16_384 {
        return Err(PageError::SmallWork);
    }
    if res.len() < 4 * Converter::MAX_NOTES {
        return Err(PageError::SmallResult);
    }
    if n == 0 {
        return Ok(0);
    }
    let c = convert(work, &page[..n])?;
    Ok(finish(&work[..c.len], res))
}
