// A line of a sheet: a run, and the runs of a line.
ghost use Rattle.std.specs.Prelude.{◌≡◌, []};
ghost use Rattle.text.specs.Chars.{is_letter};
ghost use Rattle.text.specs.Utf8.{chars};
ghost use Rattle.sheet.specs.Reader.{one_run, line};
ghost use Rattle.sheet.specs.Written.{written_runs};
ghost use Rattle.sheet.specs.Says.{Says, Weighs};
ghost use Rattle.sheet.specs.Keeps.{IsRun, runs_of, joined_by};

use crate::count::Count;
use crate::kind::{Kind, opening};
use crate::passage::{Gist, passage};
use crate::reading::Read;

#[derive(Clone, Copy)]
pub struct Run {
    pub kind: Kind,
    pub text: Gist,
}

// What is kept of the runs of a line: the counts of their written form, the last one's kind if there is one, whether no two touch that must not,
// whether the first character is a letter, and whether the last is another than 32. No `bool` says whether another field has a value.
#[derive(Clone, Copy)]
pub struct Runs {
    pub count: Count,
    pub last: Option<Kind>,
    pub apart: bool,
    pub letter: bool,
    pub solid: bool,
}

// The run that the page begins with.
fn one_run(page: &[u8]) -> Option<Read<Run>>
    ensures { Says IsRun (one_run (chars page.now)) result }
{
    let opening = opening(page);
    let kind = opening.value;
    let passage = passage(opening.rest);
    let text = passage.value;
    if !kind.suits(text) {
        return None;
    }
    let rest = kind.close(passage.rest)?;
    Some(Read {
        value: Run { kind, text },
        rest,
    })
}

// The library tests bytes and `char`s; c is any number, which a conversion would have to test first.
fn is_letter(c: u32) -> bool
    ensures { result ≡ is_letter c }
{
    text::within(65, 90, c) | text::within(97, 122, c)
}

impl Runs {
    // No run yet.
    fn new() -> Runs
        ensures { result ≡ runs_of [] }
    {
        Runs {
            count: Count { bytes: 0, chars: 0 },
            last: None,
            apart: true,
            letter: false,
            solid: false,
        }
    }

    // One run more.
    fn push(self, run: Run) -> Runs
        ensures { result ≡ joined_by self run }
    {
        let text = run.text;
        let begins = text.edges.is_some_and(|edges| is_letter(edges.first));
        let solid = text.edges.is_some_and(|edges| edges.last != 32);
        let touches = self.last.is_some_and(|last| last.touches(run.kind));
        let signs = Count::ascii(2 * run.kind.sign().len());
        let count = self.count + (signs + text.count);
        Runs {
            count,
            last: Some(run.kind),
            apart: self.apart & !touches,
            letter: if self.last.is_some() {
                self.letter
            } else {
                begins
            },
            solid,
        }
    }
}

// The line that the page begins with: its runs, as far as they go.
pub fn line(page: &[u8]) -> Option<Read<Count>>
    ensures { Says (Weighs written_runs) (line (chars page.now)) result }
{
    let mut runs = Runs::new();
    let mut rest = page;
    // Only a run that was read says where the next begins.
    while let Some(read) = one_run(rest) {
        runs = runs.push(read.value);
        rest = read.rest;
    }
    if runs.apart & runs.letter & runs.solid {
        return Some(Read {
            value: runs.count,
            rest,
        });
    }
    None
}
