// The lists of a sheet: list reader and item reader call each other, the remaining bytes and the levels falling.
ghost use Rattle.std.specs.Prelude.{◌≡◌, ◌-◌, ◌≤◌};
ghost use Rattle.std.specs.Option.{unwrap_or};
ghost use Rattle.text.specs.Utf8.{chars};
ghost use Rattle.sheet.specs.Tree.{ul, ol};
ghost use Rattle.sheet.specs.Grammar.{opens, closes};
ghost use Rattle.sheet.specs.Reading.{◌<|>◌};
ghost use Rattle.sheet.specs.Reader.{marked, item, read_list};
ghost use Rattle.sheet.specs.Written.{place};
ghost use Rattle.sheet.specs.Weight.{weight};
ghost use Rattle.sheet.specs.Says.{Says, Strips, Weighs};
ghost use Rattle.sheet.specs.Forms.{row_lead, item_form, list_form, mark_of, IsMark};

use crate::count::Count;
use crate::line::line;
use crate::reading::{Read, after_newline, strip, tagged};

#[derive(Clone, Copy)]
pub enum Mark {
    Unordered,
    Ordered,
}

impl Mark {
    fn opens(self) -> &'static [u8]
        ensures { result.now ≡ opens (mark_of self) }
    {
        match self {
            Mark::Unordered => b"<ul>",
            Mark::Ordered => b"<ol>",
        }
    }

    // What follows the closing tag, where the page begins with it.
    fn close(self, page: &[u8]) -> Option<&[u8]>
        ensures { Strips (closes (mark_of self)) page.now result }
    {
        match self {
            Mark::Unordered => strip(page, b"</ul>"),
            Mark::Ordered => strip(page, b"</ol>"),
        }
    }

    // This mark, where the page begins with its opening tag. One line, as for a kind of run: a trait of both would be longer.
    fn opening(self, page: &[u8]) -> Option<Read<Mark>>
        ensures { Says IsMark (marked (mark_of self) (chars page.now)) result }
    {
        tagged(page, self.opens(), self)
    }

    // The place of the n-th item, where it is written.
    fn place(self, n: usize) -> Option<usize>
        ensures { unwrap_or result 0 ≡ place (mark_of self) n }
    {
        match self {
            Mark::Unordered => None,
            Mark::Ordered => Some(n),
        }
    }
}

// The opening tag of a list, where the page begins with one.
fn opening(page: &[u8]) -> Option<Read<Mark>>
    ensures { Says IsMark (marked ul (chars page.now) <|> marked ol (chars page.now)) result }
{
    Mark::Unordered
        .opening(page)
        .or_else(|| Mark::Ordered.opening(page))
}

// What stands before an item's line: byte 10, two spaces for each list around its own, `- ` or its place and `. `.
fn lead(depth: usize, place: Option<usize>) -> Count
    requires { depth ≤ 8 }
    ensures { result ≡ weight (row_lead depth (unwrap_or place 0)) }
{
    let magnitude = place.and_then(|n| n.checked_ilog10());
    let marker = magnitude.map_or(2, |k| k as usize + 3);
    Count::ascii(1 + depth * 2 + marker)
}

// The item that the page begins with, in which lists may be opened `levels` deep.
#[cycle(item_list)]
fn item(page: &[u8], levels: usize, place: Option<usize>) -> Option<Read<Count>>
    requires { levels ≤ 7 }
    ensures { Says (Weighs (item_form (7 - levels) (unwrap_or place 0))) (item (read_list levels) (chars page.now)) result }
{
    let start = strip(page, b"<li>")?;
    let line = line(start)?;
    let own = lead(7 - levels, place) + line.value;
    if let Some(rest) = strip(line.rest, b"</li>") {
        return Some(Read { value: own, rest });
    }
    let sub = list(after_newline(line.rest), levels)?;
    let rest = strip(after_newline(sub.rest), b"</li>")?;
    Some(Read {
        value: own + sub.value,
        rest,
    })
}

// The list that the page begins with, in which at most `levels` lists are open together, itself among them.
#[cycle(item_list)]
fn list(page: &[u8], levels: usize) -> Option<Read<Count>>
    requires { levels ≤ 8 }
    ensures { Says (Weighs (list_form (8 - levels))) (read_list levels (chars page.now)) result }
{
    let below = levels.checked_sub(1)?;
    let opening = opening(page)?;
    let mark = opening.value;
    let mut rest = after_newline(opening.rest);
    let mut count = Count::ascii(0);
    // A `for` that counts the items is no plainer: their number is asked behind the loop, which the item reader ends.
    let mut n: usize = 0;
    while let Some(read) = item(rest, below, mark.place(n + 1)) {
        rest = after_newline(read.rest);
        count = count + read.value;
        n += 1;
    }
    if n == 0 {
        return None;
    }
    let rest = mark.close(rest)?;
    Some(Read { value: count, rest })
}

// A list that is a block: at most 8 lists are open together.
pub fn outermost(page: &[u8]) -> Option<Read<Count>>
    ensures { Says (Weighs (list_form 0)) (read_list 8 (chars page.now)) result }
{
    list(page, 8)
}
