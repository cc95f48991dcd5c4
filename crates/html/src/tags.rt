// What each tag does: `block`, `newline`, `marks` and `tag` of notes.rs.
// The lent output and `closing` stay two parameters: a struct of both would be made for each tag and taken apart in each step.
// How much room a step needs (`self.len + n ≤ ..`) is its own number, so that each contract says it.
ghost use Rattle.std.specs.Prelude.{◌≡◌, ℕ, ◌+◌, ◌^◌, ◌≤◌, ◌<◌, min, length};
ghost use mathlib.Core.List.{List, ◌∷◌, tail};
ghost use Rattle.html.specs.State.{block, newline, marks, list_changed, item, tag, with_lists, heading, pre, br, li, tr, cell, code};
ghost use Rattle.text.specs.Chars.{Ascii};
ghost use Rattle.html.specs.Page.{listed};
ghost use Rattle.html.specs.Struct.{state_of, lists_of, number, first_number, step_means, tag_means, tagged, ended, list_tag, TagRoom};

use crate::output::{blocked, line_ended, push, push_all, push_number, push_times, spaced};
use crate::{Converter, ListKind, Step, Tag, TooManyLists};

impl ListKind {
    // The number that such a list starts with.
    // Stays 0 for a list without numbers: the state has the number of a list's next item so, for notes.rs too.
    fn first(self) -> u16
        ensures { result ≡ first_number self }
    {
        match self {
            ListKind::Unordered => 0,
            ListKind::Ordered => 1,
        }
    }
}

impl Converter {
    // A blank line before the next block.
    pub(crate) fn block(mut self, out: &mut [u8]) -> Self
        requires { self.len + 2 ≤ length out.old }
        ensures { state_of result out.new ≡ block (state_of self out.old) }
    {
        self.len = blocked(out, self.len);
        self.space = false;
        self
    }

    // Stays beside `block`: the two call different functions, and a generic one would take the function and its definition as parameters.
    pub(crate) fn newline(mut self, out: &mut [u8]) -> Self
        requires { self.len + 1 ≤ length out.old }
        ensures { state_of result out.new ≡ newline (state_of self out.old) }
    {
        self.len = line_ended(out, self.len);
        self.space = false;
        self
    }

    pub(crate) fn marks(mut self, out: &mut [u8], mark: &[u8], closing: bool) -> Self
        requires { (self.len + 1 + length mark.now ≤ length out.old) × Ascii mark.now }
        ensures { state_of result out.new ≡ marks mark.now closing (state_of self out.old) }
    {
        if closing {
            self.len = push_all(out, self.len, mark);
            return self;
        }
        let n = spaced(out, self.len, self.space);
        self.space = false;
        self.len = push_all(out, n, mark);
        self
    }

    fn opened(mut self, first: u16) -> Self
        requires { self.depth < 64 }
        ensures { (w : List ℕ) → state_of result w ≡ with_lists (first ∷ lists_of self) (state_of self w) }
    {
        self.lists[self.depth] = first;
        self.depth += 1;
        self
    }

    fn closed(mut self) -> Self
        ensures { (w : List ℕ) → state_of result w ≡ with_lists (tail (lists_of self)) (state_of self w) }
    {
        self.depth = self.depth.saturating_sub(1);
        self
    }

    // An item's marker, after two spaces for each list around the innermost.
    fn item(mut self, out: &mut [u8]) -> Self
        requires len_in_bounds { self.len + 148 ≤ length out.old }
        requires number_bound { number (lists_of self) + 1 < 2 ^ 16 }
        ensures { state_of result out.new ≡ item (lists_of self) (state_of self out.old) }
    {
        let d = self.depth;
        if d == 0 {
            self.len = push_all(out, self.len, b"- ");
            return self;
        }
        let n = self.lists[d - 1];
        let indented = push_times(out, self.len, b' ', 2 * (d - 1));
        if n == 0 {
            self.len = push_all(out, indented, b"- ");
            return self;
        }
        let numbered = push_number(out, indented, n as usize);
        self.len = push_all(out, numbered, b". ");
        self.lists[d - 1] = n + 1;
        self
    }

    // A new line after a list opened or closed, a blank one where none is open.
    fn changed(mut self, out: &mut [u8]) -> Self
        requires { self.len + 3 ≤ length out.old }
        ensures { state_of result out.new ≡ list_changed (lists_of self) (state_of self out.old) }
    {
        let d = self.depth;
        self = self.newline(out);
        if d == 0 {
            return self.block(out);
        }
        self
    }

    // `ul` and `ol`.
    fn list(mut self, out: &mut [u8], kind: ListKind, closing: bool) -> Result<Self, TooManyLists>
        requires { self.len + 3 ≤ length out.old }
        ensures { tagged result out.new ≡ list_tag (first_number kind) closing (state_of self out.old) }
    {
        if closing {
            self = self.closed();
            return Ok(self.changed(out));
        }
        if self.depth == Self::MAX_LISTS {
            return Err(TooManyLists);
        }
        self = self.opened(kind.first());
        Ok(self.changed(out))
    }

    fn heading(mut self, out: &mut [u8], level: usize, closing: bool) -> Self
        requires { self.len + 6 ≤ length out.old }
        ensures { state_of result out.new ≡ tag (heading level) closing (state_of self out.old) }
    {
        self = self.block(out);
        if closing {
            return self;
        }
        let n = push_times(out, self.len, b'#', level.min(3));
        self.len = push(out, n, b' ');
        self
    }

    // Text that ends a pending space.
    fn ended(mut self, out: &mut [u8], bytes: &[u8]) -> Self
        requires { (self.len + length bytes.now ≤ length out.old) × Ascii bytes.now }
        ensures { state_of result out.new ≡ ended bytes.now (state_of self out.old) }
    {
        self.len = push_all(out, self.len, bytes);
        self.space = false;
        self
    }

    fn pre_tag(mut self, out: &mut [u8], closing: bool) -> Self
        requires { self.len + 2 ≤ length out.old }
        ensures { state_of result out.new ≡ tag pre closing (state_of self out.old) }
    {
        self = self.block(out);
        self.pre = !closing;
        self
    }

    fn line_break(self, out: &mut [u8], closing: bool) -> Self
        requires { self.len + 1 ≤ length out.old }
        ensures { state_of result out.new ≡ tag br closing (state_of self out.old) }
    {
        if closing {
            return self;
        }
        self.ended(out, b"\n")
    }

    fn list_item(mut self, out: &mut [u8], closing: bool) -> Self
        requires { TagRoom self out.old }
        ensures { state_of result out.new ≡ tag li closing (state_of self out.old) }
    {
        if closing {
            return self;
        }
        self = self.newline(out);
        self.item(out)
    }

    fn row(self, out: &mut [u8], closing: bool) -> Self
        requires { self.len + 1 ≤ length out.old }
        ensures { state_of result out.new ≡ tag tr closing (state_of self out.old) }
    {
        if closing {
            return self.newline(out);
        }
        self
    }

    fn cell(self, out: &mut [u8], closing: bool) -> Self
        requires { self.len + 3 ≤ length out.old }
        ensures { state_of result out.new ≡ tag cell closing (state_of self out.old) }
    {
        if closing {
            return self.ended(out, b" | ");
        }
        self
    }

    fn code(self, out: &mut [u8], closing: bool) -> Self
        requires { self.len + 2 ≤ length out.old }
        ensures { state_of result out.new ≡ tag code closing (state_of self out.old) }
    {
        if self.pre {
            return self;
        }
        self.marks(out, b"`", closing)
    }

    // A tag that only writes.
    // Stays a `match`: each arm is one step with arguments of its own, so a table of steps would need one more function for each.
    fn step(self, out: &mut [u8], step: Step, closing: bool) -> Self
        requires { TagRoom self out.old }
        ensures { state_of result out.new ≡ tag (step_means step) closing (state_of self out.old) }
    {
        match step {
            Step::Heading(level) => self.heading(out, level, closing),
            Step::Block => self.block(out),
            Step::Pre => self.pre_tag(out, closing),
            Step::Break => self.line_break(out, closing),
            Step::Item => self.list_item(out, closing),
            Step::Row => self.row(out, closing),
            Step::Cell => self.cell(out, closing),
            Step::Strong => self.marks(out, b"**", closing),
            Step::Emphasis => self.marks(out, b"*", closing),
            Step::Code => self.code(out, closing),
            Step::Other => self,
        }
    }

    // A tag's step.
    // Stays a `match`: the three kinds of tag take different arguments, and one of them alone can refuse.
    pub(crate) fn tag(
        mut self,
        out: &mut [u8],
        tag: Tag,
        closing: bool,
    ) -> Result<Self, TooManyLists>
        requires { TagRoom self out.old }
        ensures { tagged result out.new ≡ listed (tag_means tag) closing (state_of self out.old) }
    {
        match tag {
            Tag::List(kind) => self.list(out, kind, closing),
            Tag::Skipped(_) => Ok(self),
            Tag::Writes(step) => Ok(self.step(out, step, closing)),
        }
    }
}
