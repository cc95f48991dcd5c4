// A page as text, comments and tags: the loop of `html_to_markdown`.
ghost use Rattle.std.specs.Prelude.{◌≡◌, ◌+◌, ◌*◌, ◌^◌, ◌≤◌, ◌<◌, IfOk, length, get_or};
ghost use Rattle.text.specs.Find.{until};
ghost use Rattle.text.specs.Utf8.{Scalars, chars};
ghost use Rattle.html.specs.State.{new};
ghost use Rattle.html.specs.Page.{name_of, element, inside, words, markup, turn, loop};
ghost use Rattle.html.specs.Struct.{state_of, lists_of, number, tagged, turned, left, TagRoom};

use crate::names::tag_of;
use crate::{Converter, Tag, TooManyLists, Turned};

impl Converter {
    // A tag by its name, outside and inside `script` and `style`.
    fn element(mut self, out: &mut [u8], name: &[u8], closing: bool) -> Result<Self, TooManyLists>
        requires { TagRoom self out.old }
        ensures { tagged result out.new ≡ element closing (name_of name.now) (state_of self out.old) }
    {
        let tag = tag_of(name);
        if let Some(skipping) = self.skip {
            if !closing || tag != Tag::Skipped(skipping) {
                return Ok(self);
            }
            self.skip = None;
            return Ok(self);
        }
        match tag {
            Tag::Skipped(named) if !closing => {
                self.skip = Some(named);
                Ok(self)
            }
            _ => self.tag(out, tag, closing),
        }
    }

    // What stands between `<` and `>`, trimmed.
    fn inside(self, out: &mut [u8], inner: &[u8]) -> Result<Self, TooManyLists>
        requires { TagRoom self out.old }
        ensures { tagged result out.new ≡ inside (chars inner.now) (state_of self out.old) }
    {
        let rest = inner.strip_prefix(b"/");
        self.element(out, rest.unwrap_or(inner), rest.is_some())
    }

    // Text, unless it is skipped.
    fn words(self, out: &mut [u8], raw: &[u8]) -> Self
        requires { (self.len + 2 + 2 * length raw.now ≤ length out.old) × Scalars (chars raw.now) }
        ensures { state_of result out.new ≡ words (chars raw.now) (state_of self out.old) }
    {
        match self.skip {
            None => self.text(out, raw),
            Some(_) => self,
        }
    }

    // What the page starts with, from a `<` on: a comment or a tag.
    fn markup<'a>(self, out: &mut [u8], page: &'a [u8]) -> Result<Turned<'a>, TooManyLists>
        requires mark { (0 < length page.now) × (get_or page.now 0 0 ≡ 60) }
        requires room { TagRoom self out.old }
        ensures left { turned result out.new ≡ left (chars page.now) (markup 0 (chars page.now) (state_of self out.old)) }
        ensures shorter { IfOk result (λ t. length t.rest.now < length page.now) }
    {
        if text::starts_with(page, 0, b"<!--") {
            let end = text::comment_end(page, 4);
            return Ok(Turned {
                rest: &page[end..],
                state: self,
            });
        }
        let Some(gt) = text::find(page, 0, b'>') else {
            return Ok(Turned {
                rest: &[],
                state: self,
            });
        };
        let state = self.inside(out, text::trim(&page[1..gt]))?;
        Ok(Turned {
            rest: &page[gt + 1..],
            state,
        })
    }

    // One turn: the text up to a `<`, and the comment or the tag that starts there.
    fn turn<'a>(self, out: &mut [u8], page: &'a [u8]) -> Result<Turned<'a>, TooManyLists>
        requires some { (0 < length page.now) × Scalars (chars page.now) }
        requires room { self.len + 151 + 2 * length page.now ≤ length out.old }
        requires number_bound { number (lists_of self) + 1 < 2 ^ 16 }
        ensures left { turned result out.new ≡ left (chars page.now) (turn (chars page.now) (state_of self out.old)) }
        ensures shorter { IfOk result (λ t. length t.rest.now < length page.now) }
    {
        let (text, markup) = page.split_at(text_len(page));
        let state = self.words(out, text);
        if markup.is_empty() {
            return Ok(Turned {
                rest: markup,
                state,
            });
        }
        state.markup(out, markup)
    }
}

// How long the text is that a page starts with: up to a `<`, or all of it.
fn text_len(page: &[u8]) -> usize
    ensures { result ≡ length (until 60 page.now) }
{
    text::find(page, 0, b'<').unwrap_or(page.len())
}

// All turns, until the page or the room for notes is used up.
// Stays a `while`: a turn starts where the last one ended, so no `for` goes through the page.
pub(crate) fn convert(out: &mut [u8], html: &[u8]) -> Result<Converter, TooManyLists>
    requires { (2 * length html.now + 16384 ≤ length out.old) × Scalars (chars html.now) }
    ensures out_after { tagged result out.new ≡ loop 0 (chars html.now) new }
    ensures len_in_bounds { IfOk result (λ c. c.len ≤ length out.new) }
{
    let mut state = Converter::new();
    let mut rest = html;
    while !rest.is_empty() && state.len < Converter::MAX_OUT {
        let turned = state.turn(out, rest)?;
        state = turned.state;
        rest = turned.rest;
    }
    Ok(state)
}
