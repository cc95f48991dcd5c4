// The kinds of runs: their tags, their signs, and which text and which neighbours they may have.
ghost use Rattle.std.specs.Prelude.{◌≡◌};
ghost use Rattle.std.proofs.Math.Option.{some};
ghost use Rattle.text.specs.Utf8.{chars};
ghost use Rattle.sheet.specs.Grammar.{before, after, is_plain, has_em, touch};
ghost use Rattle.sheet.specs.Reader.{kind, opening};
ghost use Rattle.sheet.specs.Written.{sign};
ghost use Rattle.sheet.specs.Says.{Says, Strips};
ghost use Rattle.sheet.specs.Keeps.{IsKind, kind_of, suits};

use crate::passage::Gist;
use crate::reading::{Read, strip, tagged};

#[derive(Clone, Copy, PartialEq, Eq)]
pub enum Kind {
    Plain,
    Strong,
    Em,
    Both,
    Code,
}

impl Kind {
    // The tags before a run's text.
    fn opens(self) -> &'static [u8]
        ensures { result.now ≡ before (kind_of self) }
    {
        match self {
            Kind::Plain => b"",
            Kind::Strong => b"<strong>",
            Kind::Em => b"<em>",
            Kind::Both => b"<strong><em>",
            Kind::Code => b"<code>",
        }
    }

    // What follows the tags after a run's text, where the page begins with them. A call for each tag, which is a constant there: one call for a tag out of
    // a table takes 1.09 times as many instructions on short runs, and misses the bar of speed.
    pub fn close(self, page: &[u8]) -> Option<&[u8]>
        ensures { Strips (after (kind_of self)) page.now result }
    {
        match self {
            Kind::Plain => Some(page),
            Kind::Strong => strip(page, b"</strong>"),
            Kind::Em => strip(page, b"</em>"),
            Kind::Both => strip(page, b"</em></strong>"),
            Kind::Code => strip(page, b"</code>"),
        }
    }

    // This kind, where the page begins with its tags.
    fn opening(self, page: &[u8]) -> Option<Read<Kind>>
        ensures { Says IsKind (opening (kind_of self) (chars page.now)) result }
    {
        tagged(page, self.opens(), self)
    }

    // The sign before and after a run's written text: a table of its own, since it shares no text with that of the tags.
    pub fn sign(self) -> &'static [u8]
        ensures { result.now ≡ sign (kind_of self) }
    {
        match self {
            Kind::Plain => b"",
            Kind::Strong => b"**",
            Kind::Em => b"*",
            Kind::Both => b"***",
            Kind::Code => b"`",
        }
    }

    fn is_plain(self) -> bool
        ensures { result ≡ is_plain (kind_of self) }
    {
        self == Kind::Plain
    }

    fn has_em(self) -> bool
        ensures { result ≡ has_em (kind_of self) }
    {
        matches!(self, Kind::Em | Kind::Both)
    }

    // Whether two runs that touch must not.
    pub fn touches(self, other: Kind) -> bool
        ensures { result ≡ touch (kind_of self) (kind_of other) }
    {
        (self.is_plain() & other.is_plain()) | (self.has_em() & other.has_em())
    }

    // Whether a text may stand in a run of this kind: only a plain one may start or end with 32, and code holds nothing to be escaped.
    pub fn suits(self, text: Gist) -> bool
        ensures { result ≡ suits (kind_of self) text }
    {
        let edged = text
            .edges
            .is_some_and(|edges| (edges.first != 32) & (edges.last != 32));
        match self {
            Kind::Plain => text.single & text.edges.is_some(),
            Kind::Code => text.single & edged & text.calm,
            _ => text.single & edged,
        }
    }
}

// The kind whose tags the page begins with; a plain one where there is no tag of another.
pub fn opening(page: &[u8]) -> Read<Kind>
    ensures { kind (chars page.now) ≡ some (kind_of result.value, chars result.rest.now) }
{
    let plain = Read {
        value: Kind::Plain,
        rest: page,
    };
    Kind::Both
        .opening(page)
        .or_else(|| Kind::Strong.opening(page))
        .or_else(|| Kind::Em.opening(page))
        .or_else(|| Kind::Code.opening(page))
        .unwrap_or(plain)
}
