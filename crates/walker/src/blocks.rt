// What the walker finds: a block, a span, or that nothing well-formed stands there.
ghost use Rattle.std.specs.Prelude.{◌≡◌};

use text::Part;

// No well-formed block or span stands at the offset. The number of that refusal is 7.
#[derive(Clone, Copy, PartialEq, Eq, Debug)]
pub struct Broken;

impl From<Broken> for u32 {
    ghost from_gives = { λ _ n. n ≡ 7 };

    fn from(_e: Broken) -> u32 {
        7
    }
}

// What a block is. Some kinds have a number of their own, and none of them is a failure.
#[derive(Clone, Copy, PartialEq, Eq, Debug)]
pub enum Kind {
    Heading { level: usize },
    Paragraph,
    Item { depth: usize },
}

// How many spans a block has, its kind, and where the next block stands. The two numbers do not stand side by side: they would be read back as one
// before both are stored, and a walk over short blocks takes up to twice as long.
#[derive(Clone, Copy, PartialEq, Eq, Debug)]
pub struct Block {
    pub count: usize,
    pub kind: Kind,
    pub next: usize,
}

#[derive(Clone, Copy, PartialEq, Eq, Debug)]
pub struct Emphasis {
    pub bold: bool,
    pub italic: bool,
    pub code: bool,
}

// A span's emphasis, where its text stands, and where the next span stands, or the next block behind the last span.
#[derive(Clone, Copy)]
pub struct Span {
    pub emphasis: Emphasis,
    pub text: Part,
    pub next: usize,
}
