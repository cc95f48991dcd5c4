// The state of a conversion.
ghost use Rattle.std.specs.Prelude.{◌≤◌};

use crate::Skipped;

// An array and how many of it are in use: there is no heap, so the open lists stand in fixed memory.
// Two flags: each is a fact of its own, and no value stands beside it.
// How many bytes of the lent output are written, how many lists are open, their numbers (0 for `ul`, for `ol` one more than the items begun; the
// output is full before one of them has 2 ^ 16), whether text is in `pre`, the tag whose text is being skipped, and whether a space is pending.
#[derive(Clone, Copy)]
pub struct Converter {
    pub len: usize,
    pub depth: usize,
    pub lists: [u16; Converter::MAX_LISTS],
    pub pre: bool,
    pub skip: Option<Skipped>,
    pub space: bool,
    ghost few_lists: { depth ≤ 64 },
}

impl Converter {
    ghost use Rattle.std.specs.Prelude.{◌≡◌, ℕ, List};
    ghost use Rattle.html.specs.State.{new};
    ghost use Rattle.html.specs.Struct.{state_of};

    // The longest notes text kept, in characters.
    pub const MAX_NOTES: usize = 8_000;

    // The output, in bytes, from which on no turn is taken.
    pub const MAX_OUT: usize = 16_000;

    // The most lists that are open together.
    pub const MAX_LISTS: usize = 64;

    // The longest HTML read, in bytes.
    pub const MAX_HTML: usize = 1_048_576;

    pub fn new() -> Self
        ensures { (w : List ℕ) → state_of result w ≡ new }
    {
        Converter {
            len: 0,
            depth: 0,
            lists: [0; Converter::MAX_LISTS],
            pre: false,
            skip: None,
            space: false,
        }
    }
}
