// What C is given for each answer. C has no Option and no Result, so each struct has the refusal's number, 0 where nothing is refused, and a number or a
// flag that says what the other fields are; whatever has no value is 0.
ghost use Rattle.std.specs.Prelude.{◌≡◌, Ok, Some, IfOk, IfErr};
ghost use Rattle.walker.specs.Numbers.{block_values, span_values, first_values, here_values};
ghost use Rattle.codes.specs.Calls.{codes_values};
ghost use Rattle.sections.specs.Calls.{section_values};
ghost use Rattle.sheet.specs.Calls.{answer};
ghost use Rattle.capi.specs.Values.{written_of, sheet_struct};
ghost use Rattle.capi.specs.Values.{block_struct, span_struct, first_struct, here_struct, part_struct, section_struct, codes_struct};

use codes::{CodesError, Found};
use sheet::{Count, NotUtf8};
use walker::{Block, Broken, Emphasis, Kind, Span};

// What a call that writes answers: the refusal's number, and how many bytes of the result it wrote.
#[repr(C)]
#[derive(Clone, Copy)]
pub struct Written {
    pub number: u32,
    pub length: usize,
}

impl<E: Into<u32>> From<Result<usize, E>> for Written {
    ghost from_gives = { λ answer c. IfOk answer (λ n. c ≡ written_of 0 n) × IfErr answer (λ e. E.converts e c.number × (c.length ≡ 0)) };

    fn from(answer: Result<usize, E>) -> Written {
        match answer {
            Ok(length) => Written { number: 0, length },
            Err(refusal) => Written {
                number: refusal.into(),
                length: 0,
            },
        }
    }
}

// A block: kind 0 is the end of the records, 1 a heading, 2 a paragraph, 3 an item. Where number is not 0, all else is 0.
#[repr(C)]
#[derive(Clone, Copy, Default)]
pub struct BlockAt {
    pub number: u32,
    pub kind: u32,
    pub level: usize,
    pub depth: usize,
    pub count: usize,
    pub next: usize,
}

impl From<Block> for BlockAt {
    ghost from_gives = { λ b c. c ≡ block_struct (block_values (Ok (Some b))) };

    fn from(block: Block) -> BlockAt {
        let (kind, level, depth) = match block.kind {
            Kind::Heading { level } => (1, level, 0),
            Kind::Paragraph => (2, 0, 0),
            Kind::Item { depth } => (3, 0, depth),
        };
        BlockAt {
            number: 0,
            kind,
            level,
            depth,
            count: block.count,
            next: block.next,
        }
    }
}

impl From<Result<Option<Block>, Broken>> for BlockAt {
    ghost from_gives = { λ answer c. c ≡ block_struct (block_values answer) };

    fn from(answer: Result<Option<Block>, Broken>) -> BlockAt {
        match answer {
            Ok(Some(block)) => block.into(),
            Ok(None) => BlockAt::default(),
            Err(broken) => BlockAt {
                number: broken.into(),
                ..BlockAt::default()
            },
        }
    }
}

// A span's emphasis: kind 0 is the end of the block's spans, 1 a span.
#[repr(C)]
#[derive(Clone, Copy, Default)]
pub struct SpanAt {
    pub number: u32,
    pub kind: u32,
    pub bold: u32,
    pub italic: u32,
    pub code: u32,
}

impl From<Result<Option<Emphasis>, Broken>> for SpanAt {
    ghost from_gives = { λ answer c. c ≡ span_struct (span_values answer) };

    fn from(answer: Result<Option<Emphasis>, Broken>) -> SpanAt {
        match answer {
            Ok(Some(emphasis)) => SpanAt {
                number: 0,
                kind: 1,
                bold: emphasis.bold.into(),
                italic: emphasis.italic.into(),
                code: emphasis.code.into(),
            },
            Ok(None) => SpanAt::default(),
            Err(broken) => SpanAt {
                number: broken.into(),
                ..SpanAt::default()
            },
        }
    }
}

// Where the first span of a block stands; 0 at the end of the records.
#[repr(C)]
#[derive(Clone, Copy)]
pub struct FirstAt {
    pub number: u32,
    pub at: usize,
}

impl From<Result<Option<usize>, Broken>> for FirstAt {
    ghost from_gives = { λ answer c. c ≡ first_struct (first_values answer) };

    fn from(answer: Result<Option<usize>, Broken>) -> FirstAt {
        match answer {
            Ok(first) => FirstAt {
                number: 0,
                at: first.unwrap_or(0),
            },
            Err(no_block) => FirstAt {
                number: no_block.into(),
                at: 0,
            },
        }
    }
}

// A span by its own offset: its emphasis, its text, and where the next span stands.
#[repr(C)]
#[derive(Clone, Copy, Default)]
pub struct HereAt {
    pub number: u32,
    pub bold: u32,
    pub italic: u32,
    pub code: u32,
    pub start: usize,
    pub length: usize,
    pub next: usize,
}

impl From<Result<Span, Broken>> for HereAt {
    ghost from_gives = { λ answer c. c ≡ here_struct (here_values answer) };

    fn from(answer: Result<Span, Broken>) -> HereAt {
        match answer {
            Ok(span) => {
                let text = Part::from(span.text);
                HereAt {
                    number: 0,
                    bold: span.emphasis.bold.into(),
                    italic: span.emphasis.italic.into(),
                    code: span.emphasis.code.into(),
                    start: text.start,
                    length: text.length,
                    next: span.next,
                }
            }
            Err(broken) => HereAt {
                number: broken.into(),
                ..HereAt::default()
            },
        }
    }
}

// A part of the records.
#[repr(C)]
#[derive(Clone, Copy)]
pub struct Part {
    pub start: usize,
    pub length: usize,
}

impl From<text::Part> for Part {
    ghost from_gives = { λ p c. c ≡ part_struct p };

    fn from(part: text::Part) -> Part {
        Part {
            start: part.start,
            length: part.end.saturating_sub(part.start),
        }
    }
}

// A section, a part of the records: found is 1, or 0 where no heading has the title.
#[repr(C)]
#[derive(Clone, Copy, Default)]
pub struct SectionAt {
    pub number: u32,
    pub found: u32,
    pub start: usize,
    pub length: usize,
}

impl From<Result<Option<text::Part>, Broken>> for SectionAt {
    ghost from_gives = { λ answer c. c ≡ section_struct (section_values answer) };

    fn from(answer: Result<Option<text::Part>, Broken>) -> SectionAt {
        match answer {
            Ok(Some(section)) => {
                let part = Part::from(section);
                SectionAt {
                    number: 0,
                    found: 1,
                    start: part.start,
                    length: part.length,
                }
            }
            Ok(None) => SectionAt::default(),
            Err(broken) => SectionAt {
                number: broken.into(),
                ..SectionAt::default()
            },
        }
    }
}

// For each code the first block that contains it: found is 1 and blocks has that block's number, or both are 0, where none does and behind the codes.
#[repr(C)]
#[derive(Clone, Copy)]
pub struct CodesFound {
    pub number: u32,
    pub visited: usize,
    pub found: [u32; 16],
    pub blocks: [usize; 16],
}

impl From<Result<Found, CodesError>> for CodesFound {
    ghost from_gives = { λ answer c. c ≡ codes_struct (codes_values answer) };

    fn from(answer: Result<Found, CodesError>) -> CodesFound {
        match answer {
            Ok(found) => CodesFound {
                number: 0,
                visited: found.visited,
                found: found.blocks.map(|block| block.is_some().into()),
                blocks: found.blocks.map(|block| block.unwrap_or(0)),
            },
            Err(error) => CodesFound {
                number: error.into(),
                visited: 0,
                found: [0; 16],
                blocks: [0; 16],
            },
        }
    }
}

// The sheet test's answer: yes is 1 or 0, with both counts.
#[repr(C)]
#[derive(Clone, Copy, Default)]
pub struct Tested {
    pub number: u32,
    pub yes: u32,
    pub bytes: usize,
    pub characters: usize,
}

impl From<Result<Option<Count>, NotUtf8>> for Tested {
    ghost from_gives = { λ verdict c. c ≡ sheet_struct (answer verdict) };

    fn from(verdict: Result<Option<Count>, NotUtf8>) -> Tested {
        match verdict {
            Ok(Some(count)) => Tested {
                number: 0,
                yes: 1,
                bytes: count.bytes,
                characters: count.chars,
            },
            Ok(None) => Tested::default(),
            Err(not_utf8) => Tested {
                number: not_utf8.into(),
                ..Tested::default()
            },
        }
    }
}
