// Text as UTF-8 bytes.
// A text and an offset stay two parameters: blocks are tried at multiples of the text's own offset, and a slice of what is left would lose it.
// `find` and `is_utf8` were measured so.
#![tactic(auto)]

mod ascii;
mod beside;
mod classes;
mod decoding;
mod encoding;
mod parts;
mod runs;
mod search;
mod trimming;

pub use classes::{is_control, is_digit, is_scalar, is_space, within};
pub use decoding::{byte, code_at, is_utf8};
pub use encoding::{put, width};
pub use parts::{Part, cut_len, first, front, past};
pub use runs::{Ascii, Blank, ByteClass, past_blocks, run_end};
pub use search::{comment_end, find, starts_with};
pub use trimming::{end_of, start_of, trim};
