// A row of a table, made in the work buffer.
ghost use Rattle.std.specs.Prelude.{◌+◌, ◌-◌, ◌*◌, ◌≤◌, ◌≡◌, length, take, eqb};
ghost use Rattle.text.specs.Words.{trim_end_matches};
ghost use Rattle.text.specs.Part.{between};
ghost use Rattle.markdown.specs.Cells.{bar_size, dot_bytes, CellsIs, RowIs};
ghost use Rattle.text.specs.Utf8.{chars, Scalars};
ghost use Rattle.std.proofs.lemmas.List.Edits.{sets};

use crate::classes::Only;
use crate::lines::stands_at;
use text::{Part, run_end};

// Where s ends without the bytes b at its end.
fn end_without(s: &[u8], b: u8) -> usize
    ensures { (take result s.now ≡ trim_end_matches (λ x. eqb x b) s.now) × (result ≤ length s.now) }
{
    for last in (0..s.len()).rev() {
        if s[last] != b {
            return last + 1;
        }
    }
    0
}

// How long the ` | `, or the other `|`, is that s starts with.
fn bar_of(s: &[u8]) -> Option<usize>
    ensures { result ≡ bar_size s.now }
{
    if stands_at(s, 0, b" | ") {
        return Some(3);
    }
    if stands_at(s, 0, b"|") {
        return Some(1);
    }
    None
}

// Stores the cells of a part of the buffer from `at` on, behind that part, and answers where they end.
// The buffer comes whole, here and in `put_row`: what is read and what is written stand in it both, and it cannot be lent twice.
fn put_cells(work: &mut [u8], part: Part, at: usize) -> usize
    requires { (part.start ≤ part.end) × ((part.end ≤ at) × (at + 4 * (part.end - part.start) ≤ length work.old)) }
    ensures { CellsIs work.old work.new part.start part.end at result }
{
    let mut i = part.start;
    let mut k = at;
    // No iterator: a turn reads one byte or three of the buffer, and writes one or four of it.
    while i < part.end {
        let Some(n) = bar_of(&work[i..part.end]) else {
            work[k] = work[i];
            i += 1;
            k += 1;
            continue;
        };
        records::writer::put_bytes(work, k, b" \xC2\xB7 ");
        i += n;
        k += 4;
    }
    k
}

// Stores the row of a table that a part of the buffer is, as above.
pub(crate) fn put_row(work: &mut [u8], part: Part, at: usize) -> usize
    requires { (part.start ≤ part.end) × ((part.end ≤ at) × ((at + 4 * (part.end - part.start) ≤ length work.old) × Scalars (chars (between work.old part.start part.end)))) }
    ensures { RowIs work.old work.new part.start part.end at result }
{
    let Part { start, end } = part;
    let a = start + run_end(&work[start..end], 0, Only(b'|'));
    let b = a + end_without(&work[a..end], b'|');
    put_cells(work, Part { start: a, end: b }, at)
}
