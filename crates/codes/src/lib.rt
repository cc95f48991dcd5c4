// Many type codes in one walk over the records (document 02, U10). Each block is read a fixed number of times, by the walker's calls, its spans in turn, and
// the codes are looked for over the borders of spans.
#![tactic(auto)]

ghost use Rattle.std.specs.Prelude.{◌≡◌, ◌≤◌, length, take, is_some, true};
ghost use Rattle.std.specs.List.{list_all};
ghost use Rattle.walker.specs.Answers.{block_answer, count_of};
ghost use Rattle.text.specs.Words.{all};
ghost use Rattle.codes.specs.declared.CodesError.TheVariants.{Broken};
ghost use Rattle.codes.specs.Calls.{code_length, are_codes, codes_answer, codes_values, refusal};
ghost use Rattle.codes.specs.Readers.{Scanned, Numbered};

mod scan;

use crate::scan::{Masks, Scan, masks_of};
use walker::{block_at, first_at, here_at};

// Why `find_codes` has nothing to give: the codes are too many, one of them is too short or too long, or their lengths are not those of the bytes; or
// the walk came to a broken block.
#[derive(Clone, Copy, PartialEq, Eq, Debug)]
pub enum CodesError {
    NotCodes,
    Broken,
}

impl From<CodesError> for u32 {
    ghost from_gives = { λ e n. n ≡ refusal e };

    fn from(error: CodesError) -> u32 {
        match error {
            CodesError::NotCodes => 10,
            CodesError::Broken => 7,
        }
    }
}

impl From<walker::Broken> for CodesError {
    ghost from_gives = { λ _ e. e ≡ Broken };

    fn from(_e: walker::Broken) -> CodesError {
        CodesError::Broken
    }
}

// How many blocks were visited, and for each code the number, from 0, of the first block whose text contains it; none behind the codes.
#[derive(Clone, Copy)]
pub struct Found {
    pub visited: usize,
    pub blocks: [Option<usize>; 16],
}

// Whether there are at most 16 codes, each of 1 to 32 bytes, which together are all that is lent.
fn are_codes(codes: &[u8], lengths: &[usize]) -> bool
    ensures { result ≡ are_codes codes.now lengths.now }
{
    if 16 < lengths.len() {
        return false;
    }
    let mut sum = 0;
    for n in lengths {
        if !(1..=32).contains(n) {
            return false;
        }
        sum += *n;
    }
    sum == codes.len()
}

// What is known of the text of the block at an offset, which has this span count.
fn scanned(records: &[u8], at: usize, count: usize, masks: &Masks) -> Scan
    requires { count ≡ count_of (block_answer records.now at) }
    ensures { Scanned records.now at masks.now result }
{
    let mut scan = Scan::new();
    let Ok(Some(first)) = first_at(records, at) else {
        return scan;
    };
    let mut here = first;
    for _n in 0..count {
        let Ok(span) = here_at(records, here) else {
            return scan;
        };
        scan.read(masks, span.text.of(records));
        here = span.next;
    }
    scan
}

impl Found {
    // Gives the number of the block that was read last to each code that stands in its text and has none.
    fn add(&mut self, scan: &Scan, lengths: &[usize])
        requires { (length lengths.now ≤ 16) × (all code_length lengths.now ≡ true) }
        ensures { Numbered scan.now lengths.now self.old self.new (length lengths.now) }
    {
        for (i, size) in lengths.iter().enumerate() {
            if self.blocks[i].is_none() && scan.has(i, *size) {
                self.blocks[i] = Some(self.visited);
            }
        }
    }

    // Whether each of the first n codes has a number.
    fn is_whole(&self, n: usize) -> bool
        requires { n ≤ 16 }
        ensures { result ≡ list_all is_some (take n self.now.blocks) }
    {
        self.blocks[..n].iter().all(|number| number.is_some())
    }
}

// The codes are lent as their bytes, one after the other, and the length of each.
pub fn find_codes(records: &[u8], codes: &[u8], lengths: &[usize]) -> Result<Found, CodesError>
    ensures { codes_values result ≡ codes_answer records.now codes.now lengths.now }
{
    if !are_codes(codes, lengths) {
        return Err(CodesError::NotCodes);
    }
    let masks = masks_of(codes, lengths);
    let mut found = Found {
        visited: 0,
        blocks: [None; 16],
    };
    let mut at = 0;
    while !found.is_whole(lengths.len()) {
        let Some(block) = block_at(records, at)? else {
            break;
        };
        let scan = scanned(records, at, block.count, &masks);
        found.add(&scan, lengths);
        found.visited += 1;
        at = block.next;
    }
    Ok(found)
}
