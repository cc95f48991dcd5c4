// Replays stored answers, read from standard input, and says how many differ. The letter of a case says what is replayed: P a page, M Markdown, S a page
// and the sheet test, T a title and records, C codes and records.
#![tactic(auto)]

mod blocks;
mod case;
mod pages;
mod searches;
mod sheets;
mod titles;

use case::Case;
use std::io;
use std::io::Read;

// How many cases were run, and how many of them differ.
#[derive(Clone, Copy, Default)]
struct Count {
    run: usize,
    differ: usize,
}

// The cases of a letter, of the first 4,096.
fn replayed<F: Fn(Case) -> bool>(data: &[u8], letter: u8, agrees: F) -> Count
    requires { F.IsAlwaysCallable agrees }
{
    let mut count = Count::default();
    let mut rest = data;
    for _n in 0..4096u32 {
        let Some((case, behind)) = Case::split_first(rest) else {
            break;
        };
        rest = behind;
        if case.letter == letter {
            count.run = count.run.saturating_add(1);
            if !agrees(case) {
                count.differ = count.differ.saturating_add(1);
            }
        }
    }
    count
}

fn say(rt: &impl Print, what: &str, count: Count) -> io::Result<()> {
    println!(rt; "{what}: {} run, {} differ", count.run, count.differ)
}

fn main(rt: HostRuntime) -> io::Result<()> {
    let mut file = [0u8; 524288];
    let end = io::copy(&mut rt.reader().take(524288), &mut file.as_mut_slice())?;
    let data = text::front(&file, end as usize);
    say(&rt, "pages", replayed(data, b'P', pages::agrees))?;
    say(&rt, "Markdown", replayed(data, b'M', blocks::agrees))?;
    say(&rt, "sheets", replayed(data, b'S', sheets::agrees))?;
    say(&rt, "sections", replayed(data, b'T', titles::agrees))?;
    say(&rt, "searches", replayed(data, b'C', searches::agrees))
}
