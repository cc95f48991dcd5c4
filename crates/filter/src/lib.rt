// The program `notes`: as a function on slices, which says what it writes for what it read, and as one that reads and writes.
#![tactic(auto)]

ghost use Rattle.std.specs.Prelude.{◌≡◌, ◌+◌, ℕ, List, length, OnOk};
ghost use Rattle.std.specs.Io.KnownBytes.{Appends};
ghost use Rattle.std.proofs.lemmas.List.Edits.{sets};
ghost use Rattle.text.specs.Outcome.{front};
ghost use Rattle.html.specs.Answers.{error_number};
ghost use Rattle.filter.specs.Program.{refusal, page_text, program_text};

use html::PageError;
use std::io;
use std::io::{Read, Write};

// Document 01's number of a refusal, as a digit.
fn digit(error: PageError) -> u8
    ensures { result ≡ 48 + error_number error }
{
    b'0' + u32::from(error) as u8
}

// The bytes of s in the front of out, and how many they are.
fn line(s: &[u8], out: &mut [u8]) -> usize
    ensures { (result ≡ length s.now) × (out.new ≡ sets out.old 0 s.now) }
{
    records::writer::put_bytes(out, 0, s);
    s.len()
}

// The line of a refusal in the front of out, its digit at the place of the 0.
fn refuse(error: PageError, out: &mut [u8]) -> usize
    ensures { (result ≡ length (refusal (error_number error))) × (out.new ≡ sets out.old 0 (refusal (error_number error))) }
{
    let mut bytes = *b"refused 0\n";
    bytes[8] = digit(error);
    line(&bytes, out)
}

// The page's Markdown and byte 10, or the refusal. The Markdown goes straight into the front of out; the work buffer is 2 × 16,384 + 16,384 bytes.
fn convert(page: &[u8], out: &mut [u8]) -> usize
    requires { length out.old ≡ 32001 }
    ensures { (result ≡ length (page_text page.now)) × (out.new ≡ front (page_text page.now) out.old) }
{
    let mut work = [0u8; 49152];
    match html::html_to_markdown(page, &mut work, &mut out[..32000]) {
        Ok(n) => {
            out[n] = b'\n';
            n + 1
        }
        Err(error) => refuse(error, out),
    }
}

// What the program writes for its input, in the front of out, and how many bytes that is. Of an input that is too long, any 16,385 bytes will do.
pub fn filtered(input: &[u8], out: &mut [u8; 32001]) -> usize
    ensures { (result ≡ length (program_text input.now)) × (out.new ≡ front (program_text input.now) out.old) }
{
    if 16384 < input.len() {
        return line(b"too long\n", out);
    }
    convert(input, out)
}

// The program's text for an input, behind what was written before.
fn written<W: Write>(input: &[u8], writer: &mut W) -> io::Result<()>
    ensures { OnOk result (Appends (W.contents writer.old) (W.contents writer.new) (program_text input.now)) }
{
    let mut out = [0u8; 32001];
    let n = filtered(input, &mut out);
    writer.write_all(text::front(&out, n))
}

// The program: it writes its text for an input. That this is what the reader gave, no clause can say, since std says of what is copied into a slice
// how many bytes it is, and not which. One byte above the limit is enough of an input that is too long.
pub fn run<R: Read + Drop, W: Write>(reader: R, writer: &mut W) -> io::Result<()>
    ensures { OnOk result ((input : List ℕ) × Appends (W.contents writer.old) (W.contents writer.new) (program_text input)) }
{
    let mut input = [0u8; 16385];
    let n = io::copy(&mut reader.take(16385), &mut input.as_mut_slice())?;
    written(text::front(&input, n as usize), writer)
}
