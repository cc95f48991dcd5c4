// A page from standard input to its Markdown on standard output.
// The same main in five programs: `rt ci` runs each program on one input.
#![tactic(auto)]

use std::io;

fn main(rt: HostRuntime) -> io::Result<()> {
    filter::run(rt.reader(), &mut io::writer(&rt))
}
