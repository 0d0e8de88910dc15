// Prints what is made of a text that is read strictly: what the words of its own command line ask for, and behind that, for each line of its
// input, what the first word of the line says: an image, what a function of `Text` reads, or what the words ask for.
#![tactic(auto)]

mod asking;
mod reading;

use std::alloc::Global;
use std::io::{self, Read, Write};
use tool_arguments::word::words;

// How many bytes of the input are read.
const READ: u64 = 65536;

// A line, and what is made of it.
fn line(out: &mut impl Write, alloc: Global, line: &[u8]) -> io::Result<()> {
    out.write_all(line)?;
    out.write_all(b" -> ")?;
    match line.strip_prefix(b"asks") {
        Some(words) => asking::split(out, alloc, words)?,
        None => reading::read(out, alloc, line)?,
    }
    out.write_all(b"\n")
}

fn main(rt: HostRuntime) -> io::Result<()> {
    let alloc = rt.alloc();
    let mut bytes = Vec::new(alloc);
    rt.reader().take(READ).read_to_end(&mut bytes)?;
    let mut out = rt.stdout();
    asking::ask(&mut out, alloc, &words(&rt)?)?;
    out.write_all(b"\n")?;
    for text in bytes.split(|b| *b == b'\n') {
        if !text.is_empty() {
            line(&mut out, alloc, text)?;
        }
    }
    Ok(())
}
