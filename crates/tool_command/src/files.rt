// Files: reading one whole, and writing one of which nothing is left where that fails.
use crate::failure::{Failure, Subject};
use std::fs::{File, OpenOptions};
use std::io::{Error, ErrorKind, Read, Write};
use std::{fs, io};
use tool_arguments::request::{Input, Target};
use tool_listing::output::Output;

// The name of a file, which std takes as text.
pub fn name(path: &[u8]) -> io::Result<&str> {
    str::from_utf8(path).map_err(|_| Error::new(
        ErrorKind::InvalidInput,
        "the name of a file is not UTF-8",
    ))
}

fn read_from<R: Read + Drop>(from: R, most: usize, bytes: &mut Vec<u8>) -> io::Result<()> {
    from.take(most as u64).read_to_end(bytes)?;
    Ok(())
}

fn read_input(
    rt: &HostRuntime,
    input: Input<'_>,
    most: usize,
    bytes: &mut Vec<u8>,
) -> io::Result<()> {
    match input {
        Input::Standard => read_from(rt.reader(), most, bytes),
        Input::File(path) => read_from(File::open(rt, name(path)?)?, most, bytes),
    }
}

// The bytes of a file or of standard input, at most so many.
pub fn read<'a>(rt: &HostRuntime, input: Input<'a>, most: usize) -> Result<Vec<u8>, Failure<'a>> {
    let mut bytes = Vec::new(rt.alloc());
    read_input(rt, input, most, &mut bytes).map_err(|e| Failure::Call(Subject::Input(input), e))?;
    Ok(bytes)
}

// `rt` and `path`, here, below and in stores.rt: the system, and the name of a file; std takes them side by side too.
// Makes a file that is not there yet.
pub fn create(rt: &HostRuntime, path: &[u8]) -> io::Result<File> {
    OpenOptions::new()
        .write(true)
        .create_new(true)
        .open(rt, name(path)?)
}

// What is known of an output beside where it goes.
#[derive(Clone, Copy)]
pub enum Known<'a> {
    // Its file was made for it, under this name.
    Made(&'a [u8]),
    // Its file was there before.
    Found,
    // It is standard output, which was asked for.
    Asked,
    // It is standard output, since nothing was asked for.
    Unasked,
}

impl<'a> Known<'a> {
    // Ends an output. Where it was not written whole, that is said, and then a file that was made for it goes.
    pub fn close(self, rt: &HostRuntime, written: io::Result<()>) -> Result<(), Failure<'a>> {
        let Err(e) = written else { return Ok(()) };
        let failure = Failure::told(rt, Subject::Output, e);
        if let Known::Made(path) = self {
            let _ = remove(rt, path);
        }
        Err(failure)
    }
}

#[derive(Drop)]
pub struct Opened<'a> {
    pub output: Output,
    pub known: Known<'a>,
}

impl<'a> Opened<'a> {
    fn standard(rt: &HostRuntime, known: Known<'a>) -> Opened<'a> {
        Opened {
            output: Output::Standard(rt.stdout()),
            known,
        }
    }

    fn file(file: File, known: Known<'a>) -> Opened<'a> {
        Opened {
            output: Output::File(file),
            known,
        }
    }

    // May an image go to it? To a terminal only as standard output that was asked for.
    fn takes_images(&self) -> bool {
        matches!(self.known, Known::Asked) || !self.output.is_terminal()
    }

    // Writes an image or an annotation, and ends the output.
    pub fn write(self, rt: &HostRuntime, bytes: &[u8]) -> Result<(), Failure<'a>> {
        if !self.takes_images() {
            return Err(Failure::Terminal);
        }
        let Opened { mut output, known } = self;
        let written = output.write_all(bytes);
        known.close(rt, written)
    }
}

fn open_file<'a>(rt: &HostRuntime, path: &'a [u8]) -> io::Result<Opened<'a>> {
    match create(rt, path) {
        Ok(file) => Ok(Opened::file(file, Known::Made(path))),
        // It is there already.
        Err(_) => Ok(Opened::file(File::create(rt, name(path)?)?, Known::Found)),
    }
}

pub fn open<'a>(rt: &HostRuntime, target: Target<'a>) -> Result<Opened<'a>, Failure<'a>> {
    match target {
        Target::Unasked => Ok(Opened::standard(rt, Known::Unasked)),
        Target::Standard => Ok(Opened::standard(rt, Known::Asked)),
        Target::File(path) => {
            open_file(rt, path).map_err(|e| Failure::Call(Subject::File(path), e))
        }
    }
}

pub fn remove(rt: &HostRuntime, path: &[u8]) -> io::Result<()> {
    fs::remove_file(rt, name(path)?)
}
