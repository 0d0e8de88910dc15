// The file of a store. It is written under another name and then takes the place of the one before, so that it is whole at any time.
use crate::failure::{Failure, Subject};
use crate::files::{create, name, remove};
use std::fs::{File, OpenOptions};
use std::io::{ErrorKind, Seek, SeekFrom, Write};
use std::{fs, io};
use tool_arguments::word::WordBuffer;

// Can what is there be replaced? Only a file that may be written: no device, no directory.
fn is_file(mut file: File) -> io::Result<()> {
    let end = file.seek(SeekFrom::End(0))?;
    file.set_len(end)
}

fn may_replace(rt: &HostRuntime, path: &[u8]) -> io::Result<()> {
    match OpenOptions::new()
        .read(true)
        .write(true)
        .open(rt, name(path)?)
    {
        Ok(file) => is_file(file),
        Err(e) if e.kind() == ErrorKind::NotFound => Ok(()),
        Err(e) => Err(e),
    }
}

// Writes all of the bytes, closes the file and puts it in the place of the other one.
fn write_and_rename(
    rt: &HostRuntime,
    mut file: File,
    new: &[u8],
    path: &[u8],
    bytes: &[u8],
) -> io::Result<()> {
    file.write_all(bytes)?;
    drop(file);
    fs::rename(rt, name(new)?, name(path)?)
}

// As write_and_rename; where it fails, that is said, and then the new file goes.
fn replace<'a>(
    rt: &HostRuntime,
    file: File,
    new: &[u8],
    path: &'a [u8],
    bytes: &[u8],
) -> Result<(), Failure<'a>> {
    let Err(e) = write_and_rename(rt, file, new, path, bytes) else {
        return Ok(());
    };
    let failure = Failure::told(rt, Subject::File(path), e);
    let _ = remove(rt, new);
    Err(failure)
}

// The name that a file has until it is whole, at the start of this buffer; none where there is no room for it.
fn new_name<'n>(path: &[u8], buffer: &'n mut [u8]) -> Option<&'n [u8]> {
    let suffix = b".new";
    let (front, rest) = buffer.split_at_mut_checked(path.len())?;
    let (back, _) = rest.split_at_mut_checked(suffix.len())?;
    front.copy_from_slice(path);
    back.copy_from_slice(suffix);
    buffer.get(..path.len() + suffix.len())
}

// Writes the bytes of a store to its file. Where that fails, what was there is as it was. Of a name for which the one of the new file would
// have more bytes than a word of the command line nothing is said, and nothing is opened.
pub fn save<'a>(rt: &HostRuntime, path: &'a [u8], bytes: &[u8]) -> Result<(), Failure<'a>> {
    let mut buffer = [0u8; WordBuffer::MOST];
    let new = new_name(path, &mut buffer).ok_or(Failure::Silent)?;
    may_replace(rt, path).map_err(|e| Failure::Call(Subject::File(path), e))?;
    let file = create(rt, new).map_err(|e| Failure::Call(Subject::New(path), e))?;
    replace(rt, file, new, path, bytes)
}
