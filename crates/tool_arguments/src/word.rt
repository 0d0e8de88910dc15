// The words of the command line, one at a time or all of them.
use std::alloc::AllocError;
use std::env::{Env, FillError};

// A word; none where it is longer than 4,096 bytes.
pub type Word = Option<Vec<u8>>;

// The words behind the program's own name. (Not std's `env::args`, which refuses them all where one is not UTF-8. Counted as there, since of a
// `loop` it would have to be proved that it ends.)
pub fn words<R: Env + AllocGlobal>(rt: &R) -> Result<Vec<Word>, AllocError> {
    let mut text = io::buffer();
    let mut words = Vec::new(rt.alloc());
    for i in 1..usize::MAX {
        match rt.arg(i, &mut text) {
            Ok(n) => words.push(Some(text[..n].to_vec(rt.alloc())?))?,
            Err(FillError::TooLong) => words.push(None)?,
            Err(FillError::NotPresent) => break,
        }
    }
    Ok(words)
}

// A word of at most 4,096 bytes.
#[derive(Clone, Copy)]
pub struct WordBuffer {
    bytes: [u8; WordBuffer::MOST],
    length: usize,
}

impl WordBuffer {
    pub const MOST: usize = 4096;

    pub fn empty() -> WordBuffer {
        WordBuffer {
            bytes: [0; WordBuffer::MOST],
            length: 0,
        }
    }

    // Reads word i in its place; the program's own name is word 0. It is empty where there is no such word, or a longer one.
    // (Not std's `env::args`, which refuses all of them where one is not UTF-8, and keeps them.)
    pub fn read(&mut self, env: &impl Env, i: usize) -> Result<(), FillError> {
        self.length = 0;
        self.length = env.arg(i, &mut self.bytes)?;
        Ok(())
    }

    pub fn as_slice(&self) -> &[u8] {
        self.bytes.get(..self.length).unwrap_or(&[])
    }
}
