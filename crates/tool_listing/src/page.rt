// Text on its way out, in which names are spelled by a book. It is gathered, and written whenever there is no more room for it.
use crate::book::Book;
use crate::output::Output;
use std::io::{self, Write};

// The spaces of 512 levels.
static SPACES: [u8; 1024] = [b' '; 1024];

// (No `BufWriter`: it takes memory, which a page would then have to get before an output is opened, and when it is dropped it writes once
// more what could not be written. Of this nothing more is written.)
#[derive(Drop)]
pub struct Page<'a> {
    output: Output,
    book: Book<'a, 'a>,
    room: [u8; Page::ROOM],
    // How much of the room is taken.
    taken: usize,
}

impl<'a> Page<'a> {
    // How much text is gathered before it is written.
    const ROOM: usize = 65536;

    pub fn new(output: Output, book: Book<'a, 'a>) -> Page<'a> {
        Page {
            output,
            book,
            room: [0; Page::ROOM],
            taken: 0,
        }
    }

    pub fn say(&mut self, text: &str) -> io::Result<()> {
        self.write_all(text.as_bytes())
    }

    // A name: its spelling, or n and its number.
    pub fn name(&mut self, name: u16) -> io::Result<()> {
        match self.book.spelling(name) {
            Some(spelling) => self.write_all(spelling),
            None => self.numbered(b'n', name),
        }
    }

    // A mark, and a number behind it. (No `write!`: a listing has two for each variable, and its machinery would be half of the work.)
    pub fn numbered(&mut self, mark: u8, number: u16) -> io::Result<()> {
        let mut text = [mark; 6];
        let mut left = number;
        for k in 0..5 {
            text[5 - k] = b'0' + (left % 10) as u8;
            left /= 10;
            if left == 0 {
                return self.write_all(&text[4 - k..]);
            }
        }
        // (No `u16` has more digits, so no turn ends here.)
        self.write_all(&text)
    }

    // What stands before item j of a list.
    pub fn comma(&mut self, j: usize) -> io::Result<()> {
        if 0 < j { self.say(", ") } else { Ok(()) }
    }

    // Two spaces for each level; there are at most 512.
    pub fn indent(&mut self, levels: usize) -> io::Result<()> {
        self.write_all(SPACES.get(..levels.saturating_mul(2)).unwrap_or(&[]))
    }

    // Writes what was gathered.
    fn write_out(&mut self) -> io::Result<()> {
        let taken = self.taken.min(Page::ROOM);
        self.taken = 0;
        self.output.write_all(&self.room[..taken])
    }

    // Gathers as many bytes as there is room for.
    fn gather(&mut self, bytes: &[u8]) -> usize {
        let taken = self.taken.min(Page::ROOM);
        let n = bytes.len().min(Page::ROOM - taken);
        self.room[taken..taken + n].copy_from_slice(&bytes[..n]);
        self.taken = taken + n;
        n
    }

    // Gathers bytes for which there is no room, and writes each time that it is full.
    fn gather_all(&mut self, bytes: &[u8]) -> io::Result<()> {
        for part in bytes.chunks(Page::ROOM) {
            let n = self.gather(part);
            if n < part.len() {
                self.write_out()?;
                self.gather(&part[n..]);
            }
        }
        Ok(())
    }
}

impl Write for Page<'_> {
    fn write(&mut self, bytes: &[u8]) -> io::Result<usize> {
        self.write_all(bytes)?;
        Ok(bytes.len())
    }

    #[inline]
    fn write_all(&mut self, bytes: &[u8]) -> io::Result<()> {
        if self.taken <= Page::ROOM && bytes.len() <= Page::ROOM - self.taken {
            self.gather(bytes);
            return Ok(());
        }
        self.gather_all(bytes)
    }

    fn flush(&mut self) -> io::Result<()> {
        self.write_out()?;
        self.output.flush()
    }
}
