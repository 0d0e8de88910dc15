// Where text or an image goes to: a file, or the standard output. (An enum and no `Box<dyn Write>`: that would have no `is_terminal`, and rt
// refuses a function that makes one and hands it out.)
use std::fs::File;
use std::io::{self, IsTerminal, Stdout, Write};

#[derive(Drop)]
pub enum Output {
    File(File),
    Standard(Stdout),
}

impl Output {
    pub fn is_terminal(&self) -> bool {
        match self {
            Output::File(file) => file.is_terminal(),
            Output::Standard(standard) => standard.is_terminal(),
        }
    }
}

impl Write for Output {
    fn write(&mut self, bytes: &[u8]) -> io::Result<usize> {
        match self {
            Output::File(file) => file.write(bytes),
            Output::Standard(standard) => standard.write(bytes),
        }
    }

    fn flush(&mut self) -> io::Result<()> {
        match self {
            Output::File(file) => file.flush(),
            Output::Standard(standard) => standard.flush(),
        }
    }
}
