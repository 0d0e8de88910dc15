// Bytes read from the front. Numbers are little-endian.

#[derive(Clone, Copy)]
pub struct Reader<'a> {
    rest: &'a [u8],
}

impl<'a> Reader<'a> {
    pub fn new(bytes: &'a [u8]) -> Reader<'a> {
        Reader { rest: bytes }
    }

    // The bytes from a place on.
    pub fn at(bytes: &'a [u8], place: usize) -> Option<Reader<'a>> {
        let (_, rest) = bytes.split_at_checked(place)?;
        Some(Reader { rest })
    }

    // What is not read yet.
    pub fn rest(self) -> &'a [u8] {
        self.rest
    }

    pub fn take(&mut self, n: usize) -> Option<&'a [u8]> {
        self.rest.split_off(..n)
    }

    fn array<const N: usize>(&mut self) -> Option<[u8; N]> {
        <[u8; N]>::try_from(self.take(N)?).ok()
    }

    pub fn byte(&mut self) -> Option<u8> {
        self.rest.split_off_first().copied()
    }

    pub fn half(&mut self) -> Option<u16> {
        self.array().map(u16::from_le_bytes)
    }

    pub fn word(&mut self) -> Option<u32> {
        self.array().map(u32::from_le_bytes)
    }

    pub fn double(&mut self) -> Option<u64> {
        self.array().map(u64::from_le_bytes)
    }

    pub fn signed(&mut self) -> Option<i64> {
        self.array().map(i64::from_le_bytes)
    }
}
