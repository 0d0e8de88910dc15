// The parts of an image: a header, a pair for each record, and the records.
use crate::reader::Reader;
use crate::record::Record;

// The bytes of the header, and of a pair.
pub const HEADER: usize = 8;

pub const PAIR: usize = 4;

// The header of an image, with layout number 1.
pub fn header(definitions: u16, max_id: u16, records: u16) -> [u8; HEADER] {
    let [d0, d1] = definitions.to_le_bytes();
    let [m0, m1] = max_id.to_le_bytes();
    let [r0, r1] = records.to_le_bytes();
    [1, 0, d0, d1, m0, m1, r0, r1]
}

// Where a record begins, and how many bytes it has.
#[derive(Clone, Copy, PartialEq, Eq)]
pub struct Pair {
    pub offset: u16,
    pub length: u16,
}

impl Pair {
    // (A method, as `to_le_bytes` of the two.)
    pub fn bytes(self) -> [u8; PAIR] {
        let [o0, o1] = self.offset.to_le_bytes();
        let [l0, l1] = self.length.to_le_bytes();
        [o0, o1, l0, l1]
    }

    // Where the next record begins.
    pub fn end(self) -> usize {
        usize::from(self.offset) + usize::from(self.length)
    }
}

// Where the records of an image of n begin.
pub fn body(n: u16) -> usize {
    HEADER + PAIR * usize::from(n)
}

#[derive(Clone, Copy)]
pub struct Image<'a> {
    pub bytes: &'a [u8],
}

impl<'a> Image<'a> {
    pub fn new(bytes: &'a [u8]) -> Image<'a> {
        Image { bytes }
    }

    // A number of the header. Those below are 0 where the image ends before.
    fn number(self, place: usize) -> Option<u16> {
        Reader::at(self.bytes, place)?.half()
    }

    pub fn definitions(self) -> u16 {
        self.number(2).unwrap_or(0)
    }

    pub fn max_id(self) -> u16 {
        self.number(4).unwrap_or(0)
    }

    // How many records it has.
    pub fn records(self) -> u16 {
        self.number(6).unwrap_or(0)
    }

    pub fn pair(self, k: u16) -> Option<Pair> {
        let mut reader = Reader::at(self.bytes, body(k))?;
        Some(Pair {
            offset: reader.half()?,
            length: reader.half()?,
        })
    }

    // The bytes of record k.
    pub fn record_bytes(self, k: u16) -> Option<&'a [u8]> {
        let pair = self.pair(k)?;
        Reader::at(self.bytes, usize::from(pair.offset))?.take(usize::from(pair.length))
    }

    // (No iterator of records, which would be a struct of its own: of those who go over them three want each with its index, one goes
    // backwards, and two want the bytes.)
    pub fn record(self, k: u16) -> Option<Record<'a>> {
        Record::of(self.record_bytes(k)?)
    }
}
