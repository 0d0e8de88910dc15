// Where numbers at equal distances stand in bytes: len elements of stride bytes each, the first at from, each with a number of width bytes that
// stands offset bytes into it.
#[derive(Clone, Copy, Debug, PartialEq, Eq)]
pub struct Places {
    pub from: usize,
    pub stride: usize,
    pub offset: usize,
    pub width: usize,
    pub len: usize,
}
