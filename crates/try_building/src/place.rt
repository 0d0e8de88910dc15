// Places in a text and in an image.

// A place past every text and every image.
pub const FAR: usize = 1_000_000;

// The sum of two places, or of a place and a number of bytes, which are small here. One that is past all stays so.
pub fn plus(a: usize, b: usize) -> usize {
    if a < FAR && b < FAR { a + b } else { FAR }
}

// The lower two bytes of a number, which are what an image has of it.
pub fn low(n: usize) -> u16 {
    (n % 65536) as u16
}
