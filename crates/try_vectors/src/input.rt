// The input, read as the calls are made. Its numbers are little-endian.
use std::io::{self, Read};

// The next bytes. (An input that ends before, or that cannot be read on, is an error.)
fn array<const N: usize>(input: &mut impl Read) -> io::Result<[u8; N]> {
    let mut bytes = [0; N];
    input.read_exact(&mut bytes)?;
    Ok(bytes)
}

pub fn byte(input: &mut impl Read) -> io::Result<u8> {
    Ok(u8::from_le_bytes(array(input)?))
}

pub fn half(input: &mut impl Read) -> io::Result<u16> {
    Ok(u16::from_le_bytes(array(input)?))
}

pub fn word(input: &mut impl Read) -> io::Result<u32> {
    Ok(u32::from_le_bytes(array(input)?))
}

pub fn double(input: &mut impl Read) -> io::Result<u64> {
    Ok(u64::from_le_bytes(array(input)?))
}
