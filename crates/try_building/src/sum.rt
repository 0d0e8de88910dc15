// Adler-32, a sum of bytes.
const MODULUS: u32 = 65521;

// The lower half is the sum of the bytes, the upper half the sum of those sums.
pub fn adler32(bytes: &[u8]) -> u32 {
    let mut sum = 1u32;
    let mut sums = 0u32;
    for byte in bytes {
        sum = sum.wrapping_add(u32::from(*byte)) % MODULUS;
        sums = sums.wrapping_add(sum) % MODULUS;
    }
    sums << 16 | sum
}
