// The fields of an image: reading a number, and going past it.
#![tactic(auto)]

ghost use Rattle.std.specs.Prelude.{◌≡◌, true, ◌+◌, ◌≤◌, leb, length, drop, Some};
ghost use Rattle.image_spec.specs.Parse.{got, number};
ghost use Rattle.image_spec.specs.Fields.{binding};
ghost use Rattle.image_fields.specs.Found.{stop};

pub mod fields;

// The number in the w bytes from at, the lowest first. (No `from_le_bytes`: w is known at run time, and of two bytes it is no shorter.)
// (`bytes` and `at`: the same bytes are read at many places, and callers have images, records, states and rows.)
pub fn number(bytes: &[u8], at: usize, w: usize) -> u32
    requires { (at + w ≤ length bytes.now) × (w ≤ 4) }
    ensures { «number» w (drop at bytes.now) ≡ got result (drop (at + w) bytes.now) }
{
    // The width of layout 1, at which an image's numbers are read: no loop there (measured: docs/SPEED.md).
    if w == 2 {
        return u32::from(bytes[at]) + 256 * u32::from(bytes[at + 1]);
    }
    // (A loop that counts down: the last byte counts most. The bound of the number so far would be a `fold`'s invariant too.)
    let mut n = 0;
    for i in (0..w).rev() {
        n = n * 256 + u32::from(bytes[at + i]);
    }
    n
}

// Are there w bytes from `at` among `len`?
pub fn room(len: usize, at: usize, w: usize) -> bool
    ensures { result ≡ leb (at + w) len }
{
    at <= len && w <= len - at
}

// Past w bytes of any value.
// (`bytes` and `at`, here and below: that each byte is below 256 is known of a parameter's bytes, not of a field's.)
pub fn skip(bytes: &[u8], w: usize, at: usize) -> Option<usize>
    ensures { result ≡ stop («number» w) bytes.now at }
{
    let end = at.checked_add(w)?;
    (end <= bytes.len()).then_some(end)
}

// Are IDs of two bytes, and the ten bytes from at a binding? A no decides nothing. (With IDs of two bytes, as layout 1 has,
// one test of the length stands for one at each of a binding's five fields. Measured: docs/SPEED.md. Tests first: each
// read asks for the one before.)
fn short_binding(bytes: &[u8], w: usize, at: usize) -> bool
    ensures { result ≡ true → (at + 10 ≤ length bytes.now) × (stop (binding w) bytes.now at ≡ Some (at + 10)) }
{
    if w != 2 || !room(bytes.len(), at, 10) {
        return false;
    }
    if 2 < bytes[at + 4] {
        return false;
    }
    match bytes[at + 5] {
        0 => number(bytes, at + 6, 2) == 0 && number(bytes, at + 8, 2) == 0,
        1 => true,
        // `_`: a byte, of which two values are a type's.
        _ => false,
    }
}
