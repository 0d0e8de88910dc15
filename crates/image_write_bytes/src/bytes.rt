// Bytes as they are: copied from others that are lent, moved within the buffer, and cleared.
ghost use Rattle.std.specs.Prelude.{◌≡◌, ◌+◌, ◌≤◌, ◌<◌, ◌^◌, length, take, drop, replicate};
ghost use Rattle.std.proofs.lemmas.List.Edits.{sets};
ghost use Rattle.image_write_parts.specs.Puts.{Puts};

// These bytes, from `at` on. A byte past the buffer's end is left out.
// (`out` and `at`: the steppers copy to places that they work out, so this is no method of a `Writer`.)
pub fn copy(bytes: &[u8], out: &mut [u8], at: usize) -> usize
    requires { at + length bytes.now < 2 ^ 64 }
    ensures { Puts out.old out.new at result bytes.now }
{
    let start = at.min(out.len());
    let room = bytes.len().min(out.len() - start);
    out[start..start + room].copy_from_slice(&bytes[..room]);
    at + bytes.len()
}

// Moves the n bytes that begin at `from` up by `by` places.
// (`from` and `n`: callers have a place and a size, and only here a range is made of them.)
pub fn move_up(out: &mut [u8], from: usize, n: usize, by: usize)
    requires { from + by + n ≤ length out.old }
    ensures { out.new ≡ sets out.old (from + by) (take n (drop from out.old)) }
{
    out.copy_within(from..from + n, from + by);
}

// Sets every byte to zero. (The library's `fill`, here and above its `copy_within`, under a contract in the words by which the callers' proofs go.)
pub fn clear(out: &mut [u8])
    ensures { out.new ≡ replicate (length out.old) 0 }
{
    out.fill(0);
}
