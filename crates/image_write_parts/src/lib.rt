// Writes the parts of records into a lent buffer. A byte past the buffer's end is left out.
#![tactic(auto)]

ghost use Rattle.std.specs.Prelude.{◌≡◌, ◌∷◌, [], true, ◌+◌, ◌≤◌, ◌<◌, ◌^◌, length};
ghost use Rattle.image_spec.specs.Parse.{field};
ghost use Rattle.image_spec.specs.Fields.{newline_code_lem, identifier_bytes, type_bytes, binding_bytes};
ghost use Rattle.image_write_parts.specs.Puts.{Puts};

pub mod writer;

use syntax::context::ContextBinding;
use syntax::names::Identifier;
use syntax::types::Ty;

// A byte put at a place of a buffer. (This and what stores more take a buffer and a place, since the steppers write headers and events at places
// that they work out. Each answers the place past its bytes. No `get_mut`, here and where others leave out what is past an end: once its borrow is
// over, a proof knows the length of a slice, and no element.)
pub fn put_byte(out: &mut [u8], at: usize, b: u8) -> usize
    requires { at + 1 < 2 ^ 64 }
    ensures { Puts out.old out.new at result (b ∷ []) }
{
    if at < out.len() {
        out[at] = b;
    }
    at + 1
}

// Are IDs of two bytes, and has a buffer of len bytes n bytes from at? Then the stores below need no test for each byte.
// (`at` and `n`: where a writer has come to, and how many bytes a store needs, a constant at each call.)
fn short(len: usize, at: usize, n: usize, w: usize) -> bool
    ensures { result ≡ true → (w ≡ 2) × (at + n ≤ len) }
{
    w == 2 && at <= len && n <= len - at
}

// The two bytes of n where there is room for them, the lowest first. (Two stores: `to_le_bytes` is no shorter, since it would have the two lowest
// bytes be made a `u16`, and then its array be copied to a range.)
pub fn store_pair(out: &mut [u8], at: usize, n: u32) -> usize
    requires { at + 2 ≤ length out.old }
    ensures { Puts out.old out.new at result (field 2 n) }
{
    out[at] = (n % 256) as u8;
    out[at + 1] = (n / 256 % 256) as u8;
    at + 2
}

// (This and the two below are what a writer's methods do, for IDs of two bytes and where there is room: room is tested once, and not at each byte. Measured:
// docs/SPEED.md.)
// (`out` and `at`: each goes on from the place that `store_pair` answers, and a writer's place is set once, at the end.)
fn store_identifier(out: &mut [u8], at: usize, x: Identifier) -> usize
    requires { at + 4 ≤ length out.old }
    ensures { Puts out.old out.new at result (identifier_bytes 2 x) }
{
    let next = store_pair(out, at, u32::from(x.name.0));
    store_pair(out, next, x.id.0)
}

fn store_type(out: &mut [u8], at: usize, t: Ty) -> usize
    requires { at + 5 ≤ length out.old }
    ensures { Puts out.old out.new at result (type_bytes 2 t) }
{
    match t {
        Ty::I64 => {
            out[at] = 0;
            let next = store_pair(out, at + 1, 0);
            store_pair(out, next, 0)
        }
        Ty::Decl(x) => {
            out[at] = 1;
            store_identifier(out, at + 1, x)
        }
    }
}

fn store_binding(out: &mut [u8], at: usize, b: ContextBinding) -> usize
    requires { at + 10 ≤ length out.old }
    ensures { Puts out.old out.new at result (binding_bytes 2 b) }
{
    let next = store_identifier(out, at, b.var);
    out[next] = b.chi as u8;
    store_type(out, next + 1, b.ty)
}

// The byte that stands for whether a PrintI64 ends its line. (The library's `From`, under the name of what it is here: its contract is the definition's.)
pub fn newline_code(newline: bool) -> u8
    ensures { result ≡ newline_code_lem newline }
{
    u8::from(newline)
}
