// The first 64 bytes of a store: position, flags and counts.
#![tactic(auto)]

pub mod heap;
pub mod state;

ghost use Rattle.std.specs.Prelude.{◌≡◌, ◌+◌, ◌≤◌, length, drop, replicate};
ghost use Rattle.image_write_parts.specs.Puts.{Puts};
ghost use Rattle.step_spec.specs.Store.{header_parser, header_bytes};
ghost use Rattle.step_header.specs.Headers.{tuple_with, tuple_of, flag_of, read_as};

use image_fields::number;
use image_write_parts::{put_byte, store_pair};
use step_slots::{all_zero, long_at, put_four, put_long};

// The place of the statement's record, the flags, how many cells, slots of cells and entries there are.
#[derive(Clone, Copy, Debug, PartialEq, Eq)]
pub struct Header {
    pub position: u32,
    // The two flags of document 02, each on its own.
    pub ended: bool,
    pub stopped: bool,
    pub cells: u64,
    pub heap: u64,
    pub entries: u64,
}

// A byte that is 0 or 1, as a flag. (image_fields has this match for a mark, at a place that may be past the end: its clause answers of the place.)
fn flag(byte: u8) -> Option<bool>
    ensures { result ≡ flag_of byte }
{
    match byte {
        0 => Some(false),
        1 => Some(true),
        _ => None,
    }
}

// The header that the bytes begin with, if they begin with one.
pub fn read_header(s: &[u8]) -> Option<Header>
    requires { 64 ≤ length s.now }
    ensures { header_parser s.now ≡ read_as result (drop 64 s.now) }
{
    let position = number(s, 0, 4);
    let ended = flag(s[4])?;
    let stopped = flag(s[5])?;
    let short_zeros = all_zero(s, 6, 2);
    let cells = long_at(s, 8);
    let heap = long_at(s, 16);
    let entries = long_at(s, 24);
    let long_zeros = all_zero(s, 32, 32);
    (short_zeros && long_zeros).then_some(Header {
        position,
        ended,
        stopped,
        cells,
        heap,
        entries,
    })
}

fn put_zeros(out: &mut [u8], at: usize) -> usize
    requires { at + 32 ≤ length out.old }
    ensures { Puts out.old out.new at result (replicate 32 0) }
{
    out[at..at + 32].fill(0);
    at + 32
}

// Sixty-four bytes with these numbers; they are a header's where the two flags are 0 or 1.
// (64 bytes are asked for here, where a header is read, and where a step ends: the store is lent whole, and no ghost field is over what is written.)
pub fn put_header_parts(
    out: &mut [u8],
    position: u32,
    ended: u8,
    stopped: u8,
    cells: u64,
    heap: u64,
    entries: u64,
) -> usize
    requires { 64 ≤ length out.old }
    ensures { Puts out.old out.new 0 result (header_bytes (tuple_with position ended stopped cells heap entries)) }
{
    let after_position = put_four(out, 0, position);
    let after_ended = put_byte(out, after_position, ended);
    let after_stopped = put_byte(out, after_ended, stopped);
    let after_flags = store_pair(out, after_stopped, 0);
    let after_cells = put_long(out, after_flags, cells);
    let after_heap = put_long(out, after_cells, heap);
    let after_entries = put_long(out, after_heap, entries);
    put_zeros(out, after_entries)
}

// A header.
pub fn put_header(out: &mut [u8], h: Header) -> usize
    requires { 64 ≤ length out.old }
    ensures { Puts out.old out.new 0 result (header_bytes (tuple_of h)) }
{
    let ended = u8::from(h.ended);
    let stopped = u8::from(h.stopped);
    put_header_parts(out, h.position, ended, stopped, h.cells, h.heap, h.entries)
}
