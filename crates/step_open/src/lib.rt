// Question 14 of a store: the header of the state that it begins with.
#![tactic(auto)]

ghost use Rattle.std.specs.Prelude.{◌≡◌, ◌+◌, ◌*◌, ◌≤◌, leb, length};
ghost use Rattle.model.specs.Syntax.{Prog};
ghost use Rattle.step_scan.specs.Pass.{Of};
ghost use Rattle.step_open.specs.Opening.{slots_formed, Opens};

use image_directory::image::Image;
use step_header::heap::Heap;
use step_header::{Header, read_header};
use step_scan::{cells_ok, entries_ok, is_statement};

// Are the slots that the header counts inside a store of len bytes?
fn counts_inside(len: usize, header: Header) -> bool
    requires { 64 ≤ len }
    ensures { result ≡ leb (64 + 16 * header.heap + 16 * header.entries) len }
{
    let room = (len as u64 - 64) / 16;
    header.heap <= room && header.entries <= room - header.heap
}

// `image` and `store`, in step_scan `image` and `heap`: bytes that were opened, and others that may be no state of it, which is what is asked.
// Are the record at the position, the cells and the environment those of a state?
fn is_formed(image: &Image<'_>, store: &[u8], header: Header) -> bool
    requires { 64 + 16 * header.heap + 16 * header.entries ≤ length store.now }
    ensures { (P : Prog) → Of P image.now.frame image.now.bytes.now → result ≡ slots_formed P store.now header }
{
    let heap = Heap {
        store,
        count: header.heap as usize,
    };
    is_statement(image, header.position)
        && cells_ok(image, &heap, header.cells)
        && entries_ok(&heap, header.entries as usize)
}

// The header of the state that the store begins with, if it begins with one.
pub fn open_store(image: &Image<'_>, store: &[u8]) -> Option<Header>
    ensures { Opens image.now.frame image.now.bytes.now store.now result }
{
    if store.len() < 64 {
        return None;
    }
    let header = read_header(store)?;
    (counts_inside(store.len(), header) && is_formed(image, store, header)).then_some(header)
}
