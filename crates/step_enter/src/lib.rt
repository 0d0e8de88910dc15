// A clause or a definition that is entered: its parameters, and the entries that they become. What Switch and Call of either machine end with.
#![tactic(auto)]

ghost use Rattle.std.specs.Prelude.{◌≡◌, true, ◌+◌, ◌*◌, ◌≤◌, ◌<◌, length, Some};
ghost use Rattle.image_read_nodes.specs.Nodes.{has_list};
ghost use Rattle.step_slots.specs.Views.{slots_at, all_slots};
ghost use Rattle.step_gather.specs.Gathering.{renamed};
ghost use Rattle.step_write.specs.Writing.{head_bytes};
ghost use Rattle.step_enter.specs.Entering.{ParametersOf, ClauseOf, entered, EntersIn};
ghost use Rattle.image_kinds.specs.Codes.{code_of};
ghost use Rattle.step_write.specs.Working.{Fit};
ghost use Rattle.step_rows.specs.Rows.{ids_of};

use image_kinds::kinds::Kind;
use image_read_nodes::parts_of;
use image_read_parts::record::RecordAt;
use image_write_bytes::bytes::copy;
use step_gather::rename;
use step_header::Header;
use step_places::search::find_clause;
use step_places::stepper::Stepper;
use step_rows::records::list_row;
use step_rows::row::Row;
use step_write::{EventHead, Step, Stop, Work, finish};

// What is entered: the IDs of its parameters and the place of its body.
#[derive(Clone, Copy)]
pub struct Parameters<'a> {
    pub row: Row<'a>,
    pub body: u32,
}

// The parameters of a clause or a definition.
pub fn parameters_of<'a>(node: &RecordAt<'a>) -> Parameters<'a>
    requires { has_list (code_of node.now.kind) ≡ true }
    ensures { ParametersOf node.now.image.frame node.now.image.bytes.now (Some node.now.index) (Some result) }
{
    Parameters {
        row: list_row(node),
        body: (node.index + 1) as u32,
    }
}

// The parameters of the first clause with this tag of the statement at this place.
pub fn clause_of<'a>(stepper: &Stepper<'a>, place: u32, tag: u32) -> Option<Parameters<'a>>
    requires { place < stepper.now.image.frame.count }
    ensures { ClauseOf stepper.now.image.frame stepper.now.image.bytes.now place tag result }
{
    let i = place as usize;
    let follows = parts_of(&stepper.image, i);
    let j = find_clause(stepper, i + 1, follows.clauses, tag)?;
    let node = RecordAt {
        image: stepper.image,
        index: j,
        kind: Kind::Clause,
    };
    Some(parameters_of(&node))
}

// `from` and `n`: of the entries in one caller, of a part of them or of what a cell holds in others; the store is lent without a header.
// The n slots of the store from `from`, at the beginning of scratch. (n is of what is read; one caller lends a slice of just these, two the whole.)
pub fn fetch(store: &[u8], from: usize, n: usize, scratch: &mut [u8])
    requires { (from + 16 * n ≤ length store.now) × ((all_slots (slots_at store.now from n) ≡ true) × (16 * n ≤ length scratch.old)) }
    ensures { slots_at scratch.new 0 n ≡ slots_at store.now from n }
{
    copy(&store[from..from + 16 * n], scratch, 0);
}

// The header at the body of what is entered, with so many entries.
pub fn after(header: Header, body: u32, entries: u64) -> Header
    ensures { result ≡ entered header body entries }
{
    Header {
        position: body,
        ended: false,
        stopped: false,
        entries,
        ..header
    }
}

// A step to the body of what is entered: the slots at the beginning of scratch become entries under its parameters' IDs. Of the entries that there are the
// first `front` stay, and the `back` that follow them come behind the new ones.
// `scratch` is lent whole: how many of its slots count is no parameter, the row has it, and what is written is a slice of so many.
// `entered` and `work`, here and in the rules of Call and Invoke: what is read of an image, and what is written.
// (How many entries stay, or are taken, is each rule's own; so that there are as many is asked.)
pub fn enter(
    entered: &Parameters<'_>,
    work: &mut Work<'_>,
    scratch: &mut [u8],
    event: EventHead,
    front: usize,
    back: usize,
) -> Result<Step, Stop>
    requires { Fit work.old × ((16 * entered.now.row.places.len ≤ length scratch.old) × ((all_slots (slots_at scratch.old 0 entered.now.row.places.len) ≡ true) × (front + back ≤ work.old.header.entries))) }
    ensures { EntersIn work.old work.new entered.now.body (head_bytes event) front back (renamed (ids_of entered.now.row) (slots_at scratch.old 0 entered.now.row.places.len)) result }
{
    let heap = work.header.heap as usize;
    let len = entered.row.places.len;
    rename(&entered.row, scratch, 0);
    let next = after(work.header, entered.body, (front + len + back) as u64);
    let from = 64 + 16 * (heap + front);
    finish(work, &scratch[..16 * len], event, next, from, back)
}
