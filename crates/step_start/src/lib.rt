// A start: the state before the first step, in a store.
#![tactic(auto)]

ghost use Rattle.std.specs.Prelude.{◌≡◌, true, [], ◌++◌, ◌+◌, ◌*◌, ◌≤◌, ◌<◌, length};
ghost use Rattle.std.proofs.lemmas.List.Edits.{sets};
ghost use Rattle.image_spec.specs.Parse.{each};
ghost use Rattle.image_open.specs.Opening.{Known};
ghost use Rattle.step_slots.specs.Slots.{slot_bytes};
ghost use Rattle.step_slots.specs.Views.{slots_at, all_slots};
ghost use Rattle.step_spec.specs.Store.{header_bytes};
ghost use Rattle.step_spec.specs.Calls.{start_call};
ghost use Rattle.step_header.specs.Headers.{tuple_of, Holds};
ghost use Rattle.step_gather.specs.Gathering.{renamed};
ghost use Rattle.step_ask.specs.Asking.{stepper_of};
ghost use Rattle.step_answer_spec.specs.Saying.{result_of, Accepted};
ghost use Rattle.step_start.specs.Starting.{first_header_lem, Flags, HasDefinition, StartsIn, StartsOn};
ghost use Rattle.step_rows.specs.Rows.{ids_of};

use image_kinds::kinds::Kind;
use image_open::opened::Opened;
use image_read_parts::record::RecordAt;
use image_spec::Layout;
use image_write_bytes::bytes::copy;
use step_answer_spec::{Failure, Shown};
use step_ask::ask;
use step_gather::rename;
use step_header::{Header, put_header};
use step_places::ends::fill_ends;
use step_places::search::find_definition;
use step_places::stepper::Stepper;
use step_rows::distinct;
use step_rows::records::list_row;
use step_rows::row::Row;
use step_settle::{settle, stop};
use step_spec::MachineKind;
use step_values::are_given;

// The header, and the values under the row's IDs.
// `values` and `store`, here and below: one is read, the other written; the caller lends both.
fn begin(row: &Row<'_>, values: &[u8], store: &mut [u8], header: Header)
    requires { (length values.now ≡ 16 * row.now.places.len) × ((64 + 16 * row.now.places.len ≤ length store.old)
        × (all_slots (slots_at values.now 0 row.now.places.len) ≡ true)) }
    ensures { store.new ≡ sets store.old 0 (header_bytes (tuple_of header) ++ each slot_bytes (renamed (ids_of row.now) (slots_at values.now 0 row.now.places.len))) }
{
    copy(values, store, 64);
    rename(row, store, 64);
    put_header(store, header);
}

// The stopped flag of a start whose parameters are the row's: set where they repeat an ID, or where the machine stops at the first statement.
fn flag(stepper: &Stepper<'_>, row: &Row<'_>, store: &mut [u8], header: Header)
    requires { (header.position < stepper.now.image.frame.count) × Holds store.old header }
    ensures { Flags stepper.now stepper.now.image.bytes.now row.now store.old header store.new }
{
    if stepper.machine == MachineKind::Source {
        return;
    }
    if distinct(row) {
        settle(stepper, store, header, false);
    } else {
        stop(store, header);
    }
}

fn first_header(position: u32, entries: u64) -> Header
    ensures { result ≡ first_header_lem position entries }
{
    Header {
        position,
        ended: false,
        stopped: false,
        cells: 0,
        heap: 0,
        entries,
    }
}

// At the definition whose record is at index i.
fn start_in(
    stepper: &Stepper<'_>,
    i: usize,
    values: &[u8],
    store: &mut [u8],
) -> Result<Shown, Failure>
    requires { HasDefinition stepper.now stepper.now.image.bytes.now i }
    ensures { StartsIn stepper.now stepper.now.image.bytes.now i values.now store.old store.new result }
{
    let node = RecordAt {
        image: stepper.image,
        index: i,
        kind: Kind::Definition,
    };
    let row = list_row(&node);
    let len = row.places.len;
    let none = Shown {
        steps: 0,
        length: 0,
    };
    if !are_given(values, len) {
        return Err(Failure::NoState);
    }
    if store.len() < 64 + 16 * len {
        return Err(Failure::NoRoom(none));
    }
    let header = first_header((i + 1) as u32, len as u64);
    begin(&row, values, store, header);
    flag(stepper, &row, store, header);
    Ok(none)
}

// `definition` and `values`: what the caller asks for, in the order of the C interface; whether they fit is asked later.
// A start on an image whose questions were answered with yes.
fn start_on(
    opened: &Opened<'_>,
    machine: MachineKind,
    definition: usize,
    values: &[u8],
    store: &mut [u8],
) -> Result<Shown, Failure>
    requires { Accepted opened.now.image.frame opened.now.definitions opened.now.image.bytes.now }
    ensures { StartsOn machine opened.now definition values.now store.old store.new result }
{
    // (These lines stand in step_call too: a function could not hand out the table that it fills, and of a stepper that it made in a lent one, four equations would be
    // rewritten by below, where now the literal's parts compute.)
    let mut ends = [0u32; Layout::MAX_RECORDS];
    fill_ends(&opened.image, &mut ends);
    let stepper = Stepper {
        image: opened.image,
        ends: &ends,
        definitions: opened.definitions,
        machine,
    };
    let i = find_definition(&stepper, definition).ok_or(Failure::NoState)?;
    start_in(&stepper, i, values, store)
}

// A start of the source or the linear stepper at the definition with this place among the definitions.
pub fn start(
    image: &[u8],
    layout: Layout,
    machine: MachineKind,
    definition: usize,
    values: &[u8],
    store: &mut [u8],
) -> Result<Shown, Failure>
    requires { Known layout }
    ensures { result_of result store.new [] ≡ start_call (stepper_of machine layout) image.now definition values.now store.old }
{
    let opened = ask(image, layout, machine)?;
    start_on(&opened, machine, definition, values, store)
}
