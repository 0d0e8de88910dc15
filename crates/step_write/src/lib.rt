// What a step writes: its event, and the state after it over the one before; or nothing, where there is no room for both.
#![tactic(auto)]

ghost use Rattle.std.specs.Prelude.{◌≡◌, [], ◌++◌, ◌&&◌, ◌+◌, ◌-◌, ◌*◌, ◌≤◌, ◌<◌, ◌^◌, leb, length, take, drop};
ghost use Rattle.std.proofs.lemmas.List.Edits.{sets};
ghost use Rattle.image_write_parts.specs.Puts.{Puts};
ghost use Rattle.step_slots.specs.Slots.{slot_bytes, as_slot};
ghost use Rattle.step_header.specs.Headers.{Holds};
ghost use Rattle.image_kinds.specs.Codes.{code_of};
ghost use Rattle.step_spec.specs.Events.{event_head};
ghost use Rattle.step_write.specs.Working.{Keeps, EndingIn, FinishesIn};
ghost use Rattle.step_write.specs.Writing.{head_bytes, size, with_closure, Sealed};

use image_kinds::kinds::Kind;
use image_write_bytes::bytes::{copy, move_up};
use image_write_parts::{put_byte, store_pair};
use step_header::state::State;
use step_header::{Header, put_header};
use step_slots::sort::Sort;
use step_slots::{Slot, put_four, put_long, put_slot};

// What a step leaves: the header of the state after it, and the place behind its event.
// (Answered, and not set in the `Work` by what writes: the definitions of a step have it as one value, in an `Ok`. Set in the `Work`, each would have the
// header and the place of before and of after. What writes keeps the two, as `Keeps` says; `run` sets them, in one place.)
#[derive(Clone, Copy)]
pub struct Step {
    pub header: Header,
    pub at: usize,
}

// Why there is no step: the machine makes none, or there is no room for it. (Only `run` asks which: no room is
// said with the steps that were made, and that there is no step is no refusal, so there is no conversion to a `Failure`.)
#[derive(Clone, Copy, Debug, PartialEq, Eq)]
pub enum Stop {
    NoStep,
    NoRoom,
}

// What a step is made in: a store and the header of the state in it, an event buffer and the place of the next event.
// `Scratch` stays beside it: two fields of one `&mut` cannot be lent at one time in a form that the check covers (tried: decision 101).
// `stepper` stays beside it: it is only read, and one for all steps of a call; what ties them (`Given`) is asked for the reason of `Fit`.
#[derive(Drop)]
pub struct Work<'a> {
    pub store: &'a mut [u8],
    pub events: &'a mut [u8],
    pub header: Header,
    pub at: usize,
}

impl Work<'_> {
    // How many bytes rules are lent beside it: 130 slots, a cell of 128 values with its own slot, and a variable.
    // (What packs a cell asks for at most 128: k is a count, and a row may be longer.)
    pub const SCRATCH: usize = 2080;
}

// The bytes in which a rule gathers the slots that it writes. What they hold before it is of no use.
pub type Scratch = [u8; Work::SCRATCH];

// The store, to be read.
pub fn store_of<'a>(work: &'a Work<'_>) -> &'a [u8]
    ensures { result.now ≡ work.now.store.now }
{
    work.store
}

// The state in the store.
pub fn state_of<'a>(work: &'a Work<'_>) -> State<'a>
    requires { Holds work.now.store.now work.now.header }
    ensures stored { result.store.now ≡ work.now.store.now }
    ensures headed { result.header ≡ work.now.header }
{
    State {
        store: work.store,
        header: work.header,
    }
}

// The sixteen bytes that an event begins with.
#[derive(Clone, Copy)]
pub struct EventHead {
    pub kind: Kind,
    pub detail: u8,
    pub name: u32,
    pub count: u32,
    pub payload: u64,
}

impl EventHead {
    // The event that shows a cell by its number, with this name: what Let, Create, Switch and Invoke show.
    // (`kind` and `name`: the rule's own kind, and a name that its record or its cell has; nothing else has the two.)
    pub fn of_cell(kind: Kind, name: u32, number: u64) -> EventHead
        ensures { head_bytes result ≡ event_head (code_of kind) 1 name 0 number }
    {
        EventHead {
            kind,
            detail: Sort::Cell as u8,
            name,
            count: 0,
            payload: number,
        }
    }

    // The event that shows 64 bits and no name. What `detail` says of them differs: a sort, a branch, a newline byte.
    pub fn of_payload(kind: Kind, detail: u8, payload: u64) -> EventHead
        ensures { head_bytes result ≡ event_head (code_of kind) detail 0 0 payload }
    {
        EventHead {
            kind,
            detail,
            name: 0,
            count: 0,
            payload,
        }
    }
}

// Has a store of `store` bytes room for the state with this header, and an event buffer of `events` bytes for so many behind `at`?
pub fn has_room(store: usize, header: Header, events: usize, at: usize, bytes: usize) -> bool
    requires { (64 ≤ store) × ((at ≤ events) × (header.heap + header.entries < 2 ^ 64)) }
    ensures { result ≡ leb (size header) store && leb bytes (events - at) }
{
    let slots = header.heap as usize + header.entries as usize;
    slots <= (store - 64) / 16 && bytes <= events - at
}

// Sixteen bytes with this one first; they begin an event where it is a kind's.
pub fn put_event_parts(
    events: &mut [u8],
    at: usize,
    kind: u8,
    detail: u8,
    name: u32,
    count: u32,
    payload: u64,
) -> usize
    requires { at + 16 ≤ length events.old }
    ensures { Puts events.old events.new at result (event_head kind detail name count payload) }
{
    let after_kind = put_byte(events, at, kind);
    let after_detail = put_byte(events, after_kind, detail);
    let after_name = store_pair(events, after_detail, name);
    let after_count = put_four(events, after_name, count);
    put_long(events, after_count, payload)
}

// An event's first sixteen bytes.
pub fn put_event(events: &mut [u8], at: usize, event: EventHead) -> usize
    requires { at + 16 ≤ length events.old }
    ensures { Puts events.old events.new at result (head_bytes event) }
{
    put_event_parts(
        events,
        at,
        event.kind as u8,
        event.detail,
        event.name,
        event.count,
        event.payload,
    )
}

// `at` and `n` here and in `put_closure`: where slots stand in a store that is written, and how many move; `Places` are of what is read.
// The n slots from at move up, and `slots` are before them.
fn insert(store: &mut [u8], at: usize, n: usize, slots: &[u8])
    requires { at + length slots.now + 16 * n ≤ length store.old }
    ensures { store.new ≡ sets store.old at (slots.now ++ take (16 * n) (drop at store.old)) }
{
    move_up(store, at, 16 * n, slots.len());
    copy(slots, store, at);
}

// Is there room for the state with this header, and for so many bytes of events?
pub fn fits(work: &Work<'_>, header: Header, bytes: usize) -> bool
    requires { EndingIn work.now header }
    ensures { result ≡ leb (size header) (length work.now.store.now) && leb bytes (length work.now.events.now - work.now.at) }
{
    let store = work.store.len();
    let events = work.events.len();
    has_room(store, header, events, work.at, bytes)
}

// The event and the header of a step whose slots are written.
fn seal(work: &mut Work<'_>, event: EventHead, header: Header) -> Step
    requires { (64 ≤ length work.old.store.now) × (work.old.at + 16 ≤ length work.old.events.now) }
    ensures { Sealed work.old.store.now work.old.events.now work.old.at (head_bytes event) header work.new.store.now work.new.events.now result × Keeps work.old work.new }
{
    let at = work.at;
    let next = put_event(work.events, at, event);
    put_header(work.store, header);
    Step { header, at: next }
}

// A step to a state with this header: from byte `from` on these slots, then the n slots that stand there.
// `event` and `header`, here and below: no fact ties them, `enter` and `stay` are given one and make the other, one step has no event.
// `header`, `from` and `n`: how many slots a state of this header must have room for behind `from` differs from function to function.
// `work`, `slots`, `event`: what is written, what is copied from, and a value; `finish_holding` has no slots, `finish_silent` no event.
// (Five functions, here and below, that ask for room, write slots and end: one would take what is between as a closure over the store, whose contract would be
// each one's clause.)
pub fn finish(
    work: &mut Work<'_>,
    slots: &[u8],
    event: EventHead,
    header: Header,
    from: usize,
    n: usize,
) -> Result<Step, Stop>
    requires { EndingIn work.old header × (from + length slots.now + 16 * n ≤ size header) }
    ensures { FinishesIn work.old work.new header (head_bytes event) from (slots.now ++ take (16 * n) (drop from work.old.store.now)) result }
{
    if !fits(work, header, 16) {
        return Err(Stop::NoRoom);
    }
    insert(work.store, from, n, slots);
    Ok(seal(work, event, header))
}

// The same, with the slot `last` behind those n.
pub fn finish_before(
    work: &mut Work<'_>,
    slots: &[u8],
    event: EventHead,
    header: Header,
    from: usize,
    n: usize,
    last: Slot,
) -> Result<Step, Stop>
    requires { EndingIn work.old header × (from + length slots.now + 16 * (n + 1) ≤ size header) }
    ensures { FinishesIn work.old work.new header (head_bytes event) from (slots.now ++ (take (16 * n) (drop from work.old.store.now) ++ slot_bytes (as_slot last))) result }
{
    if !fits(work, header, 16) {
        return Err(Stop::NoRoom);
    }
    insert(work.store, from, n, slots);
    put_slot(work.store, from + slots.len() + 16 * n, last);
    Ok(seal(work, event, header))
}

// A step to a state with this header: from byte `from` on these slots, then the n slots that stand at `entries`, before them.
pub fn finish_entering(
    work: &mut Work<'_>,
    slots: &[u8],
    event: EventHead,
    header: Header,
    from: usize,
    entries: usize,
    n: usize,
) -> Result<Step, Stop>
    requires { EndingIn work.old header × ((from + length slots.now + 16 * n ≤ size header) × (entries + 16 * n ≤ from)) }
    ensures { FinishesIn work.old work.new header (head_bytes event) from (slots.now ++ take (16 * n) (drop entries work.old.store.now)) result }
{
    if !fits(work, header, 16) {
        return Err(Stop::NoRoom);
    }
    let to = from + slots.len();
    move_up(work.store, entries, 16 * n, to - entries);
    copy(slots, work.store, from);
    Ok(seal(work, event, header))
}

// Moves the n slots from at up to leave a cell before them that holds them too, and a variable.
fn put_closure(store: &mut [u8], at: usize, n: usize, head: Slot, var: Slot)
    requires { at + 16 * (n + n + 2) ≤ length store.old }
    ensures { store.new ≡ sets store.old at (with_closure (slot_bytes (as_slot head)) (slot_bytes (as_slot var)) (take (16 * n) (drop at store.old))) }
{
    move_up(store, at, 16 * n, 16 * (n + 2));
    move_up(store, at, 16 * n, 16);
    put_slot(store, at, head);
    put_slot(store, at + 16 * (n + 1), var);
}

// A step to a state with this header: from byte `from` on a cell that holds the n slots that stand there, a variable, and these slots.
pub fn finish_holding(
    work: &mut Work<'_>,
    event: EventHead,
    header: Header,
    from: usize,
    n: usize,
    head: Slot,
    var: Slot,
) -> Result<Step, Stop>
    requires { EndingIn work.old header × (from + 16 * (n + n + 2) ≤ size header) }
    ensures { FinishesIn work.old work.new header (head_bytes event) from (with_closure (slot_bytes (as_slot head)) (slot_bytes (as_slot var)) (take (16 * n) (drop from work.old.store.now))) result }
{
    if !fits(work, header, 16) {
        return Err(Stop::NoRoom);
    }
    put_closure(work.store, from, n, head, var);
    Ok(seal(work, event, header))
}

// A step without an event: from byte `from` on these slots.
pub fn finish_silent(
    work: &mut Work<'_>,
    slots: &[u8],
    header: Header,
    from: usize,
) -> Result<Step, Stop>
    requires { EndingIn work.old header × (from + length slots.now ≤ size header) }
    ensures { FinishesIn work.old work.new header [] from slots.now result }
{
    if !fits(work, header, 0) {
        return Err(Stop::NoRoom);
    }
    copy(slots, work.store, from);
    put_header(work.store, header);
    Ok(Step {
        header,
        at: work.at,
    })
}
