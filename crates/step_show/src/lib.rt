// The step that ends a run with an outside number: its event is shown with argument values behind it, and of the state only the header is written.
#![tactic(auto)]

ghost use Rattle.std.specs.Prelude.{◌+◌, ◌*◌, ◌/◌, ◌≤◌, ◌<◌, ◌^◌, length};
ghost use Rattle.step_slots.specs.Views.{slots_at};
ghost use Rattle.step_write.specs.Working.{EndingIn};
ghost use Rattle.step_show.specs.Showing.{ShowsIn};

use step_gather::show;
use step_header::heap::Heap;
use step_header::{Header, put_header};
use step_write::{EventHead, Step, Stop, Work, fits, put_event, store_of};

// The n values are the slots of the store from byte `from` on. (A slice of the store would still be lent while `work` is written.)
// `from` and `n`: here they are values that are shown, and not slots that stay. `event` and `header` as at `step_write::finish`.
pub fn finish_showing(
    work: &mut Work<'_>,
    event: EventHead,
    header: Header,
    from: usize,
    n: usize,
) -> Result<Step, Stop>
    requires { EndingIn work.old header × ((64 + 16 * header.heap ≤ from) × (from + 16 * n ≤ length work.old.store.now)) }
    ensures { ShowsIn work.old work.new event header (slots_at work.old.store.now from n) result }
{
    if !fits(work, header, 16 + 16 * n) {
        return Err(Stop::NoRoom);
    }
    let at = work.at;
    let values = put_event(work.events, at, event);
    // (Taken out, here and below, while the store is lent: two fields of one `&mut` are not lent at one time, as `Work` says.)
    let events = std::mem::take(&mut work.events);
    let store = store_of(work);
    let heap = Heap {
        store,
        count: header.heap as usize,
    };
    let next = show(&heap, store, from, n, events, values);
    work.events = events;
    put_header(work.store, header);
    Ok(Step { header, at: next })
}

// The values are these slots.
// (Beside `finish_showing`, and not in its place: a state may have more entries than scratch has room for, so they are shown from where they stand. One
// function of the two would take the slots, which in the one are lent from `work`.)
pub fn finish_showing_from(
    work: &mut Work<'_>,
    slots: &[u8],
    event: EventHead,
    header: Header,
) -> Result<Step, Stop>
    requires { EndingIn work.old header × ((64 + 16 * header.heap ≤ length work.old.store.now) × (16 + length slots.now < 2 ^ 64)) }
    ensures { ShowsIn work.old work.new event header (slots_at slots.now 0 (length slots.now / 16)) result }
{
    let n = slots.len() / 16;
    if !fits(work, header, 16 + 16 * n) {
        return Err(Stop::NoRoom);
    }
    let at = work.at;
    let values = put_event(work.events, at, event);
    let events = std::mem::take(&mut work.events);
    let heap = Heap {
        store: store_of(work),
        count: header.heap as usize,
    };
    let end = show(&heap, slots, 0, n, events, values);
    work.events = events;
    put_header(work.store, header);
    Ok(Step { header, at: end })
}
