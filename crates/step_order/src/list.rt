// The IDs of the linear machine's list, as a row: what stands last, and what can be added.
ghost use Rattle.std.specs.Prelude.{◌≡◌, not, ◌∷◌, [], ◌++◌, map};
ghost use Rattle.syntax.specs.Sets.{distinct};
ghost use Rattle.model.specs.Linear.{ends_in_lem};
ghost use Rattle.step_header.specs.States.{entries_of};
ghost use Rattle.step_rows.specs.Placing.{identified};
ghost use Rattle.step_rows.specs.Rows.{ids_of, slot_id};
ghost use Rattle.step_order.specs.Orderly.{added, replaced, front_of, IsFront};

use crate::listed::Listed;
use step_header::state::State;
use step_rows::places::Places;
use step_rows::row::Row;
use step_rows::{behind, disjoint, distinct, has, id_of, same, slot_places};

// The IDs of the store's entries.
pub fn entries_row<'a>(state: &State<'a>) -> Row<'a>
    ensures { ids_of result ≡ map slot_id (entries_of state.now) }
{
    let heap = state.header.heap as usize;
    Row {
        bytes: state.store,
        places: slot_places(64 + 16 * heap, state.header.entries as usize),
    }
}

// Places without the last k.
pub fn front_places(places: Places, k: usize) -> Places
    ensures { result ≡ front_of places k }
{
    Places {
        len: places.len.saturating_sub(k),
        ..places
    }
}

// The row without its last k.
pub fn front<'a>(row: &Row<'a>, k: usize) -> Row<'a>
    ensures { IsFront row.now k result }
{
    Row {
        bytes: row.bytes,
        places: front_places(row.places, k),
    }
}

// Is the ID the last of the list?
pub fn last_is(row: &Row<'_>, id: u32) -> bool
    ensures { result ≡ ends_in_lem (identified id ∷ []) (ids_of row.now) }
{
    let len = row.places.len;
    len != 0 && id_of(row, len - 1) == id
}

// Are the listed IDs the last of the list?
pub fn ends_in(listed: &Row<'_>, row: &Row<'_>) -> bool
    ensures { result ≡ ends_in_lem (ids_of listed.now) (ids_of row.now) }
{
    let others = row.places.len.saturating_sub(listed.places.len);
    same(&behind(row, others), listed)
}

// Is no ID in the list twice? Where one is sure, it is not asked.
fn is_distinct(list: &Listed<'_>) -> bool
    ensures { result ≡ «distinct» (ids_of list.now.row) }
{
    list.sure || distinct(&list.row)
}

// Can the ID come behind those of the list?
pub fn adds(list: &Listed<'_>, id: u32) -> bool
    ensures { result ≡ added (ids_of list.now.row) (identified id) }
{
    is_distinct(list) && !has(&list.row, id)
}

// Are the listed IDs the last of the list, and can the ID come in their place? (A test first, since `front` asks for what it says.)
pub fn replaces(listed: &Row<'_>, list: &Listed<'_>, id: u32) -> bool
    ensures { result ≡ replaced (ids_of listed.now) (ids_of list.now.row) (identified id) }
{
    if !ends_in(listed, &list.row) {
        return false;
    }
    let others = Listed {
        row: front(&list.row, listed.places.len),
        sure: list.sure,
    };
    adds(&others, id)
}

// Is an ID twice in the list and the row together?
pub fn repeats(list: &Listed<'_>, other: &Row<'_>) -> bool
    ensures { result ≡ not («distinct» (ids_of list.now.row ++ ids_of other.now)) }
{
    !is_distinct(list) || !distinct(other) || !disjoint(&list.row, other)
}
