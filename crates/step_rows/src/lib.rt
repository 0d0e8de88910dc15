// Rows of variable IDs: those of a list in an image, of the pairs of a Substitute, and of slots in a store.
#![tactic(auto)]

pub mod places;
pub mod records;
pub mod row;

ghost use Rattle.std.specs.Prelude.{◌≡◌, ◌+◌, ◌*◌, ◌^◌, ◌≤◌, ◌<◌, not, drop};
ghost use Rattle.syntax.specs.Sets.{elem, distinct};
ghost use Rattle.model.specs.Linear.{same_ids, present};
ghost use Rattle.step_rows.specs.Rows.{ids_of, id_at, IsBehind};
ghost use Rattle.step_rows.specs.Placing.{identified, behind_of, slot_places_lem};
ghost use Rattle.step_rows.specs.Apart.{apart, all_are_lem};

use crate::places::Places;
use crate::row::Row;
use image_fields::number;

// The places of the IDs of the n slots from at.
// `at` and `n`: this is where the two become one value.
pub fn slot_places(at: usize, n: usize) -> Places
    ensures { result ≡ slot_places_lem at n }
{
    Places {
        from: at,
        stride: 16,
        offset: 4,
        width: 4,
        len: n,
    }
}

// The places without the first k.
pub fn places_behind(places: Places, k: usize) -> Places
    requires { (k ≤ places.len) × (places.from + places.stride * places.len < 2 ^ 64) }
    ensures { result ≡ behind_of places k }
{
    Places {
        from: places.from + places.stride * k,
        len: places.len - k,
        ..places
    }
}

// The row without its first k.
pub fn behind<'a>(row: &Row<'a>, k: usize) -> Row<'a>
    requires { k ≤ row.now.places.len }
    ensures { IsBehind row.now k result }
{
    Row {
        bytes: row.bytes,
        places: places_behind(row.places, k),
    }
}

// The ID at place j. The row's width is given again, so that a caller can give it as a constant: then the ID is read at once (docs/SPEED.md).
fn id_at(row: &Row<'_>, width: usize, j: usize) -> u32
    requires { (width ≡ row.now.places.width) × (j < row.now.places.len) }
    ensures { result ≡ (id_at row.now j).0 }
{
    let places = row.places;
    number(
        row.bytes,
        places.from + places.stride * j + places.offset,
        width,
    )
}

// The ID at place j. (No `Index`: an ID is put together from its bytes, and no reference to it could be given.)
pub fn id_of(row: &Row<'_>, j: usize) -> u32
    requires { j < row.now.places.len }
    ensures { result ≡ (id_at row.now j).0 }
{
    id_at(row, row.places.width, j)
}

// Is the ID in the row? The width as in id_at.
fn search(row: &Row<'_>, width: usize, id: u32) -> bool
    requires { width ≡ row.now.places.width }
    ensures { result ≡ elem (identified id) (ids_of row.now) }
{
    (0..row.places.len).any(|j| id_at(row, width, j) == id)
}

// Is the ID in the row?
pub fn has(row: &Row<'_>, id: u32) -> bool
    ensures { result ≡ elem (identified id) (ids_of row.now) }
{
    // The IDs of slots: a search with a constant for the width, for speed.
    if row.places.width == 4 {
        return search(row, 4, id);
    }
    search(row, row.places.width, id)
}

// Have two rows the same IDs in the same order? No `==`: rows may differ in their bytes, and IDs alone count.
// `row` and `other`, here and below: two rows that are compared; each comes from another place, and nothing is said of both as one.
// (The counts first: places are compared where both rows have them.)
pub fn same(row: &Row<'_>, other: &Row<'_>) -> bool
    ensures { result ≡ same_ids (ids_of row.now) (ids_of other.now) }
{
    let len = row.places.len;
    if len != other.places.len {
        return false;
    }
    (0..len).all(|j| id_of(row, j) == id_of(other, j))
}

// Is every ID of the row in the other, or none, as is wanted?
// (One function for both, which differ in the answer of one test: two would have one proof twice.)
fn all_are(row: &Row<'_>, other: &Row<'_>, wanted: bool) -> bool
    ensures { result ≡ all_are_lem wanted (ids_of row.now) (ids_of other.now) }
{
    (0..row.places.len).all(|j| has(other, id_of(row, j)) == wanted)
}

// Is every ID of the row in the other?
pub fn all_present(row: &Row<'_>, other: &Row<'_>) -> bool
    ensures { result ≡ present (ids_of row.now) (ids_of other.now) }
{
    all_are(row, other, true)
}

// Is no ID of the row in the other?
pub fn disjoint(row: &Row<'_>, other: &Row<'_>) -> bool
    ensures { result ≡ apart (ids_of row.now) (ids_of other.now) }
{
    all_are(row, other, false)
}

// Is the ID at place j not again behind it? The width as in id_at.
fn not_again(row: &Row<'_>, width: usize, j: usize) -> bool
    requires { (width ≡ row.now.places.width) × (j < row.now.places.len) × (j + 1 < 2 ^ 64) }
    ensures { result ≡ not (elem (id_at row.now j) (drop (j + 1) (ids_of row.now))) }
{
    let rest = behind(row, j + 1);
    !search(&rest, width, id_at(row, width, j))
}

// Is no ID in the row twice? The width as in id_at.
fn differ(row: &Row<'_>, width: usize) -> bool
    requires { width ≡ row.now.places.width }
    ensures { result ≡ «distinct» (ids_of row.now) }
{
    (0..row.places.len).all(|j| not_again(row, width, j))
}

// Is no ID in the row twice?
pub fn distinct(row: &Row<'_>) -> bool
    ensures { result ≡ «distinct» (ids_of row.now) }
{
    // The IDs of slots, as in has.
    if row.places.width == 4 {
        return differ(row, 4);
    }
    differ(row, row.places.width)
}
