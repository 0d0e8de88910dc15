// Stores, and their slots.
ghost use Rattle.std.specs.Iterator.{at_most};
ghost use Rattle.std.specs.Prelude.{length};

use crate::value::Value;
use try_building::reader::Reader;
use try_building::sort::Sort;

// The most bytes of a store that is shown, and of one that is lent to a run.
pub const BYTES: usize = 983040;

// The bytes before the slots, and of a slot.
const HEADER: usize = 64;

const SLOT: usize = 16;

#[derive(Clone, Copy, Debug, PartialEq, Eq)]
pub enum Slot {
    // A value, with the entry's ID. The bits of a cell are the place of its own slot.
    Held { sort: Sort, bits: u64, id: u32 },
    // The own slot of a cell that a Let made, with a tag.
    Let { cell: u64, tag: u32 },
    // The own slot of a cell that a Create made, with the place of its record.
    Create { cell: u64, record: u32 },
}

impl Slot {
    fn read(reader: &mut Reader<'_>) -> Option<Slot> {
        let sort = Sort::of(reader.byte()?);
        reader.take(3)?;
        let number = reader.word()?;
        let bits = reader.double()?;
        Some(match sort {
            Sort::LetCell => Slot::Let {
                cell: bits,
                tag: number,
            },
            Sort::CreateCell => Slot::Create {
                cell: bits,
                record: number,
            },
            Sort::Integer | Sort::Cell | Sort::Outside => Slot::Held {
                sort,
                bits,
                id: number,
            },
        })
    }
}

// Slots, one after the other: those that are still to come.
#[derive(Clone, Copy)]
pub struct Slots<'a> {
    bytes: &'a [u8],
}

impl<'a> Slots<'a> {
    // The slots from a place on.
    pub fn from(self, k: usize) -> Slots<'a> {
        let bytes = self.bytes.get(SLOT.saturating_mul(k)..).unwrap_or(&[]);
        Slots { bytes }
    }
}

impl Iterator for Slots<'_> {
    type Item = Slot;

    ghost remaining = { λ s. at_most (length s.bytes.now) };

    fn next(&mut self) -> Option<Slot> {
        Slot::read(&mut Reader::new(self.bytes.split_off(..SLOT)?))
    }
}

#[derive(Clone, Copy)]
pub struct Store<'a> {
    // The place of the record of the statement at hand.
    pub position: u32,
    // The two flags of document 02, a byte each, and any of the four pairs can stand there.
    pub has_ended: bool,
    pub has_stopped: bool,
    pub cells: Slots<'a>,
    // The entries of the environment.
    pub entries: Slots<'a>,
    // The bytes of the whole state.
    pub bytes: &'a [u8],
}

fn take_slots<'a>(reader: &mut Reader<'a>, n: u64) -> Option<Slots<'a>> {
    let n = usize::try_from(n).ok()?;
    let bytes = reader.take(SLOT.checked_mul(n)?)?;
    Some(Slots { bytes })
}

impl<'a> Store<'a> {
    // The state that these bytes begin with. No TryFrom: why they are none is not told.
    pub fn of(bytes: &'a [u8]) -> Option<Store<'a>> {
        let mut reader = Reader::new(bytes);
        let position = reader.word()?;
        let has_ended = reader.byte()? != 0;
        let has_stopped = reader.byte()? != 0;
        reader.take(10)?;
        let cell_slots = reader.double()?;
        let entry_count = reader.double()?;
        let mut slots = Reader::at(bytes, HEADER)?;
        let cells = take_slots(&mut slots, cell_slots)?;
        let entries = take_slots(&mut slots, entry_count)?;
        let size = bytes.len().checked_sub(slots.rest().len())?;
        Some(Store {
            position,
            has_ended,
            has_stopped,
            cells,
            entries,
            bytes: bytes.get(..size)?,
        })
    }

    // What a slot holds. One refers to a cell by the place of its own slot, which has the number.
    pub fn value(self, slot: Slot) -> Value {
        match slot {
            Slot::Let { cell, .. } | Slot::Create { cell, .. } => Value::Cell(cell),
            Slot::Held {
                sort: Sort::Cell,
                bits,
                ..
            } => Value::Cell(self.number_of(bits)),
            Slot::Held { sort, bits, .. } => Value::of(sort, bits),
        }
    }

    // The number of the cell whose own slot is at a place, 0 where none is.
    fn number_of(self, place: u64) -> u64 {
        let slot = usize::try_from(place)
            .ok()
            .and_then(|k| self.cells.from(k).next());
        match slot {
            Some(Slot::Let { cell, .. } | Slot::Create { cell, .. }) => cell,
            Some(Slot::Held { .. }) | None => 0,
        }
    }
}
