// The IDs that a definition or clause brings count once it is found and the counts agree: is one then twice in the list?
ghost use Rattle.std.specs.Prelude.{ℕ, List, ◌≡◌};
ghost use Rattle.step_order.specs.Stopping.{work_at, StopsBy};
ghost use Rattle.image_kinds.specs.declared.kinds.Kind.TheVariants.{Call, Switch, Invoke};

use crate::at_hand::AtHand;
use crate::list::{entries_row, front, repeats};
use crate::listed::Listed;
use crate::parts::{clause_of, last_cell};
use image_kinds::kinds::Kind;
use image_read_nodes::first;
use image_read_parts::record::RecordAt;
use step_header::Header;
use step_places::search::find_label;
use step_places::stepper::Stepper;
use step_rows::records::list_row;
use step_rows::row::Row;
use step_rows::{distinct, slot_places};
use step_slots::sort::Sort;
use step_tags::tag_of;

// (The record that was found is a literal in each of the three, for the reason that stands at `Stepper`. What is asked of its list differs: Call asks it of
// a row, Switch of the clause's list behind others, Invoke of the clause's list before what a cell holds.)
// call.rs: the definition's parameters become the list. Whatever the store, only the count of its entries is asked.
// (No `AtHand`, which has a state: a header is asked for, and no store. A `bool` is answered, here and below, so no `?`.)
pub fn call(stepper: &Stepper<'_>, node: &RecordAt<'_>, header: Header) -> bool
    requires { (node.now.image ≡ stepper.now.image) × ((node.now.index ≡ header.position) × (node.now.kind ≡ Call)) }
    ensures { (store : List ℕ) → StopsBy work_at stepper.now stepper.now.image.bytes.now store header result }
{
    let name = first(node).name;
    let Some(j) = find_label(stepper, u32::from(name.0)) else {
        return false;
    };
    let found = RecordAt {
        image: stepper.image,
        index: j,
        kind: Kind::Definition,
    };
    let parameters = list_row(&found);
    parameters.places.len == header.entries as usize && !distinct(&parameters)
}

// switch.rs: the clause's parameters come behind all but the last.
pub fn switch(hand: &AtHand<'_>) -> bool
    requires { hand.now.node.kind ≡ Switch }
    ensures { StopsBy work_at hand.now.stepper.now hand.now.stepper.now.image.bytes.now hand.now.known.now.state.store.now hand.now.known.now.state.header result }
{
    let known = hand.known;
    let state = &known.state;
    let Some(cell) = last_cell(state) else {
        return false;
    };
    if cell.sort != Sort::LetCell {
        return false;
    }
    let Some(j) = clause_of(hand.stepper, hand.node.index, cell.id) else {
        return false;
    };
    let found = RecordAt {
        image: hand.stepper.image,
        index: j,
        kind: Kind::Clause,
    };
    let parameters = list_row(&found);
    let others = Listed {
        row: front(&entries_row(state), 1),
        sure: known.sure,
    };
    parameters.places.len == cell.len && repeats(&others, &parameters)
}

// invoke.rs: the clause's parameters in place of all but the last, and behind them the closure's entries.
pub fn invoke(hand: &AtHand<'_>) -> bool
    requires { hand.now.node.kind ≡ Invoke }
    ensures { StopsBy work_at hand.now.stepper.now hand.now.stepper.now.image.bytes.now hand.now.known.now.state.store.now hand.now.known.now.state.header result }
{
    let known = hand.known;
    let state = &known.state;
    let Some(cell) = last_cell(state) else {
        return false;
    };
    if cell.sort != Sort::CreateCell {
        return false;
    }
    let name = tag_of(&hand.node).name;
    let Some(j) = clause_of(hand.stepper, cell.id as usize, u32::from(name.0)) else {
        return false;
    };
    let found = RecordAt {
        image: hand.stepper.image,
        index: j,
        kind: Kind::Clause,
    };
    let parameters = Listed {
        row: list_row(&found),
        sure: false,
    };
    let values = (state.header.entries as usize).saturating_sub(1);
    let held = Row {
        bytes: state.store,
        places: slot_places(cell.from, cell.len),
    };
    parameters.row.places.len == values && repeats(&parameters, &held)
}
