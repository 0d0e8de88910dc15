// Whether the linear machine stops at the statement at hand: because of the IDs that the statement shows, or of those that it brings.
#![tactic(auto)]

pub mod at_hand;
pub mod entering;
pub mod list;
pub mod listed;
pub mod parts;
pub mod statements;
pub mod sure;

ghost use Rattle.std.specs.Prelude.{◌≡◌, map, ◌<◌};
ghost use Rattle.step_rows.specs.Rows.{slot_id, ids_of};
ghost use Rattle.step_order.specs.Orderly.{orderly};
ghost use Rattle.step_order.specs.Stopping.{work_at, step_at, StopsBy};
ghost use Rattle.step_header.specs.States.{entries_of};
ghost use Rattle.image_read_parts.specs.Recorded.{record_in};

use crate::at_hand::AtHand;
use crate::entering::{call, invoke, switch};
use crate::list::entries_row;
use crate::listed::Listed;
use crate::statements::{create, ifc, is_last, is_present, let_, literal, op, substitute};
use crate::sure::SureState;
use image_kinds::kinds::Kind;
use image_read_nodes::parts_of;
use image_read_parts::record::RecordAt;
use step_places::stepper::Stepper;

// Are the IDs that a statement shows in order, where the list has those of the row?
fn ordered(node: &RecordAt<'_>, list: &Listed<'_>) -> bool
    ensures { result ≡ orderly (record_in node.now) (ids_of list.now.row) }
{
    match node.kind {
        Kind::Substitute => substitute(node, &list.row),
        Kind::Call => true,
        Kind::Let => let_(node, list),
        Kind::Switch | Kind::Invoke => is_last(node, &list.row),
        Kind::Create => create(node, list),
        Kind::Literal => literal(node, list),
        Kind::Op => op(node, list),
        Kind::IfC => ifc(node, &list.row),
        Kind::Print | Kind::Exit => is_present(node, &list.row),
        Kind::Definition | Kind::Clause => false,
    }
}

// Are the IDs that the statement at hand shows in order, where the list has those of the store's entries?
pub fn in_order(node: &RecordAt<'_>, known: &SureState<'_>) -> bool
    ensures { result ≡ orderly (record_in node.now) (map slot_id (entries_of known.now.state)) }
{
    let list = Listed {
        row: entries_row(&known.state),
        sure: known.sure,
    };
    ordered(node, &list)
}

// Does the machine stop because of the IDs that the statement at hand, whose own are in order, brings?
fn stops_entering(hand: &AtHand<'_>) -> bool
    ensures { StopsBy work_at hand.now.stepper.now hand.now.stepper.now.image.bytes.now hand.now.known.now.state.store.now hand.now.known.now.state.header result }
{
    match hand.node.kind {
        Kind::Call => call(hand.stepper, &hand.node, hand.known.state.header),
        Kind::Switch => switch(hand),
        Kind::Invoke => invoke(hand),
        // The ten kinds that bring nothing: what is proved of them is only that they are none of the three above.
        _ => false,
    }
}

// Does the linear machine stop at the state? Where one is sure that its entries' IDs are distinct, that is not asked.
// The stepper and the state, also in step_call: the program is one for a call, and each step makes another state of it.
// (That the position is a record's is asked here, in step_call, step_settle, step_start, step_enter and Switch: a header is of a store, which says nothing of
// an image.)
pub fn stops<'a>(stepper: &'a Stepper<'a>, known: &'a SureState<'a>) -> bool
    requires { known.now.state.header.position < stepper.now.image.frame.count }
    ensures { StopsBy step_at stepper.now stepper.now.image.bytes.now known.now.state.store.now known.now.state.header result }
{
    let index = known.state.header.position as usize;
    let kind = parts_of(&stepper.image, index).kind;
    let node = RecordAt {
        image: stepper.image,
        index,
        kind,
    };
    let hand = AtHand {
        stepper,
        known,
        node,
    };
    !in_order(&node, known) || stops_entering(&hand)
}
