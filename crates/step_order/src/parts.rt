// What is read to tell whether a Switch or an Invoke stops: the last value's cell, the clause with a tag.
ghost use Rattle.std.specs.Prelude.{◌≡◌};
ghost use Rattle.step_order.specs.Stopping.{last_cell_lem, ClauseOf};
ghost use Rattle.step_cells.specs.Cells.{found_cell};

use image_read_nodes::parts_of;
use step_cells::{Cell, cell_of};
use step_entries::last_value;
use step_header::state::State;
use step_places::search::find_clause;
use step_places::stepper::Stepper;

// The cell of the last entry's value, if it is one.
pub fn last_cell(state: &State<'_>) -> Option<Cell>
    ensures { found_cell result ≡ last_cell_lem state.now.store.now state.now.header }
{
    cell_of(state, last_value(state)?)
}

// The first clause with this tag of the statement at index i.
// (Here its index, and of any i: the place that a cell in a store has may be no record's. `step_enter::clause_of`, which a step takes, has the parameters too
// and asks that there be a record; its crate also writes, and stands above this one, which only reads.)
pub fn clause_of(stepper: &Stepper<'_>, i: usize, tag: u32) -> Option<usize>
    ensures { ClauseOf stepper.now.image.frame stepper.now.image.bytes.now i tag result }
{
    if stepper.image.frame.count <= i {
        return None;
    }
    let follows = parts_of(&stepper.image, i);
    find_clause(stepper, i + 1, follows.clauses, tag)
}
