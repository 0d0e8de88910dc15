// A state, and whether one is sure that no ID stands twice in its entries.
// `sure` is a bool, here and in a list: code asks `sure || ..` of it, and that of two other cases would be a match for a yes or no.
ghost use Rattle.std.specs.Prelude.{map};
ghost use Rattle.step_rows.specs.Rows.{slot_id};
ghost use Rattle.step_header.specs.States.{entries_of};
ghost use Rattle.step_order.specs.Sure.{Sure};

use step_header::state::State;

#[derive(Clone, Copy)]
pub struct SureState<'a> {
    pub state: State<'a>,
    pub sure: bool,
    pub ghost knows: { Sure sure (map slot_id (entries_of state)) },
}
