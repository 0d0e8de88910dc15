// IDs in a row, and whether one is sure that none of them is there twice.
ghost use Rattle.step_rows.specs.Rows.{ids_of};
ghost use Rattle.step_order.specs.Sure.{Sure};

use step_rows::row::Row;

#[derive(Clone, Copy)]
pub struct Listed<'a> {
    pub row: Row<'a>,
    pub sure: bool,
    pub ghost knows: { Sure sure (ids_of row) },
}
