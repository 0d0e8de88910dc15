// The IDs that stand at places in bytes.
ghost use Rattle.step_rows.specs.Placing.{Inside};

use crate::places::Places;

#[derive(Clone, Copy)]
pub struct Row<'a> {
    pub bytes: &'a [u8],
    pub places: Places,
    pub ghost inside: { Inside bytes.now places },
}
