// The statement at hand: what steps go through, the state, and the record at its position.
ghost use Rattle.std.specs.Prelude.{◌≡◌};

use crate::sure::SureState;
use image_read_parts::record::RecordAt;
use step_places::stepper::Stepper;

#[derive(Clone, Copy)]
pub struct AtHand<'a> {
    pub stepper: &'a Stepper<'a>,
    pub known: &'a SureState<'a>,
    pub node: RecordAt<'a>,
    pub ghost image_is: { node.image ≡ stepper.now.image },
    pub ghost index_is: { node.index ≡ known.now.state.header.position },
}
