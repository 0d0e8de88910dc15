// What steps go through: an image that was opened, its table of ends, how many definitions it has, and the machine.
ghost use Rattle.image_directory.specs.Images.{records_of};
ghost use Rattle.step_places.specs.Ends.{Ends};

use image_directory::image::Image;
use step_spec::MachineKind;

// Where a rule reads a record, it makes it of the stepper by hand (`RecordAt { image: stepper.image, index, kind }`), and so does what looks for a clause
// or a definition: what is asked of a literal's image, index and kind is found by computing. Of a function's result, or of a record that is handed
// down beside the stepper, three equations would be rewritten by wherever it is read.
#[derive(Clone, Copy)]
pub struct Stepper<'a> {
    pub image: Image<'a>,
    pub ends: &'a [u32],
    pub definitions: usize,
    pub machine: MachineKind,
    pub ghost right: { Ends (records_of image) ends.now },
}
