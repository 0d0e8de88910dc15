// The questions that a stepper asks first: 1 to 10 of a source, 1 to 5 of a linear image.
#![tactic(auto)]

ghost use Rattle.image_open.specs.Opening.{Known};
ghost use Rattle.step_ask.specs.Asking.{Asks};

use image_open::open;
use image_open::opened::Opened;
use image_spec::{Layout, Refusal};
use scope_check::check::check_image;
use step_spec::MachineKind;

// `image`, `layout` and `machine`: bytes of which nothing is known yet, how to read them, and the machine; `open` takes no machine.
pub fn ask(image: &[u8], layout: Layout, machine: MachineKind) -> Result<Opened<'_>, Refusal>
    requires { Known layout }
    ensures { Asks layout machine image.now result }
{
    let opened = open(image, layout)?;
    if machine == MachineKind::Source {
        check_image(&opened, &mut [])?;
    }
    Ok(opened)
}
