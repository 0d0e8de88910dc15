// Questions 1 to 5 of an image.
#![tactic(auto)]

pub mod opened;

ghost use Rattle.std.specs.Prelude.{◌≡◌};
ghost use Rattle.image_spec.specs.Layout.{layout1};
ghost use Rattle.image_spec.specs.Reading.{reading, answer_of};
ghost use Rattle.image_open.specs.Opening.{Known, Head};
ghost use Rattle.image_open.specs.Opens.{Opens};

use crate::opened::Opened;
use image_directory::image::Image;
use image_directory::{Frame, all_formed, tiled};
use image_fields::number;
use image_shape::shaped;
use image_spec::{Accepted, Answer, Layout, Refusal};

// Asks the questions of an image of a layout, in their order.
// (`image` and `layout`, here and in what calls this: lent bytes of which nothing is known yet, and a constant of the library.)
pub fn open(image: &[u8], layout: Layout) -> Result<Opened<'_>, Refusal>
    requires { Known layout }
    ensures { Opens layout image.now result }
{
    let id = layout.id;
    let place = layout.place;
    if image.len() < layout.directory_at() || layout.largest < image.len() {
        return Err(Refusal::Size);
    }
    if number(image, 0, 2) != layout.number {
        return Err(Refusal::LayoutNumber);
    }
    let definitions = number(image, 2, 2) as usize;
    let max_id = number(image, 4, id);
    let count = number(image, 4 + id, place) as usize;
    open_records(image, layout, definitions, max_id, count)
}

// Questions 3 to 5, after the header was read.
fn open_records(
    image: &[u8],
    layout: Layout,
    definitions: usize,
    max_id: u32,
    count: usize,
) -> Result<Opened<'_>, Refusal>
    requires { Known layout × Head layout image.now definitions max_id count }
    ensures { Opens layout image.now result }
{
    if Layout::MAX_RECORDS < count {
        return Err(Refusal::Directory);
    }
    let frame = Frame {
        id: layout.id,
        place: layout.place,
        count,
        from: layout.directory_at(),
        start: layout.records_at(count),
    };
    if !tiled(image, frame) {
        return Err(Refusal::Directory);
    }
    if !all_formed(image, frame) {
        return Err(Refusal::RecordForm);
    }
    let image = Image {
        bytes: image,
        frame,
    };
    if !shaped(&image, definitions) {
        return Err(Refusal::Shape);
    }
    Ok(Opened {
        image,
        definitions,
        max_id,
    })
}

// Reads an image of layout 1.
pub fn read(image: &[u8]) -> Answer
    ensures { result ≡ answer_of (reading layout1 image.now) }
{
    let opened = open(image, Layout::one())?;
    Ok(Accepted {
        length: 0,
        max_id: opened.max_id,
    })
}
