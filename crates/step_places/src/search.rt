// The clause with a tag, the definition with a label or at a place: where its record is. Its body is behind it.
ghost use Rattle.std.specs.Prelude.{◌≡◌, drop};
ghost use Rattle.image_shape.specs.Nodes.{IsHead};
ghost use Rattle.step_places.specs.Searches.{name_of, is_named_lem, FindsHead, FindsClause, FindsLabel, FindsDefinition};
ghost use Rattle.image_directory.specs.Images.{records_of};
ghost use Rattle.image_kinds.specs.Codes.{code_of};

use crate::ends::{behind, hop};
use crate::stepper::Stepper;
use image_directory::image::Image;
use image_fields::number;
use image_kinds::kinds::Kind;
use image_read_nodes::parts_of;
use image_read_parts::offset;

// Is the record at index i a definition or clause, as `kind` says, with this name?
// `image` and `i`: there may be no record at i, or one of another kind, so it is no `RecordAt`. (By its byte: the name is all else that is read.
// The test comes first, since what is read asks for it.)
fn is_named(image: &Image<'_>, i: usize, kind: Kind, name: u32) -> bool
    requires { IsHead (code_of kind) }
    ensures { result ≡ is_named_lem (code_of kind) (name_of name) (drop i (records_of image.now)) }
{
    if image.frame.count <= i {
        return false;
    }
    let start = offset(image, i);
    image.bytes[start] == kind as u8 && name == number(image.bytes, start + 1, 2)
}

// The first with this name of the n definitions or clauses from `from` on. (A loop from one to the next by its end: no slice has them side by side.)
// `kind` and `name`: which record is searched for. `name`, and IDs, tags and labels in the steppers: u32, the four bytes that a slot has for each (an
// event has two for a name); `Name` and `VarId` are what records are read to.
fn find(stepper: &Stepper<'_>, from: usize, n: usize, kind: Kind, name: u32) -> Option<usize>
    requires { IsHead (code_of kind) }
    ensures { FindsHead stepper.now.image.frame stepper.now.image.bytes.now (code_of kind) n from name result }
{
    let mut here = from;
    for _ in 0..n {
        if is_named(&stepper.image, here, kind, name) {
            return Some(here);
        }
        here = behind(stepper.ends, here);
    }
    None
}

// The first with this tag of the clauses from `from` on.
pub fn find_clause(stepper: &Stepper<'_>, from: usize, clauses: usize, tag: u32) -> Option<usize>
    ensures { FindsClause stepper.now.image.frame stepper.now.image.bytes.now clauses from tag result }
{
    find(stepper, from, clauses, Kind::Clause, tag)
}

// The first definition with this label.
pub fn find_label(stepper: &Stepper<'_>, label: u32) -> Option<usize>
    ensures { FindsLabel stepper.now.image.frame stepper.now.image.bytes.now stepper.now.definitions label result }
{
    find(stepper, 0, stepper.definitions, Kind::Definition, label)
}

// The definition at place n among the definitions.
pub fn find_definition(stepper: &Stepper<'_>, n: usize) -> Option<usize>
    ensures { FindsDefinition stepper.now.image.frame stepper.now.image.bytes.now stepper.now.definitions n result }
{
    if stepper.definitions <= n {
        return None;
    }
    let here = hop(stepper.ends, 0, n);
    if stepper.image.frame.count <= here {
        return None;
    }
    (parts_of(&stepper.image, here).kind == Kind::Definition).then_some(here)
}
