// The scope check of an image: questions 1 to 10.
ghost use Rattle.std.specs.Prelude.{◌≡◌, ◌&&◌, leb};
ghost use Rattle.std.proofs.lemmas.List.Edits.{sets};
ghost use Rattle.model.specs.Sizes.{depth_defs};
ghost use Rattle.image_spec.specs.Reading.{answer_of};
ghost use Rattle.image_open.specs.Opening.{Known};
ghost use Rattle.scope_spec.specs.Flat.{all_records_lem, small_record_lem};
ghost use Rattle.scope_spec.specs.FreeRows.{rows_defs};
ghost use Rattle.scope_spec.specs.Pairs.{masks_of};
ghost use Rattle.scope_spec.specs.Calls.{checking, check_of};
ghost use Rattle.scope_check.specs.Definitions.{defs_in};
ghost use Rattle.scope_check.specs.Deciding.{decided, program_in};
ghost use Rattle.scope_walk.specs.Masks.{Passed};
ghost use Rattle.image_directory.specs.Images.{records_of};

use crate::definitions::{all_shallow, walk_definitions};
use image_directory::Frame;
use image_open::open;
use image_open::opened::Opened;
use image_spec::{Accepted, Answer, Layout, Refusal};
use scope_records::flat::{Alone, all_records};
use scope_spec::{FreeVars, Verdict};
use scope_walk::walk::Walkable;

// The limits of question 7, but for the room in the scopes.
pub fn within_limits(opened: &Opened<'_>) -> bool
    ensures { result ≡ (leb opened.now.image.frame.count 2000 && (all_records_lem small_record_lem (records_of opened.now.image)
        && leb (depth_defs (defs_in opened.now.definitions (records_of opened.now.image))) 64)) }
{
    opened.image.frame.count <= Frame::MAX_SOURCE_RECORDS
        && all_records(&opened.image, Alone::Small)
        && all_shallow(&opened.image, opened.definitions)
}

// What the walk's verdict says of questions 7 to 10, one after the other as the paper asks them. (No chain: each no has a number of its own.)
fn decide(v: Verdict, max_id: u32) -> Answer
    ensures { result ≡ decided v max_id }
{
    if !v.room {
        return Err(Refusal::Limits);
    }
    if !v.binders {
        return Err(Refusal::Binders);
    }
    if !v.uses {
        return Err(Refusal::Scope);
    }
    if !v.ids {
        return Err(Refusal::MaxId);
    }
    Ok(Accepted { length: 0, max_id })
}

// Questions 6 to 10 of an image that is opened. If 6, 7 and 8 have a yes, there is a row for each record then. (A row past
// the end of the rows is left out.)
// (`opened` and `rows`: what is read, and what is stored, one of each for the whole check.)
pub fn check_image(opened: &Opened<'_>, rows: &mut [FreeVars]) -> Answer
    ensures { let records = records_of opened.now.image in
        let definitions = opened.now.definitions in
        (result ≡ answer_of (checking (program_in definitions records opened.now.max_id)))
        × (Passed (program_in definitions records 0) → masks_of rows.new ≡ sets (masks_of rows.old) 0 (rows_defs (defs_in definitions records))) }
{
    if !all_records(&opened.image, Alone::Plain) {
        return Err(Refusal::Linearized);
    }
    if !within_limits(opened) {
        return Err(Refusal::Limits);
    }
    let walkable = Walkable {
        image: opened.image,
        max_id: opened.max_id,
    };
    decide(
        walk_definitions(&walkable, opened.definitions, rows),
        opened.max_id,
    )
}

// Checks an image of a layout.
pub fn check(image: &[u8], layout: Layout) -> Answer
    requires { Known layout }
    ensures { result ≡ answer_of (check_of layout image.now) }
{
    let opened = open(image, layout)?;
    check_image(&opened, &mut [])
}
