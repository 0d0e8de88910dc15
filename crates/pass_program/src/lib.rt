// program.rs: linearization of a whole image (questions 1 to 12).
#![tactic(auto)]

ghost use Rattle.std.specs.Prelude.{◌*◌, ◌≤◌, ◌≡◌, length};
ghost use Rattle.model.specs.Pass.{linearize};
ghost use Rattle.image_open.specs.Opening.{Known};
ghost use Rattle.image_places_spec.specs.Places.{Begins};
ghost use Rattle.scope_spec.specs.FreeRows.{rows_defs};
ghost use Rattle.scope_spec.specs.Pairs.{masks_of};
ghost use Rattle.scope_spec.specs.Calls.{Replies};
ghost use Rattle.scope_check.specs.Definitions.{defs_in};
ghost use Rattle.scope_check.specs.Deciding.{program_in};
ghost use Rattle.pass_answer_spec.specs.Calls.{linearizing, linearize_of};
ghost use Rattle.pass_finish.specs.Finishing.{closing};
ghost use Rattle.pass_program.specs.Programs.{Read, Checked, AtRecords};
ghost use Rattle.image_directory.specs.Images.{records_of};

use image_directory::Frame;
use image_open::open;
use image_open::opened::Opened;
use image_spec::{Answer, Layout};
use image_write_directory::output::Output;
use image_write_parts::writer::Writer;
use pass_definitions::program::definitions;
use pass_finish::finish;
use pass_walk::source::Source;
use scope_check::check::check_image;
use scope_spec::FreeVars;

// Questions 11 and 12, of an image that has passed 1 to 10. `rows` has a row of each record of the source, `lengths` has room for the length of
// each that is written. (A writer that is in an output comes back by its buffer, so that a caller knows what was written to it.)
// (`opened` and `layout`, here and below: what was read, and what the header is written by, which nobody else needs of what is opened. `opened` and
// `rows`: the same rows are what the check stores in, while it reads what is opened.)
fn linearize_program(
    opened: &Opened<'_>,
    layout: Layout,
    rows: &[FreeVars],
    lengths: &mut [usize],
    writer: &mut Writer<'_>,
) -> Answer
    requires { let image = opened.now.image in
        let definitions = opened.now.definitions in
        Checked layout image.frame image.bytes.now definitions opened.now.max_id
        × (Begins (masks_of rows.now) 0 (rows_defs (defs_in definitions (records_of image)))
        × ((2 * image.frame.count ≤ length lengths.old) × AtRecords image.frame writer.old)) }
    ensures { let whole = program_in opened.now.definitions (records_of opened.now.image) opened.now.max_id in
        Replies (closing layout (linearize whole) (length writer.old.out.now)) result writer.old.out.now writer.new.out.now
        × (writer.new.out.ghost_name ≡ writer.old.out.ghost_name) }
{
    let at = writer.at;
    let id = writer.id;
    let writing = Writer {
        out: std::mem::take(&mut writer.out),
        at,
        id,
    };
    let mut output = Output {
        writer: writing,
        lengths,
        count: 0,
        max_id: opened.max_id,
    };
    let source = Source {
        image: opened.image,
        rows,
    };
    definitions(&source, opened.definitions, &mut output);
    let answer = finish(&mut output, layout, opened.definitions, at);
    let written = output.writer;
    writer.out = written.out;
    answer
}

// Questions 6 to 12. The records are written behind the place of a directory for as many records as the source has; there may be up to twice as many.
// What is worked with is lent: room in `rows` for each record, in `lengths` for two of each, if there are not more than question 7 allows.
fn linearize_lent(
    opened: &Opened<'_>,
    layout: Layout,
    rows: &mut [FreeVars],
    lengths: &mut [usize],
    out: &mut [u8],
) -> Answer
    requires { let image = opened.now.image in
        let definitions = opened.now.definitions in
        Read layout image.frame image.bytes.now definitions opened.now.max_id
        × (image.frame.count ≤ 2000 → (image.frame.count ≤ length rows.old) × (2 * image.frame.count ≤ length lengths.old)) }
    ensures { Replies (linearizing layout (program_in opened.now.definitions (records_of opened.now.image) opened.now.max_id) (length out.old)) result out.old out.new }
{
    check_image(opened, rows)?;
    let mut writer = Writer {
        out,
        at: opened.image.frame.start,
        id: opened.image.frame.id,
    };
    linearize_program(opened, layout, rows, lengths, &mut writer)
}

// Questions 6 to 12.
fn linearize_image(opened: &Opened<'_>, layout: Layout, out: &mut [u8]) -> Answer
    requires { Read layout opened.now.image.frame opened.now.image.bytes.now opened.now.definitions opened.now.max_id }
    ensures { Replies (linearizing layout (program_in opened.now.definitions (records_of opened.now.image) opened.now.max_id) (length out.old)) result out.old out.new }
{
    let none = FreeVars {
        clauses: 0,
        next: 0,
    };
    if opened.image.frame.count <= Frame::FEW_SOURCE_RECORDS {
        let mut rows = [none; Frame::FEW_SOURCE_RECORDS];
        let mut lengths = [0usize; Frame::FEW_OUTPUT_RECORDS];
        return linearize_lent(opened, layout, &mut rows, &mut lengths, out);
    }
    let mut rows = [none; Frame::MAX_SOURCE_RECORDS];
    let mut lengths = [0usize; Frame::MAX_OUTPUT_RECORDS];
    linearize_lent(opened, layout, &mut rows, &mut lengths, out)
}

// Linearizes an image of a layout whose IDs have at most two bytes.
pub fn linearize(image: &[u8], layout: Layout, out: &mut [u8]) -> Answer
    requires { Known layout × (layout.id ≤ 2) }
    ensures { Replies (linearize_of layout image.now (length out.old)) result out.old out.new }
{
    let opened = open(image, layout)?;
    linearize_image(&opened, layout, out)
}
