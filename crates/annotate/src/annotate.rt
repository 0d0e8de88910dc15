// The annotation of a record (questions 1 to 7, 13, 12): the free variables of its clauses, and of what follows them, as sets of IDs.
ghost use Rattle.std.specs.Prelude.{◌+◌, ◌≤◌, ◌<◌, ◌^◌, ◌≡◌, [], length, replicate};
ghost use Rattle.model.specs.FreeVars.{annotations};
ghost use Rattle.model.specs.Questions.{question7};
ghost use Rattle.image_spec.specs.Parse.{each};
ghost use Rattle.image_spec.specs.Shape.{flatten, flatten_clauses, max_depth};
ghost use Rattle.image_kinds.specs.Codes.{code_of};
ghost use Rattle.image_directory.specs.Images.{records_of};
ghost use Rattle.image_open.specs.Opening.{Known};
ghost use Rattle.image_read_nodes.specs.Nodes.{Followed};
ghost use Rattle.image_places_spec.specs.Places.{stmt_at, clauses_at, StmtStands, ClausesStand};
ghost use Rattle.image_write_parts.specs.Written.{Wrote};
ghost use Rattle.scope_spec.specs.Calls.{set_bytes, placing, annotating, annotate_of, Replies};
ghost use Rattle.scope_spec.specs.Marking.{mark_stmt, mark_clauses};
ghost use Rattle.scope_spec.specs.Rooms.{RoomFor, RoomForClauses};
ghost use Rattle.scope_check.specs.Deciding.{program_in};
ghost use Rattle.annotate.specs.Annotating.{annotated_kind, WroteSet, Annotated, Limited, Settled};

use crate::walk::{clauses, statement};
use annotate_marks::put_set;
use annotate_uses::counted::Counted;
use image_directory::image::Image;
use image_kinds::kinds::Kind;
use image_open::open;
use image_open::opened::Opened;
use image_read_nodes::{Follows, parts_of};
use image_spec::{Accepted, Answer, Layout, Refusal};
use image_write_bytes::bytes::clear;
use image_write_parts::writer::Writer;
use scope_check::check::within_limits;
use scope_check::definitions::walk_definitions;
use scope_records::flat::{Alone, all_records};
use scope_walk::walk::Walkable;
use syntax::sets::IdSet;

// (A name, and no pattern where it is asked: the definition has the name too, and the two are proved equal here once.)
fn has_annotation(kind: Kind) -> bool
    ensures { result ≡ annotated_kind (code_of kind) }
{
    matches!(
        kind,
        Kind::Let | Kind::Switch | Kind::Create | Kind::Literal | Kind::Op | Kind::Print
    )
}

// Writes the free variables of the statement at index i, and answers the index behind it.
// (`i`, `row` and `writer`, here and below: an index, room for one set, cleared before each, and what all sets are written in.)
fn put_statement(
    source: &Counted<'_>,
    i: usize,
    row: &mut [u8; Layout::IDS],
    writer: &mut Writer<'_>,
) -> usize
    requires { let part = stmt_at 127 (records_of source.now.image) i in
        StmtStands 127 (records_of source.now.image) i part × (RoomFor [] part × (writer.old.at + 1000000 < 2 ^ 64)) }
    ensures { let part = stmt_at 127 (records_of source.now.image) i in
        WroteSet writer.old writer.new result (i + length (flatten part)) (mark_stmt part [] (replicate (length row.old) 0)) }
{
    clear(row);
    let next = statement(source, Layout::DEPTH_BELOW, i, IdSet::empty(), row);
    put_set(row, writer);
    next
}

// Writes the free variables of the n clauses from index i on, and answers the index behind them.
// (Beside `put_statement`, from which it differs in one call: one function would take that call as a closure with a contract.)
fn put_clauses(
    source: &Counted<'_>,
    n: usize,
    i: usize,
    row: &mut [u8; Layout::IDS],
    writer: &mut Writer<'_>,
) -> usize
    requires { let part = clauses_at 127 n (records_of source.now.image) i in
        ClausesStand 127 n (records_of source.now.image) i part × (RoomForClauses [] part × (writer.old.at + 1000000 < 2 ^ 64)) }
    ensures { let part = clauses_at 127 n (records_of source.now.image) i in
        WroteSet writer.old writer.new result (i + length (flatten_clauses part)) (mark_clauses part [] (replicate (length row.old) 0)) }
{
    clear(row);
    let next = clauses(source, Layout::DEPTH_BELOW, n, i, IdSet::empty(), row);
    put_set(row, writer);
    next
}

// Writes the annotation of the record at index i: the set of its clauses, then the set of its next.
// (`follows` is what the caller has looked up at index i. The last arm is `_`: named, it would need one more arm that cannot come.)
fn put_annotation(
    image: &Image<'_>,
    i: usize,
    follows: Follows,
    row: &mut [u8; Layout::IDS],
    writer: &mut Writer<'_>,
)
    requires { (Annotated image.now.frame image.now.bytes.now i × Followed image.now.frame image.now.bytes.now i follows)
        × (writer.old.at + 2000000 < 2 ^ 64) }
    ensures { Wrote writer.old writer.new (each (set_bytes writer.old.id) (annotations (stmt_at max_depth (records_of image.now) i))) }
{
    let source = Counted { image: *image };
    match follows.kind {
        Kind::Switch => {
            put_clauses(&source, follows.clauses, i + 1, row, writer);
        }
        Kind::Create => {
            let next = put_clauses(&source, follows.clauses, i + 1, row, writer);
            put_statement(&source, next, row, writer);
        }
        _ => {
            put_statement(&source, i + 1, row, writer);
        }
    }
}

// Question 12, of the bytes that were to be written. (`pass_finish` has its own: it refuses by two questions, and of a writer's buffer.)
fn settle(out: &mut [u8], written: usize, max_id: u32) -> Answer
    ensures { Settled result out.old out.new written max_id }
{
    if out.len() < written {
        clear(out);
        return Err(Refusal::Room);
    }
    Ok(Accepted {
        length: written,
        max_id,
    })
}

// Questions 13 and 12, of an image that has passed 1 to 7.
// (`i` and `out`, here and below: two arguments of the exported function, an index to read at and a buffer to write.)
fn annotate_record(opened: &Opened<'_>, i: usize, out: &mut [u8]) -> Answer
    requires { Limited opened.now.image.frame opened.now.image.bytes.now opened.now.definitions opened.now.max_id }
    ensures { let program = program_in opened.now.definitions (records_of opened.now.image) opened.now.max_id in
        Replies (placing opened.now.image.frame.id program i (length out.old)) result out.old out.new }
{
    if opened.image.frame.count <= i {
        return Err(Refusal::Place);
    }
    let follows = parts_of(&opened.image, i);
    if !has_annotation(follows.kind) {
        return Err(Refusal::Place);
    }
    let mut row = [0u8; Layout::IDS];
    let mut writer = Writer {
        out,
        at: 0,
        id: opened.image.frame.id,
    };
    put_annotation(&opened.image, i, follows, &mut row, &mut writer);
    let written = writer.at;
    settle(out, written, opened.max_id)
}

// Question 7, of an opened image.
fn in_limits(opened: &Opened<'_>) -> bool
    ensures { result ≡ question7 (program_in opened.now.definitions (records_of opened.now.image) opened.now.max_id) }
{
    let walkable = Walkable {
        image: opened.image,
        max_id: opened.max_id,
    };
    within_limits(opened) && walk_definitions(&walkable, opened.definitions, &mut []).room
}

// Questions 6, 7, 13 and 12.
fn annotate_image(opened: &Opened<'_>, i: usize, out: &mut [u8]) -> Answer
    requires { opened.now.image.frame.id ≤ 2 }
    ensures { let program = program_in opened.now.definitions (records_of opened.now.image) opened.now.max_id in
        Replies (annotating opened.now.image.frame.id program i (length out.old)) result out.old out.new }
{
    if !all_records(&opened.image, Alone::Plain) {
        return Err(Refusal::Linearized);
    }
    if !in_limits(opened) {
        return Err(Refusal::Limits);
    }
    annotate_record(opened, i, out)
}

// Annotates the record at index i of an image of a layout whose IDs have at most two bytes.
pub fn annotate(image: &[u8], layout: Layout, i: usize, out: &mut [u8]) -> Answer
    requires { Known layout × (layout.id ≤ 2) }
    ensures { Replies (annotate_of layout image.now i (length out.old)) result out.old out.new }
{
    let opened = open(image, layout)?;
    annotate_image(&opened, i, out)
}
