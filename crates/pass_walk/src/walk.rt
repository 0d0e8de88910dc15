// The walk that linearizes: the statements of a body, each in its context, and the clauses of a statement. What a statement comes to is its
// step's; here is only the order: clauses first, then the step, then the bodies. What stands before the clauses is written once they are done,
// for they draw first; its place is kept free.
// (`source`, `depth`, `i`, `here` and `output`: source and output are the walk's, depth falls, i goes on, here is each statement's own.)
// (`before`: whether the clauses are a Create's, whose parameters come before the context; one test by the kind, as `enter` asks it.)
// (`depth`, `n` and `i`: n comes from the record above, and n clauses or statements may take more records, so n and i are no range.)
ghost use Rattle.std.specs.Prelude.{◌≡◌, ◌&&◌, ◌+◌, leb, length};
ghost use Rattle.image_spec.specs.Parse.{each};
ghost use Rattle.image_spec.specs.Shape.{flatten, flatten_clauses};
ghost use Rattle.image_places_spec.specs.Places.{stmt_at, clauses_at, bodies_at};
ghost use Rattle.image_directory.specs.Images.{records_of};
ghost use Rattle.image_kinds.specs.Codes.{code_of};
ghost use Rattle.image_write_directory.specs.Outputs.{so_far};
ghost use Rattle.scope_spec.specs.Pairs.{masks_of};
ghost use Rattle.pass_work_spec.specs.Work.{work_stmt, work_clauses};
ghost use Rattle.pass_step_spec.specs.Steps.{work_bodies};
ghost use Rattle.pass_context.specs.Holding.{work_of};
ghost use Rattle.pass_dispatch.specs.Choices.{proceeds};
ghost use Rattle.pass_walk.specs.Walking.{StmtAhead, ClausesAhead, BodiesAhead};
ghost use Rattle.pass_walk.specs.Outputs.{LinearizedIn};

use crate::source::Source;
use image_kinds::kinds::Kind;
use image_read_nodes::parts_of;
use image_read_parts::record::RecordAt;
use image_write_directory::output::Output;
use pass_clause::clause::enter;
use pass_dispatch::step::{open, proceed, settle};
use pass_statement_create::create;
use pass_statement_switch::switch;
use pass_step::source::SourceRecord;
use pass_step::working::Working;

// (`has_clauses` and `proceeds` are names and no `match` in the walk: its proof then has three cases and not thirteen.)
fn has_clauses(kind: Kind) -> bool
    ensures { result ≡ (leb 5 (code_of kind) && leb (code_of kind) 6) }
{
    matches!(kind, Kind::Switch | Kind::Create)
}

fn proceeds(kind: Kind) -> bool
    ensures { result ≡ «proceeds» (code_of kind) }
{
    matches!(kind, Kind::Let | Kind::Literal | Kind::Op | Kind::Print)
}

// The statement at index i, of depth at most `depth`. The index behind it is answered.
// (Place and count are set back by hand behind clauses: the output is lent, so there is no earlier one to go back to.)
#[cycle(bodies_clauses_statement)]
pub fn statement(
    source: &Source<'_>,
    depth: usize,
    i: usize,
    here: &Working,
    output: &mut Output<'_, '_>,
) -> usize
    requires { let image = source.now.image in
        StmtAhead image.frame image.bytes.now (masks_of source.now.rows.now) output.old.writer.id depth i here.now.context here.now.in_scope (so_far output.old) (stmt_at depth (records_of image) i) }
    ensures { let part = stmt_at depth (records_of source.now.image) i in
        let done = work_stmt part (work_of here.now.context) here.now.in_scope output.old.max_id in
        LinearizedIn output.old output.new result (i + length (flatten part)) (flatten done.0) done.1 }
{
    let parts = parts_of(&source.image, i);
    let kind = parts.kind;
    let free_vars = source.rows[i];
    let node = RecordAt {
        image: source.image,
        index: i,
        kind,
    };
    let record = SourceRecord { node };
    if has_clauses(kind) {
        let (at, count) = (output.writer.at, output.count);
        let opened = open(&record, free_vars, &here.context, output);
        let before = kind == Kind::Create;
        let inside = Working {
            context: opened.context,
            ..*here
        };
        let n = parts.clauses;
        let next = clauses(source, depth - 1, n, i + 1, before, &inside, output);
        let (at_next, count_next) = (output.writer.at, output.count);
        output.writer.at = at;
        output.count = count;
        if before {
            let stepped = create::linearize(&record, free_vars, here, &opened, output);
            output.writer.at = at_next;
            output.count = count_next;
            return statement(source, depth - 1, next, &stepped, output);
        }
        switch::linearize(&record, free_vars.clauses, here, &opened, output);
        output.writer.at = at_next;
        output.count = count_next;
        return next;
    }
    if proceeds(kind) {
        let stepped = proceed(&record, free_vars, here, output);
        return statement(source, depth - 1, i + 1, &stepped, output);
    }
    settle(&record, here, output);
    if parts.bodies == 0 {
        return i + 1;
    }
    bodies(source, depth - 1, parts.bodies, i + 1, here, output)
}

// The n clauses from index i on, with bodies of depth at most `depth`.
#[cycle(bodies_clauses_statement)]
fn clauses(
    source: &Source<'_>,
    depth: usize,
    n: usize,
    i: usize,
    before: bool,
    here: &Working,
    output: &mut Output<'_, '_>,
) -> usize
    requires { let image = source.now.image in
        ClausesAhead image.frame image.bytes.now (masks_of source.now.rows.now) output.old.writer.id depth n i before here.now.context here.now.in_scope (so_far output.old) (clauses_at depth n (records_of image) i) }
    ensures { let part = clauses_at depth n (records_of source.now.image) i in
        let done = work_clauses part before (work_of here.now.context) here.now.in_scope output.old.max_id in
        LinearizedIn output.old output.new result (i + length (flatten_clauses part)) (flatten_clauses done.0) done.1 }
{
    let mut next = i;
    for _ in 0..n {
        let node = RecordAt {
            image: source.image,
            index: next,
            kind: Kind::Clause,
        };
        let entered = enter(&SourceRecord { node }, before, here, output);
        next = statement(source, depth, next + 1, &entered, output);
    }
    next
}

// The n statements from index i on, each of depth at most `depth`. (Beside `clauses`: a clause has a record of its own before its body.)
#[cycle(bodies_clauses_statement)]
fn bodies(
    source: &Source<'_>,
    depth: usize,
    n: usize,
    i: usize,
    here: &Working,
    output: &mut Output<'_, '_>,
) -> usize
    requires { let image = source.now.image in
        BodiesAhead image.frame image.bytes.now (masks_of source.now.rows.now) output.old.writer.id depth n i here.now.context here.now.in_scope (so_far output.old) (bodies_at depth n (records_of image) i) }
    ensures { let part = bodies_at depth n (records_of source.now.image) i in
        let done = work_bodies part (work_of here.now.context) here.now.in_scope output.old.max_id in
        LinearizedIn output.old output.new result (i + length (each flatten part)) (each flatten done.0) done.1 }
{
    let mut next = i;
    for _ in 0..n {
        next = statement(source, depth, next, here, output);
    }
    next
}
