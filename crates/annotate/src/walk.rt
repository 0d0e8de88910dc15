// The walk that marks what a statement, or clauses, use and do not bind.
// (`source`, `depth`, `i`, `bound` and `row`: source and row are one for the walk, depth falls, i goes on, bound is each statement's own.)
// (`depth`, `n` and `i`: n comes from the record above, and n clauses or statements may take more records, so n and i are no range.)
ghost use Rattle.std.specs.Prelude.{◌+◌, length};
ghost use Rattle.syntax.specs.Arrays.{set_of};
ghost use Rattle.image_spec.specs.Parse.{each, All};
ghost use Rattle.image_spec.specs.Shape.{flatten, flatten_clauses};
ghost use Rattle.image_directory.specs.Images.{records_of};
ghost use Rattle.image_places_spec.specs.Places.{stmt_at, clauses_at, bodies_at, StmtStands, ClausesStand, BodiesStand};
ghost use Rattle.scope_spec.specs.Marking.{mark_stmt, mark_clauses, mark_bodies};
ghost use Rattle.scope_spec.specs.Rooms.{RoomFor, RoomForClauses};
ghost use Rattle.scope_places.specs.Scoping.{Scope};
ghost use Rattle.annotate.specs.Marks.{MarkedTo};

use annotate_marks::mark_all;
use annotate_uses::counted::Counted;
use annotate_uses::{bind, uses};
use image_kinds::kinds::Kind;
use image_read_nodes::parts_of;
use image_read_parts::record::RecordAt;
use syntax::sets::IdSet;

// The statement at index i, of depth at most `depth`. (`RoomFor`, here and in what calls this, is asked and is in no type: it is said of a statement
// together with the set that is bound at it, and both change at every step.)
#[cycle(bodies_clauses_statement)]
pub fn statement(
    source: &Counted<'_>,
    depth: usize,
    i: usize,
    bound: IdSet,
    row: &mut [u8],
) -> usize
    requires { let here = stmt_at depth (records_of source.now.image) i in
        StmtStands depth (records_of source.now.image) i here × (Scope bound × RoomFor (set_of bound) here) }
    ensures { let here = stmt_at depth (records_of source.now.image) i in
        MarkedTo result row.new (i + length (flatten here)) (mark_stmt here (set_of bound) row.old) }
{
    let f = parts_of(&source.image, i);
    let node = RecordAt {
        image: source.image,
        index: i,
        kind: f.kind,
    };
    let used = uses(&node);
    mark_all(row, bound, used);
    let next = clauses(source, depth - 1, f.clauses, i + 1, bound, row);
    let inner = bind(&node, bound);
    bodies(source, depth - 1, f.bodies, next, inner, row)
}

// The n clauses from index i on, with bodies of depth at most `depth`.
#[cycle(bodies_clauses_statement)]
pub fn clauses(
    source: &Counted<'_>,
    depth: usize,
    n: usize,
    i: usize,
    bound: IdSet,
    row: &mut [u8],
) -> usize
    requires { let here = clauses_at depth n (records_of source.now.image) i in
        ClausesStand depth n (records_of source.now.image) i here × (Scope bound × RoomForClauses (set_of bound) here) }
    ensures { let here = clauses_at depth n (records_of source.now.image) i in
        MarkedTo result row.new (i + length (flatten_clauses here)) (mark_clauses here (set_of bound) row.old) }
{
    let mut here = i;
    for _ in 0..n {
        let node = RecordAt {
            image: source.image,
            index: here,
            kind: Kind::Clause,
        };
        let inner = bind(&node, bound);
        here = statement(source, depth, here + 1, inner, row);
    }
    here
}

// The n statements from index i on, each of depth at most `depth`.
// (Beside `clauses`: a clause has a record of its own before its body.)
#[cycle(bodies_clauses_statement)]
fn bodies(
    source: &Counted<'_>,
    depth: usize,
    n: usize,
    i: usize,
    bound: IdSet,
    row: &mut [u8],
) -> usize
    requires { let here = bodies_at depth n (records_of source.now.image) i in
        BodiesStand depth n (records_of source.now.image) i here × (Scope bound × All (RoomFor (set_of bound)) here) }
    ensures { let here = bodies_at depth n (records_of source.now.image) i in
        MarkedTo result row.new (i + length (each flatten here)) (mark_bodies here (set_of bound) row.old) }
{
    let mut here = i;
    for _ in 0..n {
        here = statement(source, depth, here, bound, row);
    }
    here
}
