// The walk of the questions 8, 9 and 10: the statements of a body, with the scope at each. On the way it finds the free variables of every
// record, from the last one up: the mask of a statement comes from what its record uses and the masks of its clauses and of its bodies.
// (`walkable`, `depth`, `i`, `scope`, `v` and `rows`: walkable and rows are one for the walk, depth falls, i and v go on, scope is set back.)
ghost use Rattle.std.specs.Prelude.{◌+◌, ◌*◌, length};
ghost use Rattle.std.proofs.lemmas.List.Edits.{sets};
ghost use Rattle.model.specs.FreeVars.{free_vars, free_vars_clauses};
ghost use Rattle.image_spec.specs.Parse.{each, All};
ghost use Rattle.image_spec.specs.Shape.{flatten, flatten_clauses};
ghost use Rattle.image_directory.specs.Images.{records_of};
ghost use Rattle.image_places_spec.specs.Places.{stmt_at, clauses_at, bodies_at, StmtStands, ClausesStand, BodiesStand};
ghost use Rattle.scope_spec.specs.Walk.{walk_stmt, walk_clauses, walk_bodies};
ghost use Rattle.scope_spec.specs.FreeRows.{mask_of, free_bodies, rows_stmt, rows_clauses, rows_bodies};
ghost use Rattle.scope_spec.specs.Pairs.{masks_of};
ghost use Rattle.scope_places.specs.Scoping.{scope_of};
ghost use Rattle.scope_walk.specs.Walks.{WalkedTo, Restored};
ghost use Rattle.scope_walk.specs.Masks.{Sourced, SourcedClauses, MaskedTo};

use image_directory::image::Image;
use image_kinds::kinds::Kind;
use image_read_nodes::{list_at, parts_of};
use image_read_parts::record::RecordAt;
use scope_nodes::nodes::{enter_list, enter_node, use_node};
use scope_places::mask::{join, put_row};
use scope_places::scope::InScope;
use scope_places::scoping::Using;
use scope_spec::{FreeVars, Verdict};

// What is walked: an image, and the max_id of its header. (No opened image: a statement may be walked where nobody asked question 5.)
#[derive(Clone, Copy)]
pub struct Walkable<'a> {
    pub image: Image<'a>,
    pub max_id: u32,
}

// Where the walk has come to, its verdict so far, and the free variables of what it came through, as a mask over the places in scope.
#[derive(Clone, Copy)]
pub struct Walked {
    pub next: usize,
    pub verdict: Verdict,
    pub free: u64,
}

// The statement at index i, of depth at most `depth`. The scope is afterwards as it was. Stores a row for each record.
#[cycle(bodies_clauses_statement)]
pub fn statement(
    walkable: &Walkable<'_>,
    depth: usize,
    i: usize,
    scope: &mut InScope<'_>,
    v: Verdict,
    rows: &mut [FreeVars],
) -> Walked
    requires { StmtStands depth (records_of walkable.now.image) i (stmt_at depth (records_of walkable.now.image) i) }
    ensures { let here = stmt_at depth (records_of walkable.now.image) i in
        let bound = scope_of scope.old in
        WalkedTo result (i + length (flatten here)) (walk_stmt here walkable.now.max_id bound v)
        × (Restored scope.old scope.new
        × (Sourced bound here → MaskedTo result (masks_of rows.new) (mask_of (free_vars here) bound)
        (sets (masks_of rows.old) (2 * i) (rows_stmt here bound)))) }
{
    let f = parts_of(&walkable.image, i);
    let node = RecordAt {
        image: walkable.image,
        index: i,
        kind: f.kind,
    };
    let start = Using {
        mask: 0,
        verdict: v,
    };
    let n = scope.n;
    let own = use_node(&node, &scope.view(), start);
    let c = clauses(
        walkable,
        depth - 1,
        f.clauses,
        i + 1,
        scope,
        own.verdict,
        rows,
    );
    let bound = enter_node(&node, scope, c.verdict, walkable.max_id);
    let b = bodies(walkable, depth - 1, f.bodies, c.next, scope, bound, rows);
    scope.n = n;
    let row = FreeVars {
        clauses: c.free,
        next: b.free,
    };
    put_row(rows, i, row);
    let free = join(own.mask | c.free, b.free, n);
    Walked { free, ..b }
}

// The `count` clauses from index i on, with bodies of depth at most `depth`.
#[cycle(bodies_clauses_statement)]
fn clauses(
    walkable: &Walkable<'_>,
    depth: usize,
    count: usize,
    i: usize,
    scope: &mut InScope<'_>,
    v: Verdict,
    rows: &mut [FreeVars],
) -> Walked
    requires { ClausesStand depth count (records_of walkable.now.image) i (clauses_at depth count (records_of walkable.now.image) i) }
    ensures { let here = clauses_at depth count (records_of walkable.now.image) i in
        let bound = scope_of scope.old in
        WalkedTo result (i + length (flatten_clauses here)) (walk_clauses here walkable.now.max_id bound v)
        × (Restored scope.old scope.new
        × (SourcedClauses bound here → MaskedTo result (masks_of rows.new) (mask_of (free_vars_clauses here) bound)
        (sets (masks_of rows.old) (2 * i) (rows_clauses here bound)))) }
{
    let mut here = Walked {
        next: i,
        verdict: v,
        free: 0,
    };
    let n = scope.n;
    for _ in 0..count {
        let node = RecordAt {
            image: walkable.image,
            index: here.next,
            kind: Kind::Clause,
        };
        let bound = enter_list(&list_at(&node), scope, here.verdict, walkable.max_id);
        let b = statement(walkable, depth, here.next + 1, scope, bound, rows);
        scope.n = n;
        let row = FreeVars {
            clauses: 0,
            next: b.free,
        };
        put_row(rows, here.next, row);
        let free = join(here.free, b.free, n);
        here = Walked { free, ..b };
    }
    here
}

// The `count` statements from index i on, each of depth at most `depth`.
// (Beside `clauses`: a clause has a record of its own before its body.)
#[cycle(bodies_clauses_statement)]
fn bodies(
    walkable: &Walkable<'_>,
    depth: usize,
    count: usize,
    i: usize,
    scope: &mut InScope<'_>,
    v: Verdict,
    rows: &mut [FreeVars],
) -> Walked
    requires { BodiesStand depth count (records_of walkable.now.image) i (bodies_at depth count (records_of walkable.now.image) i) }
    ensures { let here = bodies_at depth count (records_of walkable.now.image) i in
        let bound = scope_of scope.old in
        WalkedTo result (i + length (each flatten here)) (walk_bodies here walkable.now.max_id bound v)
        × (Restored scope.old scope.new
        × (All (Sourced bound) here → MaskedTo result (masks_of rows.new) (mask_of (free_bodies here) bound)
        (sets (masks_of rows.old) (2 * i) (rows_bodies here bound)))) }
{
    let mut here = Walked {
        next: i,
        verdict: v,
        free: 0,
    };
    for _ in 0..count {
        let b = statement(walkable, depth, here.next, scope, here.verdict, rows);
        here = Walked {
            free: here.free | b.free,
            ..b
        };
    }
    here
}
