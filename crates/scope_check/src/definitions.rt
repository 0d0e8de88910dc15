// The definitions of an image: how deep they are (question 7), and the walk over them.
ghost use Rattle.std.specs.Prelude.{◌≡◌, leb};
ghost use Rattle.std.proofs.lemmas.List.Edits.{sets};
ghost use Rattle.model.specs.Sizes.{depth_defs};
ghost use Rattle.scope_spec.specs.Walk.{clean, walk_defs};
ghost use Rattle.scope_spec.specs.FreeRows.{rows_defs};
ghost use Rattle.scope_spec.specs.Pairs.{masks_of};
ghost use Rattle.scope_check.specs.Definitions.{defs_in, DefsStand};
ghost use Rattle.scope_walk.specs.Masks.{SourcedDefs};
ghost use Rattle.image_directory.specs.Images.{records_of};

use image_directory::Frame;
use image_directory::image::Image;
use image_kinds::kinds::Kind;
use image_read_nodes::list_at;
use image_read_parts::record::RecordAt;
use image_shape::statement as shape_statement;
use scope_nodes::nodes::enter_list;
use scope_places::mask::put_row;
use scope_places::scope::InScope;
use scope_spec::{FreeVars, Verdict};
use scope_walk::walk::{Walkable, Walked, statement};
use syntax::context::TypingContext;

// Question 7: are the bodies of the definitions at most 64 statements deep? (A `for` that returns: each place is the end of the body before.)
// (`image` and `definitions`, here and below: no opened image, since they are asked of definitions that stand in it, and not of question 5.)
pub fn all_shallow(image: &Image<'_>, definitions: usize) -> bool
    requires { DefsStand 128 definitions (records_of image.now) 0 (defs_in definitions (records_of image.now)) }
    ensures { result ≡ leb (depth_defs (defs_in definitions (records_of image.now))) 64 }
{
    let mut at = 0;
    for _ in 0..definitions {
        match shape_statement(image, Frame::MAX_SOURCE_DEPTH, at + 1) {
            Some(next) => at = next,
            None => return false,
        }
    }
    true
}

// The walk of the definitions, each of depth at most 64. Stores a row for each record. (A row past the end of the rows is left out.)
// (Not the walk's `clauses`: each definition begins with an empty scope, and what it leaves free joins nothing. Each begins where the one before ends.)
pub fn walk_definitions(
    walkable: &Walkable<'_>,
    definitions: usize,
    rows: &mut [FreeVars],
) -> Verdict
    requires { DefsStand 64 definitions (records_of walkable.now.image) 0 (defs_in definitions (records_of walkable.now.image)) }
    ensures { let all = defs_in definitions (records_of walkable.now.image) in
        (result ≡ walk_defs all walkable.now.max_id clean)
        × (SourcedDefs all → masks_of rows.new ≡ sets (masks_of rows.old) 0 (rows_defs all)) }
{
    let mut ids = [0u32; TypingContext::MAX];
    let mut scope = InScope {
        ids: &mut ids,
        n: 0,
    };
    let mut here = Walked {
        next: 0,
        verdict: Verdict {
            room: true,
            binders: true,
            uses: true,
            ids: true,
        },
        free: 0,
    };
    for _ in 0..definitions {
        let node = RecordAt {
            image: walkable.image,
            index: here.next,
            kind: Kind::Definition,
        };
        let list = list_at(&node);
        let bound = enter_list(&list, &mut scope, here.verdict, walkable.max_id);
        let b = statement(
            walkable,
            Frame::MAX_SOURCE_DEPTH,
            here.next + 1,
            &mut scope,
            bound,
            rows,
        );
        scope.n = 0;
        let row = FreeVars {
            clauses: 0,
            next: b.free,
        };
        put_row(rows, here.next, row);
        here = b;
    }
    here.verdict
}
