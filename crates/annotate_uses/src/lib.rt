// The IDs that a record of an image uses, in their order, and the scope with what it binds.
#![tactic(auto)]

ghost use Rattle.std.specs.Prelude.{◌≡◌, true, ◌∷◌, [], ◌++◌, ◌+◌, ◌≤◌, length};
ghost use Rattle.syntax.specs.Arrays.{set_of, SetHolds};
ghost use Rattle.syntax.specs.Context.{ids};
ghost use Rattle.model.specs.FreeVars.{optional_id};
ghost use Rattle.image_places_spec.specs.Views.{binders, uses_of};
ghost use Rattle.scope_spec.specs.Flat.{small_record_lem};
ghost use Rattle.image_read_parts.specs.Parts.{list_of};
ghost use Rattle.image_read_nodes.specs.Nodes.{second_of};
ghost use Rattle.scope_places.specs.Scoping.{Scope};
ghost use Rattle.annotate_uses.specs.Sets.{Room};
ghost use Rattle.annotate_uses.specs.Sources.{BoundBy};
ghost use Rattle.image_read_parts.specs.Recorded.{record_in};
ghost use Rattle.image_kinds.specs.declared.kinds.Kind.TheVariants.{IfC};

pub mod counted;

use image_kinds::kinds::Kind;
use image_read_nodes::{Bindings, first, list_at, list_count, list_id, operand, second, target};
use image_read_parts::record::RecordAt;
use syntax::names::Identifier;
use syntax::sets::IdSet;

// The set, with the bindings of a record's list behind.
// (`list` or `node`, and `set`, here and below: a record, and the set that it adds to: none, its first variable, or what is bound.)
// (A loop over places: the list is bytes of the image, so there is no slice of bindings to iterate.)
fn add_list(list: &Bindings<'_>, set: IdSet) -> IdSet
    requires { Room set (length (list_of (record_in list.now.node.now))) }
    ensures { SetHolds result (set_of set ++ ids (list_of (record_in list.now.node.now))) }
{
    let mut all = set;
    for j in 0..list_count(list) {
        // (In its place, as in `TypingContext::freshen`: `add` gives a new set of 520 bytes.)
        let id = list_id(list, j);
        all.ids[all.len] = id;
        all.len += 1;
    }
    all
}

fn only(id: Identifier) -> IdSet
    ensures { SetHolds result (id.id ∷ []) }
{
    IdSet::empty().add(id.id)
}

// The set, with the second operand of an IfC behind, if there is one.
fn add_second(node: &RecordAt<'_>, set: IdSet) -> IdSet
    requires { (node.now.kind ≡ IfC) × Room set 1 }
    ensures { SetHolds result (set_of set ++ optional_id (second_of (record_in node.now))) }
{
    match second(node) {
        Some(x) => set.add(x.id),
        None => set,
    }
}

// The IDs that a record uses. (Its counts have passed question 7.)
pub fn uses(node: &RecordAt<'_>) -> IdSet
    requires { small_record_lem (record_in node.now) ≡ true }
    ensures { SetHolds result (uses_of (record_in node.now)) }
{
    match node.kind {
        Kind::Call | Kind::Let => add_list(&list_at(node), IdSet::empty()),
        Kind::Switch | Kind::Print | Kind::Exit => only(first(node)),
        Kind::Invoke => add_list(&list_at(node), only(first(node))),
        Kind::Op => only(first(node)).add(operand(node).id),
        Kind::IfC => add_second(node, only(first(node))),
        Kind::Definition | Kind::Substitute | Kind::Create | Kind::Literal | Kind::Clause => {
            IdSet::empty()
        }
    }
}

// Binds what a record binds.
pub fn bind(node: &RecordAt<'_>, bound: IdSet) -> IdSet
    requires { Scope bound × (length (set_of bound ++ binders (record_in node.now)) ≤ 64) }
    ensures { BoundBy result (set_of bound ++ binders (record_in node.now)) }
{
    match node.kind {
        Kind::Let | Kind::Create | Kind::Literal => bound.add(first(node).id),
        Kind::Op => bound.add(target(node).id),
        Kind::Definition | Kind::Clause => add_list(&list_at(node), bound),
        Kind::Substitute
        | Kind::Call
        | Kind::Switch
        | Kind::Invoke
        | Kind::IfC
        | Kind::Print
        | Kind::Exit => bound,
    }
}
