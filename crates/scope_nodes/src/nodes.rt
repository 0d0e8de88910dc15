// What a record uses and binds.
// (`node` and `scope`: a record of the image, and the IDs in scope at it, which the walk has before the record and keeps behind it.)
// (`scope` and `u`: a use only looks at the scope; `u` is what was found so far, handed on and answered.)
// (`verdict` and `max_id`: what was found so far, and a number of the header, which a record's image does not have.)
ghost use Rattle.std.specs.Prelude.{◌≡◌};
ghost use Rattle.syntax.specs.Context.{ids};
ghost use Rattle.model.specs.FreeVars.{optional_id};
ghost use Rattle.image_kinds.specs.declared.kinds.Kind.TheVariants.{IfC};
ghost use Rattle.image_places_spec.specs.Views.{binders, uses_of};
ghost use Rattle.scope_spec.specs.Walk.{enter_all};
ghost use Rattle.image_read_parts.specs.Parts.{list_of};
ghost use Rattle.image_read_parts.specs.Recorded.{record_in};
ghost use Rattle.image_read_nodes.specs.Nodes.{second_of};
ghost use Rattle.scope_places.specs.Scoping.{used_all_lem, scoped_of, Entered};
ghost use Rattle.scope_places.specs.Views.{viewed};

use image_kinds::kinds::Kind;
use image_read_nodes::{Bindings, first, list_at, list_count, list_id, operand, second, target};
use image_read_parts::record::RecordAt;
use scope_places::scope::{InScope, ScopeView};
use scope_places::scoping::{Using, enter_one, use_one};
use scope_spec::Verdict;

// Uses the bindings of a record's list.
// (Loops over places, here and below: the list is bytes of the image, so there is no slice of bindings to iterate. Two functions, and a third in
// `annotate_uses`: a use looks at the scope, a binder changes it, and a set is neither; one function would take what is done as a closure with a contract.)
pub fn use_list(list: &Bindings<'_>, scope: &ScopeView<'_>, u: Using) -> Using
    ensures { result ≡ used_all_lem (viewed scope.now) (ids (list_of (record_in list.now.node.now))) u }
{
    let mut used = u;
    for j in 0..list_count(list) {
        used = use_one(scope, list_id(list, j), used);
    }
    used
}

// Uses the second operand of an IfC, if there is one.
#[tactic(auto, using(scope_places::proofs::UseLaws::used_none))]
fn use_second(node: &RecordAt<'_>, scope: &ScopeView<'_>, u: Using) -> Using
    requires { node.now.kind ≡ IfC }
    ensures { result ≡ used_all_lem (viewed scope.now) (optional_id (second_of (record_in node.now))) u }
{
    match second(node) {
        Some(x) => use_one(scope, x.id, u),
        None => u,
    }
}

// Uses what the record uses.
#[tactic(auto, using(scope_places::proofs::UseLaws::used_none, scope_places::proofs::UseLaws::used_then))]
pub fn use_node(node: &RecordAt<'_>, scope: &ScopeView<'_>, u: Using) -> Using
    ensures { result ≡ used_all_lem (viewed scope.now) (uses_of (record_in node.now)) u }
{
    match node.kind {
        Kind::Call | Kind::Let => use_list(&list_at(node), scope, u),
        Kind::Switch | Kind::Print | Kind::Exit => use_one(scope, first(node).id, u),
        Kind::Invoke => {
            let used = use_one(scope, first(node).id, u);
            use_list(&list_at(node), scope, used)
        }
        Kind::Op => {
            let used = use_one(scope, first(node).id, u);
            use_one(scope, operand(node).id, used)
        }
        Kind::IfC => {
            let used = use_one(scope, first(node).id, u);
            use_second(node, scope, used)
        }
        Kind::Definition | Kind::Substitute | Kind::Create | Kind::Literal | Kind::Clause => u,
    }
}

// Binds the bindings of a record's list. (The verdict is the one with which the scope was reached.)
pub fn enter_list(
    list: &Bindings<'_>,
    scope: &mut InScope<'_>,
    verdict: Verdict,
    max_id: u32,
) -> Verdict
    ensures { Entered scope.old scope.new result (enter_all max_id (ids (list_of (record_in list.now.node.now))) (scoped_of scope.old verdict)) }
{
    let mut here = verdict;
    for j in 0..list_count(list) {
        here = enter_one(scope, here, list_id(list, j), max_id);
    }
    here
}

// Binds what the record binds.
pub fn enter_node(
    node: &RecordAt<'_>,
    scope: &mut InScope<'_>,
    verdict: Verdict,
    max_id: u32,
) -> Verdict
    ensures { Entered scope.old scope.new result (enter_all max_id (binders (record_in node.now)) (scoped_of scope.old verdict)) }
{
    match node.kind {
        Kind::Definition | Kind::Clause => enter_list(&list_at(node), scope, verdict, max_id),
        Kind::Let | Kind::Create | Kind::Literal => {
            enter_one(scope, verdict, first(node).id, max_id)
        }
        Kind::Op => enter_one(scope, verdict, target(node).id, max_id),
        Kind::Substitute
        | Kind::Call
        | Kind::Switch
        | Kind::Invoke
        | Kind::IfC
        | Kind::Print
        | Kind::Exit => verdict,
    }
}
