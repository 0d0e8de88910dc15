// The statements one by one: are the IDs that one shows in order, where the row has those of the list?
ghost use Rattle.std.specs.Prelude.{◌≡◌, ◌∷◌, []};
ghost use Rattle.syntax.specs.Sets.{elem};
ghost use Rattle.model.specs.Linear.{ends_in_lem};
ghost use Rattle.image_read_nodes.specs.Nodes.{first_of};
ghost use Rattle.step_order.specs.Orderly.{orderly};
ghost use Rattle.step_rows.specs.Rows.{ids_of};
ghost use Rattle.image_read_parts.specs.Recorded.{record_in};
ghost use Rattle.image_kinds.specs.declared.kinds.Kind.TheVariants.{Substitute, Let, Create, Literal, Op, IfC};

use crate::list::{adds, last_is, replaces};
use crate::listed::Listed;
use image_read_nodes::first;
use image_read_parts::record::RecordAt;
use pass_records as records;
use step_rows::records::{environment_row, list_row, source_row, target_row};
use step_rows::row::Row;
use step_rows::{all_present, distinct, has};

// `node` and `list`, or `node` and `row`: the statement stands in the image, the IDs that it is held against in a store.
// substitute.rs: no target twice, and every source there.
pub fn substitute(node: &RecordAt<'_>, row: &Row<'_>) -> bool
    requires { node.now.kind ≡ Substitute }
    ensures { result ≡ orderly (record_in node.now) (ids_of row.now) }
{
    let targets = target_row(node);
    distinct(&targets) && all_present(&source_row(node), row)
}

// let.rs: the args last, and var in their place.
pub fn let_(node: &RecordAt<'_>, list: &Listed<'_>) -> bool
    requires { node.now.kind ≡ Let }
    ensures { result ≡ orderly (record_in node.now) (ids_of list.now.row) }
{
    let args = list_row(node);
    let var = first(node);
    replaces(&args, list, var.id.0)
}

// create.rs: the environment last, and var in its place. There must be one.
// (A `match`, here and in `ifc`: with `is_some_and` and `is_none_or`, tried, it stood open what the closure answers; the two arms are the proof's cases.)
pub fn create(node: &RecordAt<'_>, list: &Listed<'_>) -> bool
    requires { node.now.kind ≡ Create }
    ensures { result ≡ orderly (record_in node.now) (ids_of list.now.row) }
{
    let var = first(node);
    match environment_row(node) {
        None => false,
        Some(listed) => replaces(&listed, list, var.id.0),
    }
}

// switch.rs, invoke.rs: var last.
pub fn is_last(node: &RecordAt<'_>, row: &Row<'_>) -> bool
    requires { node.now.kind ≡ Substitute → ⊥ }
    ensures { result ≡ ends_in_lem ((first_of (record_in node.now)).id ∷ []) (ids_of row.now) }
{
    let var = first(node);
    last_is(row, var.id.0)
}

// literal.rs: var behind all.
pub fn literal(node: &RecordAt<'_>, list: &Listed<'_>) -> bool
    requires { node.now.kind ≡ Literal }
    ensures { result ≡ orderly (record_in node.now) (ids_of list.now.row) }
{
    let var = first(node);
    adds(list, var.id.0)
}

// op.rs: both operands there, and var behind all.
pub fn op(node: &RecordAt<'_>, list: &Listed<'_>) -> bool
    requires { node.now.kind ≡ Op }
    ensures { result ≡ orderly (record_in node.now) (ids_of list.now.row) }
{
    let statement = records::op(node);
    let fst = statement.fst.id;
    let snd = statement.snd.id;
    let var = statement.var.id;
    has(&list.row, fst.0) && has(&list.row, snd.0) && adds(list, var.0)
}

// ifc.rs: the operands there.
pub fn ifc(node: &RecordAt<'_>, row: &Row<'_>) -> bool
    requires { node.now.kind ≡ IfC }
    ensures { result ≡ orderly (record_in node.now) (ids_of row.now) }
{
    let statement = records::ifc(node);
    if !has(row, statement.fst.id.0) {
        return false;
    }
    match statement.snd {
        None => true,
        Some(snd) => has(row, snd.id.0),
    }
}

// print.rs, exit.rs: var there.
pub fn is_present(node: &RecordAt<'_>, row: &Row<'_>) -> bool
    requires { node.now.kind ≡ Substitute → ⊥ }
    ensures { result ≡ elem (first_of (record_in node.now)).id (ids_of row.now) }
{
    let var = first(node);
    has(row, var.id.0)
}
