// A record of an image that was opened: what follows it, its list, and its identifiers.
#![tactic(auto)]

ghost use Rattle.std.specs.Prelude.{◌≡◌, true, ◌<◌, length, get_or};
ghost use Rattle.syntax.specs.Context.{ids, empty_binding};
ghost use Rattle.syntax.specs.Options.{option_of};
ghost use Rattle.image_read_parts.specs.Parts.{list_of};
ghost use Rattle.image_read_nodes.specs.Nodes.{Followed, has_list, ListAt, IsNext, first_at, first_of, operand_of, target_of, second_of};
ghost use Rattle.image_kinds.specs.Codes.{code_of};
ghost use Rattle.image_read_parts.specs.Recorded.{record_in};
ghost use Rattle.image_kinds.specs.declared.kinds.Kind.TheVariants.{Substitute, Op, IfC};

use image_directory::image::Image;
use image_kinds::kinds::Kind;
use image_read_parts::record::RecordAt;
use image_read_parts::{binding_at, byte, identifier, identifier_at, offset};
use image_shape::look;
use syntax::context::ContextBinding;
use syntax::names::{Identifier, VarId};

// The kind of a record, and what follows it: clauses, then bodies.
#[derive(Clone, Copy, PartialEq, Eq)]
pub struct Follows {
    pub kind: Kind,
    pub clauses: usize,
    pub bodies: usize,
}

// What follows the record at index i.
// (`image` and `i`: a caller learns the kind here, so it has no `RecordAt` before.)
pub fn parts_of(image: &Image<'_>, i: usize) -> Follows
    requires { i < image.now.frame.count }
    ensures { Followed image.now.frame image.now.bytes.now i result }
{
    let node = look(image, i).unwrap();
    Follows {
        kind: node.kind,
        clauses: usize::from(node.clauses),
        bodies: node.kind.bodies(),
    }
}

// The list of a record, which begins at `start` with its count.
#[derive(Clone, Copy)]
pub struct Bindings<'a> {
    pub node: &'a RecordAt<'a>,
    pub start: usize,
    pub ghost stands: { ListAt node.now start },
}

// (Of a kind; a type of the five that have a list would be turned into one again.)
pub fn list_at<'a>(node: &'a RecordAt<'a>) -> Bindings<'a>
    requires { has_list (code_of node.now.kind) ≡ true }
    ensures { result.node.now ≡ node.now }
{
    let image = &node.image;
    let start = offset(image, node.index) + node.kind.fixed(image.frame.id);
    Bindings { node, start }
}

// How many bindings a list has.
pub fn list_count(list: &Bindings<'_>) -> usize
    ensures { result ≡ length (list_of (record_in list.now.node.now)) }
{
    let node = list.node;
    usize::from(node.image.bytes[list.start])
}

// The ID of the binding at place j of a list.
// (A binding's bytes, 6 + (w + w), are written out, here and in pass_records, pass_statement_create and step_rows: a function's answer would be an equation
// to rewrite by.)
pub fn list_id(list: &Bindings<'_>, j: usize) -> VarId
    requires { j < length (list_of (record_in list.now.node.now)) }
    ensures { IsNext (ids (list_of (record_in list.now.node.now))) j result }
{
    let node = list.node;
    let fields = node.image.fields();
    let w = fields.id;
    identifier_at(&fields, list.start + (1 + j * (6 + (w + w)))).id
}

// The whole binding at place j of a list.
// (For who wants its name, chirality or type too: the loops of questions 9, 10 and 13 read IDs alone, by `list_id`.)
pub fn list_binding(list: &Bindings<'_>, j: usize) -> ContextBinding
    requires { j < length (list_of (record_in list.now.node.now)) }
    ensures { result ≡ get_or (list_of (record_in list.now.node.now)) j empty_binding }
{
    let node = list.node;
    let fields = node.image.fields();
    let w = fields.id;
    let at = 1 + j * (6 + (w + w));
    binding_at(&fields, list.start + at)
}

fn first_at(kind: Kind) -> usize
    ensures { result ≡ first_at (code_of kind) }
{
    match kind {
        Kind::Literal => 9,
        Kind::IfC | Kind::Print => 2,
        Kind::Definition
        | Kind::Substitute
        | Kind::Call
        | Kind::Let
        | Kind::Switch
        | Kind::Create
        | Kind::Invoke
        | Kind::Op
        | Kind::Clause
        | Kind::Exit => 1,
    }
}

// The first identifier of a record. (Of any kind but a Substitute, which has no first part.)
pub fn first(node: &RecordAt<'_>) -> Identifier
    requires { node.now.kind ≡ Substitute → ⊥ }
    ensures { result ≡ first_of (record_in node.now) }
{
    identifier(&node.image, node.index, first_at(node.kind))
}

// The second operand of an Op.
pub fn operand(node: &RecordAt<'_>) -> Identifier
    requires { node.now.kind ≡ Op }
    ensures { result ≡ operand_of (record_in node.now) }
{
    identifier(&node.image, node.index, 4 + node.image.frame.id)
}

// The var of an Op.
pub fn target(node: &RecordAt<'_>) -> Identifier
    requires { node.now.kind ≡ Op }
    ensures { result ≡ target_of (record_in node.now) }
{
    let w = node.image.frame.id;
    identifier(&node.image, node.index, 6 + (w + w))
}

// The second operand of an IfC, if its mark announces one.
// (An early return: the identifier is read only where the mark is, and `then` would ask that of a closure.)
pub fn second(node: &RecordAt<'_>) -> Option<Identifier>
    requires { node.now.kind ≡ IfC }
    ensures { option_of result ≡ second_of (record_in node.now) }
{
    let mark = Kind::IfC.fixed(node.image.frame.id);
    if byte(&node.image, node.index, mark) == 0 {
        return None;
    }
    Some(identifier(&node.image, node.index, mark + 1))
}
