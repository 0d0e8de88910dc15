// A record of an image, read whole.
#![tactic(auto)]

ghost use Rattle.std.specs.Prelude.{◌≡◌, true};
ghost use Rattle.scope_spec.specs.Flat.{plain_record_lem, small_record_lem};
ghost use Rattle.pass_records.specs.Unpacked.{call_of, let_of, switch_of, create_of, invoke_of, literal_of, op_of, ifc_of, print_of, exit_of, Unpacked, ListAt, HoldsAt, NamedAt, NamedIs};
ghost use Rattle.image_read_parts.specs.Recorded.{record_in};
ghost use Rattle.image_kinds.specs.declared.kinds.Kind.TheVariants.{Call, Let, Switch, Create, Invoke, Literal, Op, IfC, Print, Exit};

use image_fields::fields::Fields;
use image_read_nodes::{first, second};
use image_read_parts::record::RecordAt;
use image_read_parts::{binding_at, byte, identifier_at, integer_at, newline_of, offset, type_at};
use syntax::context::TypingContext;
use syntax::ifc::IfSort;
use syntax::names::Identifier;
use syntax::op::BinOp;
use syntax::types::Ty;

// (A struct for each kind, also where another has the same fields, as `NameAndList` here, or is one identifier, as Exit's: contracts say `call_of` and
// `exit_of` of it, and its fields have the Rust's names.)
#[derive(Clone, Copy)]
pub struct CallRecord {
    pub label: Identifier,
    pub args: TypingContext,
}

#[derive(Clone, Copy)]
pub struct LetRecord {
    pub var: Identifier,
    pub ty: Ty,
    pub tag: Identifier,
    pub args: TypingContext,
}

#[derive(Clone, Copy)]
pub struct SwitchRecord {
    pub var: Identifier,
    pub ty: Ty,
    pub clauses: u8,
}

// A Create without an environment. (Not one struct with `SwitchRecord`: which record a struct stands for is told by its type.)
#[derive(Clone, Copy)]
pub struct CreateRecord {
    pub var: Identifier,
    pub ty: Ty,
    pub clauses: u8,
}

#[derive(Clone, Copy)]
pub struct InvokeRecord {
    pub var: Identifier,
    pub tag: Identifier,
    pub ty: Ty,
    pub args: TypingContext,
}

#[derive(Clone, Copy)]
pub struct LiteralRecord {
    pub lit: i64,
    pub var: Identifier,
}

#[derive(Clone, Copy)]
pub struct OpRecord {
    pub fst: Identifier,
    pub op: BinOp,
    pub snd: Identifier,
    pub var: Identifier,
}

#[derive(Clone, Copy)]
pub struct IfCRecord {
    pub sort: IfSort,
    pub fst: Identifier,
    pub snd: Option<Identifier>,
}

#[derive(Clone, Copy)]
pub struct PrintRecord {
    // As the Rust's field.
    pub newline: bool,
    pub var: Identifier,
}

#[derive(Clone, Copy)]
pub struct ExitRecord {
    pub var: Identifier,
}

// An identifier and a list: what a definition, a Call and a clause are.
#[derive(Clone, Copy)]
pub struct NameAndList {
    pub name: Identifier,
    pub list: TypingContext,
}

// The list of bindings at a place. (By places: of a part of a struct with ghost fields, lent by itself, nothing is known after.)
pub fn list(fields: &Fields<'_>, at: usize) -> TypingContext
    requires { ListAt fields.now.id fields.now.bytes.now at }
    ensures { HoldsAt fields.now.id fields.now.bytes.now at result }
{
    let w = fields.id;
    let n = usize::from(fields.bytes[at]);
    let mut out = TypingContext::empty();
    for j in 0..n {
        out.bindings[j] = binding_at(fields, at + (1 + j * (6 + (w + w)))).flat();
    }
    out.len = n;
    out
}

// A definition, a Call or a clause.
// (Here and below the counts have passed question 7. Asked and no field: `SourceRecord`, of a crate above, has it, and `Counted` has it of a whole image.)
pub fn named(node: &RecordAt<'_>) -> NameAndList
    requires { NamedAt node.now.image.frame node.now.image.bytes.now node.now.index }
    ensures { NamedIs result (record_in node.now) }
{
    let image = &node.image;
    let fields = image.fields();
    let w = fields.id;
    let start = offset(image, node.index);
    NameAndList {
        name: identifier_at(&fields, start + 1),
        list: list(&fields, start + (3 + w)),
    }
}

// A Call.
pub fn call(node: &RecordAt<'_>) -> CallRecord
    requires { (node.now.kind ≡ Call) × (small_record_lem (record_in node.now) ≡ true) }
    ensures { Unpacked (record_in node.now) (call_of result) result.args }
{
    let all = named(node);
    CallRecord {
        label: all.name,
        args: all.list,
    }
}

// A Let.
pub fn let_record(node: &RecordAt<'_>) -> LetRecord
    requires { (node.now.kind ≡ Let) × (small_record_lem (record_in node.now) ≡ true) }
    ensures { Unpacked (record_in node.now) (let_of result) result.args }
{
    let image = &node.image;
    let fields = image.fields();
    let w = fields.id;
    let start = offset(image, node.index);
    let var = identifier_at(&fields, start + 1);
    let ty = type_at(&fields, start + (3 + w));
    let tag = identifier_at(&fields, start + (6 + (w + w)));
    let args = list(&fields, start + (8 + (w + (w + w))));
    LetRecord { var, ty, tag, args }
}

// A Switch.
pub fn switch(node: &RecordAt<'_>) -> SwitchRecord
    requires { node.now.kind ≡ Switch }
    ensures { record_in node.now ≡ switch_of result }
{
    let image = &node.image;
    let fields = image.fields();
    let w = fields.id;
    let start = offset(image, node.index);
    let var = identifier_at(&fields, start + 1);
    let ty = type_at(&fields, start + (3 + w));
    let clauses = fields.bytes[start + (6 + (w + w))];
    SwitchRecord { var, ty, clauses }
}

// A Create. (It has passed question 6.)
pub fn create(node: &RecordAt<'_>) -> CreateRecord
    requires { (node.now.kind ≡ Create) × (plain_record_lem (record_in node.now) ≡ true) }
    ensures { record_in node.now ≡ create_of result }
{
    let image = &node.image;
    let fields = image.fields();
    let w = fields.id;
    let start = offset(image, node.index);
    let var = identifier_at(&fields, start + 1);
    let ty = type_at(&fields, start + (3 + w));
    let clauses = fields.bytes[start + (7 + (w + w))];
    CreateRecord { var, ty, clauses }
}

// An Invoke. (The parts of a Let in another order.)
pub fn invoke(node: &RecordAt<'_>) -> InvokeRecord
    requires { (node.now.kind ≡ Invoke) × (small_record_lem (record_in node.now) ≡ true) }
    ensures { Unpacked (record_in node.now) (invoke_of result) result.args }
{
    let image = &node.image;
    let fields = image.fields();
    let w = fields.id;
    let start = offset(image, node.index);
    let var = identifier_at(&fields, start + 1);
    let tag = identifier_at(&fields, start + (3 + w));
    let ty = type_at(&fields, start + (5 + (w + w)));
    let args = list(&fields, start + (8 + (w + (w + w))));
    InvokeRecord { var, tag, ty, args }
}

// A Literal.
pub fn literal(node: &RecordAt<'_>) -> LiteralRecord
    requires { node.now.kind ≡ Literal }
    ensures { record_in node.now ≡ literal_of result }
{
    let image = &node.image;
    let fields = image.fields();
    let start = offset(image, node.index);
    let lit = integer_at(fields.bytes, start + 1);
    let var = identifier_at(&fields, start + 9);
    LiteralRecord { lit, var }
}

// An Op.
// (All parts by their places from one `offset`.)
pub fn op(node: &RecordAt<'_>) -> OpRecord
    requires { node.now.kind ≡ Op }
    ensures { record_in node.now ≡ op_of result }
{
    let image = &node.image;
    let fields = image.fields();
    let w = fields.id;
    let start = offset(image, node.index);
    let fst = identifier_at(&fields, start + 1);
    let op = BinOp::try_from(fields.bytes[start + (3 + w)]).unwrap();
    let snd = identifier_at(&fields, start + (4 + w));
    let var = identifier_at(&fields, start + (6 + (w + w)));
    OpRecord { fst, op, snd, var }
}

// An IfC.
pub fn ifc(node: &RecordAt<'_>) -> IfCRecord
    requires { node.now.kind ≡ IfC }
    ensures { record_in node.now ≡ ifc_of result }
{
    let image = &node.image;
    let fields = image.fields();
    let w = fields.id;
    let start = offset(image, node.index);
    let sort = IfSort::try_from(fields.bytes[start + 1]).unwrap();
    let fst = identifier_at(&fields, start + 2);
    let snd = second(node);
    IfCRecord { sort, fst, snd }
}

// A PrintI64.
pub fn print(node: &RecordAt<'_>) -> PrintRecord
    requires { node.now.kind ≡ Print }
    ensures { record_in node.now ≡ print_of result }
{
    let newline = newline_of(byte(&node.image, node.index, 1));
    let var = first(node);
    PrintRecord { newline, var }
}

// An Exit.
pub fn exit(node: &RecordAt<'_>) -> ExitRecord
    requires { node.now.kind ≡ Exit }
    ensures { record_in node.now ≡ exit_of result }
{
    ExitRecord { var: first(node) }
}
