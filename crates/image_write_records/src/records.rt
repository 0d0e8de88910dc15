// Records by kind. Call and Invoke come out with empty args, and Create with its environment.
// (`writer` and `kind`, `writer` and `var`: what is written in, and what is written first; `Writer` itself knows no records.)
// (`var` and `ty`: parts of these records in this order; a `ContextBinding` would need a chirality, which these records do not have.)
ghost use Rattle.std.specs.Prelude.{◌∷◌, [], ◌++◌, ◌+◌, ◌≤◌, ◌<◌, ◌^◌};
ghost use Rattle.std.proofs.Math.Option.{some};
ghost use Rattle.syntax.specs.Options.{option_of};
ghost use Rattle.syntax.specs.Arrays.{context_of};
ghost use Rattle.image_spec.specs.Parse.{mark};
ghost use Rattle.image_spec.specs.Fields.{identifier_bytes, type_bytes, list_bytes};
ghost use Rattle.image_spec.specs.Records.{call, let', switch, create, invoke, literal, op, ifc, print, exit, record_bytes};
ghost use Rattle.image_write_parts.specs.Written.{Wrote};
ghost use Rattle.image_kinds.specs.Codes.{code_of};

use crate::lists::put_list;
use image_kinds::kinds::Kind;
use image_write_parts::newline_code;
use image_write_parts::writer::Writer;
use syntax::context::TypingContext;
use syntax::ifc::IfSort;
use syntax::names::Identifier;
use syntax::op::BinOp;
use syntax::types::Ty;

// A kind and an identifier.
fn put_named(writer: &mut Writer<'_>, kind: Kind, x: Identifier)
    requires { writer.old.at + (3 + writer.old.id) < 2 ^ 64 }
    ensures { Wrote writer.old writer.new (code_of kind ∷ identifier_bytes writer.old.id x) }
{
    writer.byte(kind as u8);
    writer.identifier(x);
}

// A kind, a var and its type.
fn put_typed(writer: &mut Writer<'_>, kind: Kind, var: Identifier, ty: Ty)
    requires { writer.old.at + (6 + (writer.old.id + writer.old.id)) < 2 ^ 64 }
    ensures { Wrote writer.old writer.new (code_of kind ∷ (identifier_bytes writer.old.id var ++ type_bytes writer.old.id ty)) }
{
    put_named(writer, kind, var);
    writer.ty(ty);
}

// A kind, an identifier and a list: a definition or a clause.
pub fn put_headed(writer: &mut Writer<'_>, kind: Kind, x: Identifier, context: TypingContext)
    requires { writer.old.at + 8192 < 2 ^ 64 }
    ensures { Wrote writer.old writer.new (code_of kind ∷ (identifier_bytes writer.old.id x ++ list_bytes writer.old.id (context_of context))) }
{
    put_named(writer, kind, x);
    put_list(writer, context);
}

pub fn put_call(writer: &mut Writer<'_>, label: Identifier)
    requires { writer.old.at + 8192 < 2 ^ 64 }
    ensures { Wrote writer.old writer.new (record_bytes writer.old.id (call label [])) }
{
    put_named(writer, Kind::Call, label);
    writer.byte(0); // a Call has no args left
}

pub fn put_let(
    writer: &mut Writer<'_>,
    var: Identifier,
    ty: Ty,
    tag: Identifier,
    args: TypingContext,
)
    requires { writer.old.at + 8192 < 2 ^ 64 }
    ensures { Wrote writer.old writer.new (record_bytes writer.old.id (let' var ty tag (context_of args))) }
{
    put_typed(writer, Kind::Let, var, ty);
    writer.identifier(tag);
    put_list(writer, args);
}

pub fn put_switch(writer: &mut Writer<'_>, var: Identifier, ty: Ty, clauses: u8)
    requires { writer.old.at + 8192 < 2 ^ 64 }
    ensures { Wrote writer.old writer.new (record_bytes writer.old.id (switch var ty clauses)) }
{
    put_typed(writer, Kind::Switch, var, ty);
    writer.byte(clauses);
}

pub fn put_create(
    writer: &mut Writer<'_>,
    var: Identifier,
    ty: Ty,
    environment: TypingContext,
    clauses: u8,
)
    requires { writer.old.at + 8192 < 2 ^ 64 }
    ensures { Wrote writer.old writer.new (record_bytes writer.old.id (create var ty (some (context_of environment)) clauses)) }
{
    put_typed(writer, Kind::Create, var, ty);
    writer.byte(1); // an environment follows
    put_list(writer, environment);
    writer.byte(clauses);
}

pub fn put_invoke(writer: &mut Writer<'_>, var: Identifier, tag: Identifier, ty: Ty)
    requires { writer.old.at + 8192 < 2 ^ 64 }
    ensures { Wrote writer.old writer.new (record_bytes writer.old.id (invoke var tag ty [])) }
{
    put_named(writer, Kind::Invoke, var);
    writer.identifier(tag);
    writer.ty(ty);
    writer.byte(0); // an Invoke has no args left
}

pub fn put_literal(writer: &mut Writer<'_>, lit: i64, var: Identifier)
    requires { writer.old.at + 8192 < 2 ^ 64 }
    ensures { Wrote writer.old writer.new (record_bytes writer.old.id (literal lit var)) }
{
    writer.byte(Kind::Literal as u8);
    writer.integer(lit);
    writer.identifier(var);
}

pub fn put_op(
    writer: &mut Writer<'_>,
    fst: Identifier,
    operator: BinOp,
    snd: Identifier,
    var: Identifier,
)
    requires { writer.old.at + 8192 < 2 ^ 64 }
    ensures { Wrote writer.old writer.new (record_bytes writer.old.id (op fst operator snd var)) }
{
    put_named(writer, Kind::Op, fst);
    writer.byte(operator as u8);
    writer.identifier(snd);
    writer.identifier(var);
}

// The identifier, if there is one, behind its mark.
fn put_marked(writer: &mut Writer<'_>, x: Option<Identifier>)
    requires { writer.old.at + (3 + writer.old.id) < 2 ^ 64 }
    ensures { Wrote writer.old writer.new (mark (identifier_bytes writer.old.id) (option_of x)) }
{
    match x {
        None => writer.byte(0),
        Some(x) => {
            writer.byte(1);
            writer.identifier(x);
        }
    }
}

pub fn put_ifc(writer: &mut Writer<'_>, sort: IfSort, fst: Identifier, snd: Option<Identifier>)
    requires { writer.old.at + 8192 < 2 ^ 64 }
    ensures { Wrote writer.old writer.new (record_bytes writer.old.id (ifc sort fst (option_of snd))) }
{
    writer.byte(Kind::IfC as u8);
    writer.byte(sort as u8);
    writer.identifier(fst);
    put_marked(writer, snd);
}

// (`newline`: the Rust's field, a yes or no.)
pub fn put_print(writer: &mut Writer<'_>, newline: bool, var: Identifier)
    requires { writer.old.at + 8192 < 2 ^ 64 }
    ensures { Wrote writer.old writer.new (record_bytes writer.old.id (print newline var)) }
{
    writer.byte(Kind::Print as u8);
    writer.byte(newline_code(newline));
    writer.identifier(var);
}

pub fn put_exit(writer: &mut Writer<'_>, var: Identifier)
    requires { writer.old.at + 8192 < 2 ^ 64 }
    ensures { Wrote writer.old writer.new (record_bytes writer.old.id (exit var)) }
{
    put_named(writer, Kind::Exit, var);
}
