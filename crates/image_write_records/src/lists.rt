// Lists of bindings, and the parts of a Substitute.
ghost use Rattle.std.specs.Prelude.{[], ◌∷◌, ◌+◌, ◌≤◌, ◌<◌, ◌^◌};
ghost use Rattle.syntax.specs.Arrays.{context_of};
ghost use Rattle.image_spec.specs.Fields.{list_bytes, pair_bytes};
ghost use Rattle.image_write_parts.specs.Written.{Wrote};
ghost use Rattle.syntax_substitution.specs.Pairs.{pair_of, parts_of};

use image_kinds::kinds::Kind;
use image_write_parts::writer::Writer;
use syntax::context::TypingContext;
use syntax_substitution::{FlatPair, Pair};

// A list: its count, then its bindings.
pub fn put_list(writer: &mut Writer<'_>, context: TypingContext)
    requires { writer.old.at + 2048 < 2 ^ 64 }
    ensures { Wrote writer.old writer.new (list_bytes writer.old.id (context_of context)) }
{
    let count = context.len;
    writer.byte(count as u8);
    for b in &context.bindings[..count] {
        writer.binding(b.binding());
    }
}

// What a Substitute begins with: its kind and the count of its pairs.
pub fn put_substitute(writer: &mut Writer<'_>, n: usize)
    requires { (writer.old.at + 2 < 2 ^ 64) × (n ≤ 128) }
    ensures { Wrote writer.old writer.new (2 ∷ (n ∷ [])) }
{
    writer.byte(Kind::Substitute as u8);
    writer.byte(n as u8);
}

// A pair: a binding and an identifier.
pub fn put_pair(writer: &mut Writer<'_>, pair: FlatPair)
    requires { writer.old.at + 32 < 2 ^ 64 }
    ensures { Wrote writer.old writer.new (pair_bytes writer.old.id (parts_of (pair_of pair))) }
{
    let p = Pair::from(pair);
    writer.binding(p.target);
    writer.identifier(p.source);
}
