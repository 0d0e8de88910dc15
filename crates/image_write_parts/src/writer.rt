// What writes the parts of records, one after another.
ghost use Rattle.std.specs.Prelude.{◌∷◌, [], ◌+◌, ◌≤◌, ◌<◌, ◌^◌};
ghost use Rattle.image_spec.specs.Parse.{field};
ghost use Rattle.image_spec.specs.Fields.{integer_bytes, identifier_bytes, type_bytes, binding_bytes};

use crate::{put_byte, short, store_binding, store_identifier, store_pair, store_type};
use syntax::context::ContextBinding;
use syntax::names::Identifier;
use syntax::types::Ty;

// What bytes are written in: a lent buffer, the place of the next byte in it, and how many bytes an ID has.
// (That places have room below 2^64 is asked of each caller. No field can say it: the place goes on past the buffer, since question 12 asks how long
// the whole answer is, so any bound on `at` that a field gave, as 2^63, a long enough writing would break.)
#[derive(Drop)]
pub struct Writer<'o> {
    pub out: &'o mut [u8],
    pub at: usize,
    pub id: usize,
    pub ghost narrow: { id ≤ 8 },
}

impl<'o> Writer<'o> {
    ghost use Rattle.image_write_parts.specs.Written.{Wrote};

    pub fn byte(&mut self, b: u8)
        requires { self.old.at + 1 < 2 ^ 64 }
        ensures { Wrote self.old self.new (b ∷ []) }
    {
        self.at = put_byte(self.out, self.at, b);
    }

    // The bytes of n, the lowest first, as many as width says.
    pub fn number(&mut self, width: usize, n: u32)
        requires { self.old.at + width < 2 ^ 64 }
        ensures { Wrote self.old self.new (field width n) }
    {
        if short(self.out.len(), self.at, 2, width) {
            self.at = store_pair(self.out, self.at, n);
            return;
        }
        // (No bytes of `to_le_bytes`: a type's zeros are up to eleven bytes, and a u32 has four.)
        let mut rest = n;
        for _ in 0..width {
            self.byte((rest % 256) as u8);
            rest /= 256;
        }
    }

    // A signed number, in eight bytes.
    pub fn integer(&mut self, z: i64)
        requires { self.old.at + 8 < 2 ^ 64 }
        ensures { Wrote self.old self.new (integer_bytes z) }
    {
        for b in z.to_le_bytes() {
            self.byte(b);
        }
    }

    // A name and an ID.
    pub fn identifier(&mut self, x: Identifier)
        requires { self.old.at + (2 + self.old.id) < 2 ^ 64 }
        ensures { Wrote self.old self.new (identifier_bytes self.old.id x) }
    {
        if short(self.out.len(), self.at, 4, self.id) {
            self.at = store_identifier(self.out, self.at, x);
            return;
        }
        self.number(2, u32::from(x.name.0));
        self.number(self.id, x.id.0);
    }

    // A type: 0 and as many zero bytes as an identifier has, or 1 and an identifier.
    pub fn ty(&mut self, t: Ty)
        requires { self.old.at + (3 + self.old.id) < 2 ^ 64 }
        ensures { Wrote self.old self.new (type_bytes self.old.id t) }
    {
        if short(self.out.len(), self.at, 5, self.id) {
            self.at = store_type(self.out, self.at, t);
            return;
        }
        match t {
            Ty::I64 => self.number(3 + self.id, 0),
            Ty::Decl(x) => {
                self.byte(1);
                self.identifier(x);
            }
        }
    }

    // A binding: an identifier, a chirality and a type.
    pub fn binding(&mut self, b: ContextBinding)
        requires { self.old.at + (6 + (self.old.id + self.old.id)) < 2 ^ 64 }
        ensures { Wrote self.old self.new (binding_bytes self.old.id b) }
    {
        if short(self.out.len(), self.at, 10, self.id) {
            self.at = store_binding(self.out, self.at, b);
            return;
        }
        self.identifier(b.var);
        self.byte(b.chi as u8);
        self.ty(b.ty);
    }
}
