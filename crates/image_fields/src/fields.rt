// Going past each part of a record. Where a part is not there, no place follows.
ghost use Rattle.std.specs.Prelude.{◌≡◌, ◌≤◌, length};
ghost use Rattle.image_spec.specs.Parse.{code, zeros, times, counted, marked};
ghost use Rattle.image_spec.specs.Fields.{max_count, identifier, type, binding, pair, list};
ghost use Rattle.image_fields.specs.Found.{stop, mark_at};

use crate::{short_binding, skip};
use image_spec::Layout;

// What is gone through: bytes, and how many of them an ID has.
#[derive(Clone, Copy)]
pub struct Fields<'a> {
    pub bytes: &'a [u8],
    pub id: usize,
    pub ghost narrow: { id ≤ 8 },
}

impl<'a> Fields<'a> {
    // Past a name and an ID.
    pub fn skip_identifier(&self, at: usize) -> Option<usize>
        ensures { result ≡ stop (identifier self.now.id) self.now.bytes.now at }
    {
        let id = skip(self.bytes, 2, at)?;
        skip(self.bytes, self.id, id)
    }

    // Past a byte of at most `most`.
    pub fn skip_code(&self, most: u8, at: usize) -> Option<usize>
        ensures { result ≡ stop (code most) self.now.bytes.now at }
    {
        let b = *self.bytes.get(at)?;
        (b <= most).then_some(at + 1)
    }

    // Past n zero bytes.
    // (`n` and `at`, also of bindings and pairs below: how many are due, and where to begin; no range, since its end is what is asked.)
    // (That the place stands is asked: of n = 0 the place itself is answered.)
    fn skip_zeros(&self, n: usize, at: usize) -> Option<usize>
        requires { at ≤ length self.now.bytes.now }
        ensures { result ≡ stop (zeros n) self.now.bytes.now at }
    {
        let mut here = at;
        for _ in 0..n {
            here = self.skip_code(0, here)?;
        }
        Some(here)
    }

    // Past a type: 0 and as many zero bytes as an identifier has, or 1 and an identifier.
    pub fn skip_type(&self, at: usize) -> Option<usize>
        ensures { result ≡ stop (type self.now.id) self.now.bytes.now at }
    {
        match *self.bytes.get(at)? {
            0 => self.skip_zeros(2 + self.id, at + 1),
            1 => self.skip_identifier(at + 1),
            // `_`, here and at a mark: a byte, of which two values are allowed.
            _ => None,
        }
    }

    // Past a binding: an identifier, a chirality and a type.
    pub fn skip_binding(&self, at: usize) -> Option<usize>
        ensures { result ≡ stop (binding self.now.id) self.now.bytes.now at }
    {
        if short_binding(self.bytes, self.id, at) {
            return Some(at + 10);
        }
        let chirality = self.skip_identifier(at)?;
        let ty = self.skip_code(2, chirality)?;
        self.skip_type(ty)
    }

    // Past n bindings.
    fn skip_bindings(&self, n: usize, at: usize) -> Option<usize>
        requires { at ≤ length self.now.bytes.now }
        ensures { result ≡ stop (times n (binding self.now.id)) self.now.bytes.now at }
    {
        let mut here = at;
        for _ in 0..n {
            here = self.skip_binding(here)?;
        }
        Some(here)
    }

    // Past a count and as many bindings. (Not one function with `skip_substitution`, nor `skip_bindings` with `skip_pairs`: what is gone past would be
    // a parameter, by an enum that is only there for it.)
    pub fn skip_list(&self, at: usize) -> Option<usize>
        ensures { result ≡ stop (list self.now.id) self.now.bytes.now at }
    {
        let bindings = self.skip_code(Layout::MAX_COUNT, at)?;
        self.skip_bindings(usize::from(self.bytes[at]), bindings)
    }

    // Past n pairs of a binding and an identifier.
    fn skip_pairs(&self, n: usize, at: usize) -> Option<usize>
        requires { at ≤ length self.now.bytes.now }
        ensures { result ≡ stop (times n (pair self.now.id)) self.now.bytes.now at }
    {
        let mut here = at;
        for _ in 0..n {
            let old = self.skip_binding(here)?;
            here = self.skip_identifier(old)?;
        }
        Some(here)
    }

    // Past a count and as many pairs.
    pub fn skip_substitution(&self, at: usize) -> Option<usize>
        ensures { result ≡ stop (counted max_count (pair self.now.id)) self.now.bytes.now at }
    {
        let pairs = self.skip_code(Layout::MAX_COUNT, at)?;
        self.skip_pairs(usize::from(self.bytes[at]), pairs)
    }

    // The mark at a place: does something follow it? None where no mark is there. (Of a place in the fields and private; the flags of a state's header
    // are two bytes that are surely there, and the definition that they are proved by is that of stores.)
    fn mark(&self, at: usize) -> Option<bool>
        ensures { result ≡ mark_at self.now.bytes.now at }
    {
        match *self.bytes.get(at)? {
            0 => Some(false),
            1 => Some(true),
            _ => None,
        }
    }

    // Past the mark of an environment, and its list where it has one.
    // (Not one function with `skip_second`: what follows the mark would be a closure, and three functions would stand for two.)
    pub fn skip_environment(&self, at: usize) -> Option<usize>
        ensures { result ≡ stop (marked (list self.now.id)) self.now.bytes.now at }
    {
        if self.mark(at)? {
            self.skip_list(at + 1)
        } else {
            Some(at + 1)
        }
    }

    // Past the mark of a second operand, and the operand where there is one.
    pub fn skip_second(&self, at: usize) -> Option<usize>
        ensures { result ≡ stop (marked (identifier self.now.id)) self.now.bytes.now at }
    {
        if self.mark(at)? {
            self.skip_identifier(at + 1)
        } else {
            Some(at + 1)
        }
    }
}
