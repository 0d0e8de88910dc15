// The context at work: up to 64 entries by value with a count, and what the rules do to it.
#![tactic(auto)]

ghost use Rattle.std.specs.Prelude.{◌≡◌, map, ◌∷◌, [], ◌++◌, ◌+◌, ◌≤◌, ◌<◌, length, get_or};
ghost use Rattle.syntax.specs.Context.{empty_binding, ids, same_binding, same_context};
ghost use Rattle.syntax.specs.Options.{option_of};
ghost use Rattle.syntax.specs.Arrays.{context_of, Holds, SetHolds};
ghost use Rattle.pass_work_spec.specs.Work.{bindings, entry_of, own, owns, used, used_all_lem, moved_behind, respelled};
ghost use Rattle.pass_entries.specs.Entries.{entry_in};
ghost use Rattle.pass_entries.specs.Masks.{kept_by_mask, with_places_lem};

use pass_entries::entries::{FlatEntry, owned, respell, spelled, used_binding};
use pass_entries::masks::{bit, with_bit};
use pass_work_spec::Entry;
use syntax::context::{ContextBinding, TypingContext};
use syntax::names::{Identifier, VarId};
use syntax::sets::IdSet;

// By value with a count, as `IdSet`, which says why: nothing below the programs takes memory.
// (Below, what is written goes by places: of a part that is lent of a struct with a ghost field nothing is known after, so no slice of `out` is walked or
// turned; and in a copy of the array 1 KB more would be moved.)
#[derive(Clone, Copy)]
pub struct Held {
    pub entries: [FlatEntry; TypingContext::MAX],
    pub len: usize,
    pub ghost size: { length entries ≡ 64 },
    pub ghost fits: { len ≤ 64 },
}

// The entry that stands for a variable of the source, if one does.
fn entry_of(entries: &[FlatEntry], id: VarId) -> Option<Entry>
    ensures { option_of result ≡ entry_of id (map entry_in entries.now) }
{
    let e = entries.iter().find(|e| id == e.source)?;
    Some(e.entry())
}

impl Held {
    ghost use Rattle.pass_context.specs.Holding.{work_of, HoldsWork};

    pub fn empty() -> Self
        ensures { HoldsWork result [] }
    {
        let none = FlatEntry::from(Entry {
            binding: ContextBinding::empty(),
            source: VarId(0),
            place: 0,
            spelled: false,
        });
        Held {
            entries: [none; TypingContext::MAX],
            len: 0,
        }
    }

    // A binder at the n-th place in scope.
    pub fn own(self, n: u8, b: ContextBinding) -> Self
        requires { self.len < 64 }
        ensures { HoldsWork result (work_of self ++ (own n b ∷ [])) }
    {
        let at = self.len;
        let mut next = self;
        next.entries[at] = FlatEntry::from(owned(n, b));
        next.len = at + 1;
        next
    }

    // The mask with the places of the entries that stand for two variables.
    pub fn with_places(self, mask: u64, fst: VarId, snd: VarId) -> u64
        ensures { result ≡ with_places_lem fst snd (work_of self) mask }
    {
        self.entries[..self.len]
            .iter()
            .filter(|e| e.source == fst || e.source == snd)
            .fold(mask, |m, e| with_bit(m, e.place))
    }

    // Keeps the entries whose places are in the mask. One that goes gives its place to the last, which is looked at next.
    pub fn filter_by_set(self, mask: u64) -> Self
        ensures { HoldsWork result (kept_by_mask mask (work_of self)) }
    {
        let mut out = self;
        let mut n = self.len;
        let mut i = 0;
        // no range: the end falls with each entry that goes, and the index stays
        while i < n {
            let e = out.entries[i];
            if bit(mask, e.place) {
                i += 1;
            } else {
                n -= 1;
                out.entries[i] = out.entries[n];
            }
        }
        out.len = n;
        out
    }

    pub fn context(self) -> TypingContext
        ensures { Holds result (bindings (work_of self)) }
    {
        let mut out = TypingContext::empty();
        for i in 0..self.len {
            out.bindings[i] = self.entries[i].flat_binding();
        }
        out.len = self.len;
        out
    }

    // The IDs of the bindings.
    pub fn ids(self) -> IdSet
        ensures { SetHolds result (ids (bindings (work_of self))) }
    {
        let mut out = IdSet::empty();
        for i in 0..self.len {
            out.ids[i] = self.entries[i].id;
        }
        out.len = self.len;
        out
    }

    // What a use of a variable of the source is written as.
    pub fn used(self, x: Identifier) -> Identifier
        ensures { result ≡ used (work_of self) x }
    {
        match entry_of(&self.entries[..self.len], x.id) {
            Some(e) => spelled(e, x),
            None => x,
        }
    }

    // The arguments as they are written.
    pub fn used_all(self, args: TypingContext) -> TypingContext
        ensures { Holds result (used_all_lem (work_of self) (context_of args)) }
    {
        let mut out = args;
        for i in 0..args.len {
            let b = args.bindings[i];
            out.bindings[i] = match entry_of(&self.entries[..self.len], b.id) {
                Some(e) => used_binding(e, b.binding()).flat(),
                None => b,
            };
        }
        out
    }

    // Is the binding at place i that of the two contexts, one behind the other?
    fn same_at(&self, front: &TypingContext, back: &TypingContext, i: usize) -> bool
        requires { (i < self.now.len) × (self.now.len ≡ front.now.len + back.now.len) }
        ensures { result ≡ same_binding (get_or (bindings (work_of self.now)) i empty_binding) (get_or (context_of front.now ++ context_of back.now) i empty_binding) }
    {
        let k = front.len;
        let a = self.entries[i].flat_binding();
        let b = if i < k {
            front.bindings[i]
        } else {
            back.bindings[i - k]
        };
        a.binding().same(b.binding())
    }

    // Are the bindings those of the two contexts, one behind the other? No `==`: the two sides are of different types, and the right one is two.
    // (By places: of a `zip` with a `chain` of the two, tried, it was not proved that what stands at a place is the same.)
    // (Callers compare the counts first: no context is made where they differ.)
    pub fn same(self, front: TypingContext, back: TypingContext) -> bool
        ensures { result ≡ same_context (bindings (work_of self)) (context_of front ++ context_of back) }
    {
        let n = self.len;
        if n != front.len + back.len {
            return false;
        }
        (0..n).all(|i| self.same_at(&front, &back, i))
    }

    // The first j entries behind the others.
    pub fn move_behind(self, j: usize) -> Self
        requires { j ≤ self.len }
        ensures { HoldsWork result (moved_behind j (work_of self)) }
    {
        let n = self.len;
        let k = n - j;
        let mut out = self;
        for i in 0..n {
            out.entries[i] = if i < k {
                self.entries[i + j]
            } else {
                self.entries[i - k]
            };
        }
        out
    }

    // Binders, the first at the n-th place in scope.
    pub fn owns(self, n: u8, params: TypingContext) -> Self
        requires { (self.len + params.len ≤ 64) × (n + params.len < 256) }
        ensures { HoldsWork result (work_of self ++ owns n (context_of params)) }
    {
        let mut out = self;
        for i in 0..params.len {
            let b = params.bindings[i];
            out.entries[self.len + i] = FlatEntry::from(owned(n + i as u8, b.binding()));
        }
        out.len = self.len + params.len;
        out
    }

    // Binders before the entries, the first at the n-th place in scope.
    pub fn under(self, n: u8, params: TypingContext) -> Self
        requires { (self.len + params.len ≤ 64) × (n + params.len < 256) }
        ensures { HoldsWork result (owns n (context_of params) ++ work_of self) }
    {
        let k = params.len;
        let count = k + self.len;
        let mut out = self;
        for i in 0..count {
            out.entries[i] = if i < k {
                let b = params.bindings[i];
                let place = n + i as u8;
                FlatEntry::from(owned(place, b.binding()))
            } else {
                self.entries[i - k]
            };
        }
        out.len = count;
        out
    }

    // The entries under other bindings, one by one.
    pub fn respelled(self, names: TypingContext) -> Self
        requires { names.len ≡ self.len }
        ensures { HoldsWork result (respelled (work_of self) (context_of names)) }
    {
        let mut out = self;
        for i in 0..self.len {
            let b = names.bindings[i];
            out.entries[i] = FlatEntry::from(respell(self.entries[i].entry(), b.binding()));
        }
        out
    }
}
