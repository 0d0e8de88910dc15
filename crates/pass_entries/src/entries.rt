// What the rules do with one entry.
ghost use Rattle.std.specs.Prelude.{◌≡◌};
ghost use Rattle.std.proofs.Math.Option.{some};
ghost use Rattle.syntax.specs.Context.{rebound};
ghost use Rattle.pass_work_spec.specs.Work.{own, spelling, respell};
ghost use Rattle.pass_entries.specs.Entries.{flat_of, entry_in};

use pass_work_spec::Entry;
use syntax::context::{Chirality, ContextBinding, FlatBinding};
use syntax::names::{Identifier, Name, VarId};

// An entry as it stands in an array: its parts side by side, so that none of an element's bytes is unused and a context is quick to copy.
#[derive(Clone, Copy)]
pub struct FlatEntry {
    pub id: VarId,
    pub source: VarId,
    pub ty_id: VarId,
    pub name: Name,
    pub ty_name: Name,
    pub chi: Chirality,
    // Whether the type is declared. I64 has no identifier. A flag and no Option: 20 bytes and not 28 (decision 51).
    pub declared: bool,
    pub place: u8,
    pub spelled: bool,
}

impl From<Entry> for FlatEntry {
    ghost from_gives = { λ e flat. entry_in flat ≡ e };

    fn from(e: Entry) -> Self {
        let b = e.binding.flat();
        FlatEntry {
            id: b.id,
            source: e.source,
            ty_id: b.ty_id,
            name: b.name,
            ty_name: b.ty_name,
            chi: b.chi,
            declared: b.declared,
            place: e.place,
            spelled: e.spelled,
        }
    }
}

// (Methods and no `From`, as `ContextBinding::flat`: both stand in chains, as `self.flat_binding().binding()`.)
impl FlatEntry {
    pub fn flat_binding(self) -> FlatBinding
        ensures { result ≡ flat_of self }
    {
        FlatBinding {
            id: self.id,
            ty_id: self.ty_id,
            name: self.name,
            ty_name: self.ty_name,
            chi: self.chi,
            declared: self.declared,
            unused: 0,
        }
    }

    pub fn entry(self) -> Entry
        ensures { result ≡ entry_in self }
    {
        Entry {
            binding: self.flat_binding().binding(),
            source: self.source,
            place: self.place,
            spelled: self.spelled,
        }
    }
}

// What a use of the entry's variable is written as.
pub fn spelled(e: Entry, x: Identifier) -> Identifier
    ensures { result ≡ spelling (some e) x }
{
    if e.spelled { e.binding.var } else { x }
}

pub fn used_binding(e: Entry, b: ContextBinding) -> ContextBinding
    ensures { result ≡ rebound b (spelling (some e) b.var) }
{
    ContextBinding {
        var: spelled(e, b.var),
        ..b
    }
}

// A binder at the n-th place in scope stands for itself.
pub fn owned(n: u8, b: ContextBinding) -> Entry
    ensures { result ≡ own n b }
{
    Entry {
        binding: b,
        source: b.var.id,
        place: n,
        spelled: false,
    }
}

// The entry under another binding: from here on uses take its spelling.
pub fn respell(e: Entry, b: ContextBinding) -> Entry
    ensures { result ≡ respell e b }
{
    Entry {
        binding: b,
        spelled: true,
        ..e
    }
}
