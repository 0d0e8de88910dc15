// Identifiers, types, bindings and lists of them.
use crate::page::Page;
use std::io;
use try_building::codes::Chirality;
use try_building::lists::{Binding, Bindings, Identifier, Substitutions, Ty};

// How a binding is written: the variable alone, or with its chirality and its type.
#[derive(Clone, Copy, Debug, PartialEq, Eq)]
pub enum Typing {
    Bare,
    Typed,
}

// What stands between a variable and its type.
fn chirality(chirality: Chirality) -> &'static str {
    match chirality {
        Chirality::Producer => ": prd ",
        Chirality::Consumer => ": cns ",
        Chirality::External => ": ext ",
    }
}

impl Page<'_> {
    // A variable: its name and its ID.
    pub fn variable(&mut self, variable: Identifier) -> io::Result<()> {
        self.name(variable.name)?;
        self.numbered(b'_', variable.id)
    }

    // A label, a tag or the name of a type: its name, and its ID where that is not 0.
    pub fn label(&mut self, label: Identifier) -> io::Result<()> {
        if label.id == 0 {
            self.name(label.name)
        } else {
            self.variable(label)
        }
    }

    pub fn ty(&mut self, ty: Ty) -> io::Result<()> {
        match ty {
            Ty::I64 => self.say("i64"),
            Ty::Declared(name) => self.label(name),
        }
    }

    pub fn binding(&mut self, binding: Binding, typing: Typing) -> io::Result<()> {
        self.variable(binding.variable)?;
        match typing {
            Typing::Bare => Ok(()),
            Typing::Typed => {
                self.say(chirality(binding.chirality))?;
                self.ty(binding.ty)
            }
        }
    }

    pub fn list(&mut self, list: Bindings<'_>, typing: Typing) -> io::Result<()> {
        self.say("(")?;
        for (j, binding) in list.enumerate() {
            self.comma(j)?;
            self.binding(binding, typing)?;
        }
        self.say(")")
    }

    // The pairs of a Substitute.
    pub fn pairs(&mut self, pairs: Substitutions<'_>, typing: Typing) -> io::Result<()> {
        for (j, pair) in pairs.enumerate() {
            self.comma(j)?;
            self.binding(pair.target, typing)?;
            self.say(" := ")?;
            self.variable(pair.source)?;
        }
        Ok(())
    }
}
