// The line of a record.
use crate::names::Typing;
use crate::page::Page;
use std::io::{self, Write};
use try_building::lists::{Bindings, Identifier, Substitutions, Ty};
use try_building::record::Record;

// What is asked of a listing: three things, each of which is asked for or not, whatever is asked for beside.
#[derive(Clone, Copy, PartialEq, Eq)]
pub struct View {
    // How a variable is written where it is used.
    pub uses: Typing,
    // The index of each record.
    pub records: bool,
    // The free variables of each record that has an annotation.
    pub annotations: bool,
}

impl Page<'_> {
    // The line of a record, with the variables that it uses written so.
    pub fn line(&mut self, record: Record<'_>, uses: Typing) -> io::Result<()> {
        match record {
            Record::Definition { label, parameters } => {
                self.say("def ")?;
                self.label(label)?;
                self.list(parameters, Typing::Typed)?;
                self.say(" {")
            }
            Record::Substitute { pairs } => self.substitute(pairs, uses),
            Record::Call { label, arguments } => {
                self.label(label)?;
                self.list(arguments, uses)
            }
            Record::Let {
                variable,
                ty,
                tag,
                arguments,
            } => {
                self.typed("let ", variable, ty)?;
                self.say(" = ")?;
                self.label(tag)?;
                self.list(arguments, uses)?;
                self.say(";")
            }
            Record::Switch { variable, ty, .. } => {
                self.typed("switch ", variable, ty)?;
                self.say(" {")
            }
            Record::Create {
                variable,
                ty,
                environment,
                ..
            } => {
                self.typed("create ", variable, ty)?;
                self.environment(environment, uses)
            }
            Record::Invoke {
                variable,
                tag,
                ty,
                arguments,
            } => {
                self.typed("invoke ", variable, ty)?;
                self.say(" ")?;
                self.label(tag)?;
                self.list(arguments, uses)
            }
            Record::Clause { tag, parameters } => {
                self.label(tag)?;
                self.list(parameters, Typing::Typed)?;
                self.say(" => {")
            }
            Record::Literal { .. }
            | Record::Op { .. }
            | Record::IfC { .. }
            | Record::PrintI64 { .. }
            | Record::Exit { .. } => self.integer_line(record),
        }
    }

    // The line of a record about integers, or of an Exit.
    fn integer_line(&mut self, record: Record<'_>) -> io::Result<()> {
        match record {
            Record::Literal { value, variable } => {
                self.say("lit ")?;
                self.variable(variable)?;
                write!(self, " <- {value};")
            }
            Record::Op {
                first,
                operator,
                second,
                variable,
            } => {
                self.variable(variable)?;
                self.say(" <- ")?;
                self.variable(first)?;
                write!(self, " {operator} ")?;
                self.variable(second)?;
                self.say(";")
            }
            Record::IfC {
                comparison,
                first,
                second,
            } => {
                self.say("if ")?;
                self.variable(first)?;
                write!(self, " {comparison} ")?;
                self.variable_or_zero(second)?;
                self.say(" {")
            }
            Record::PrintI64 { newline, variable } => {
                self.say(if newline {
                    "println_i64("
                } else {
                    "print_i64("
                })?;
                self.variable(variable)?;
                self.say(");")
            }
            Record::Exit { variable } => {
                self.say("exit ")?;
                self.variable(variable)
            }
            // The line of any other is not asked of it.
            _ => Ok(()),
        }
    }

    // A word, a variable and its type.
    fn typed(&mut self, word: &str, variable: Identifier, ty: Ty) -> io::Result<()> {
        self.say(word)?;
        self.variable(variable)?;
        self.say(": ")?;
        self.ty(ty)
    }

    // What a Create begins with: its environment, where there is one.
    fn environment(&mut self, environment: Option<Bindings<'_>>, uses: Typing) -> io::Result<()> {
        self.say(" = ")?;
        if let Some(list) = environment {
            self.list(list, uses)?;
            self.say(" ")?;
        }
        self.say("{")
    }

    fn substitute(&mut self, pairs: Substitutions<'_>, uses: Typing) -> io::Result<()> {
        self.say("substitute")?;
        if 0 < pairs.len() {
            self.say(" ")?;
        }
        self.pairs(pairs, uses)?;
        self.say(";")
    }

    // What IfC compares with.
    fn variable_or_zero(&mut self, second: Option<Identifier>) -> io::Result<()> {
        match second {
            Some(variable) => self.variable(variable),
            None => self.say("0"),
        }
    }
}
