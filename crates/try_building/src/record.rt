// Records, by their kinds. Under `_`, here and below, are the other kinds, which have nothing of what is asked, where no line says what they have.
use crate::codes::{Comparison, Kind, Operator};
use crate::lists::{Bindings, Identifier, List, Substitutions, Ty, mark};
use crate::reader::Reader;

#[derive(Clone, Copy)]
pub enum Record<'a> {
    Definition {
        label: Identifier,
        parameters: Bindings<'a>,
    },
    Substitute {
        pairs: Substitutions<'a>,
    },
    Call {
        label: Identifier,
        arguments: Bindings<'a>,
    },
    Let {
        variable: Identifier,
        ty: Ty,
        tag: Identifier,
        arguments: Bindings<'a>,
    },
    Switch {
        variable: Identifier,
        ty: Ty,
        clauses: u8,
    },
    Create {
        variable: Identifier,
        ty: Ty,
        environment: Option<Bindings<'a>>,
        clauses: u8,
    },
    Invoke {
        variable: Identifier,
        tag: Identifier,
        ty: Ty,
        arguments: Bindings<'a>,
    },
    Literal {
        value: i64,
        variable: Identifier,
    },
    Op {
        first: Identifier,
        operator: Operator,
        second: Identifier,
        variable: Identifier,
    },
    IfC {
        comparison: Comparison,
        first: Identifier,
        // None compares with 0.
        second: Option<Identifier>,
    },
    Clause {
        tag: Identifier,
        parameters: Bindings<'a>,
    },
    PrintI64 {
        // The record's mark, a yes or no.
        newline: bool,
        variable: Identifier,
    },
    Exit {
        variable: Identifier,
    },
}

impl<'a> Record<'a> {
    // The record that these bytes are, by the kind in the first one. No TryFrom: why they are none is not told.
    pub fn of(bytes: &'a [u8]) -> Option<Record<'a>> {
        let mut reader = Reader::new(bytes);
        match Kind::try_from(reader.byte()?).ok()? {
            Kind::Definition => Record::read_definition(&mut reader),
            Kind::Substitute => Record::read_substitute(&mut reader),
            Kind::Call => Record::read_call(&mut reader),
            Kind::Let => Record::read_let(&mut reader),
            Kind::Switch => Record::read_switch(&mut reader),
            Kind::Create => Record::read_create(&mut reader),
            Kind::Invoke => Record::read_invoke(&mut reader),
            Kind::Literal => Record::read_literal(&mut reader),
            Kind::Op => Record::read_op(&mut reader),
            Kind::IfC => Record::read_ifc(&mut reader),
            Kind::Clause => Record::read_clause(&mut reader),
            Kind::PrintI64 => Record::read_print(&mut reader),
            Kind::Exit => Record::read_exit(&mut reader),
        }
    }

    fn read_definition(reader: &mut Reader<'a>) -> Option<Record<'a>> {
        Some(Record::Definition {
            label: Identifier::read(reader)?,
            parameters: List::read(reader)?,
        })
    }

    fn read_substitute(reader: &mut Reader<'a>) -> Option<Record<'a>> {
        Some(Record::Substitute {
            pairs: List::read(reader)?,
        })
    }

    fn read_call(reader: &mut Reader<'a>) -> Option<Record<'a>> {
        Some(Record::Call {
            label: Identifier::read(reader)?,
            arguments: List::read(reader)?,
        })
    }

    fn read_literal(reader: &mut Reader<'a>) -> Option<Record<'a>> {
        Some(Record::Literal {
            value: reader.signed()?,
            variable: Identifier::read(reader)?,
        })
    }

    fn read_clause(reader: &mut Reader<'a>) -> Option<Record<'a>> {
        Some(Record::Clause {
            tag: Identifier::read(reader)?,
            parameters: List::read(reader)?,
        })
    }

    fn read_print(reader: &mut Reader<'a>) -> Option<Record<'a>> {
        Some(Record::PrintI64 {
            newline: mark(reader)?,
            variable: Identifier::read(reader)?,
        })
    }

    fn read_exit(reader: &mut Reader<'a>) -> Option<Record<'a>> {
        Some(Record::Exit {
            variable: Identifier::read(reader)?,
        })
    }

    fn read_let(reader: &mut Reader<'a>) -> Option<Record<'a>> {
        Some(Record::Let {
            variable: Identifier::read(reader)?,
            ty: Ty::read(reader)?,
            tag: Identifier::read(reader)?,
            arguments: List::read(reader)?,
        })
    }

    fn read_switch(reader: &mut Reader<'a>) -> Option<Record<'a>> {
        Some(Record::Switch {
            variable: Identifier::read(reader)?,
            ty: Ty::read(reader)?,
            clauses: reader.byte()?,
        })
    }

    fn read_create(reader: &mut Reader<'a>) -> Option<Record<'a>> {
        let variable = Identifier::read(reader)?;
        let ty = Ty::read(reader)?;
        // (No `then`, here and in `read_ifc`: in a closure `?` cannot end the function where the bytes are cut off.)
        let environment = if mark(reader)? {
            Some(List::read(reader)?)
        } else {
            None
        };
        Some(Record::Create {
            variable,
            ty,
            environment,
            clauses: reader.byte()?,
        })
    }

    fn read_invoke(reader: &mut Reader<'a>) -> Option<Record<'a>> {
        Some(Record::Invoke {
            variable: Identifier::read(reader)?,
            tag: Identifier::read(reader)?,
            ty: Ty::read(reader)?,
            arguments: List::read(reader)?,
        })
    }

    fn read_op(reader: &mut Reader<'a>) -> Option<Record<'a>> {
        Some(Record::Op {
            first: Identifier::read(reader)?,
            operator: Operator::try_from(reader.byte()?).ok()?,
            second: Identifier::read(reader)?,
            variable: Identifier::read(reader)?,
        })
    }

    fn read_ifc(reader: &mut Reader<'a>) -> Option<Record<'a>> {
        let comparison = Comparison::try_from(reader.byte()?).ok()?;
        let first = Identifier::read(reader)?;
        let second = if mark(reader)? {
            Some(Identifier::read(reader)?)
        } else {
            None
        };
        Some(Record::IfC {
            comparison,
            first,
            second,
        })
    }

    // The variable that is bound in what follows.
    pub fn variable(self) -> Option<Identifier> {
        match self {
            Record::Let { variable, .. }
            | Record::Create { variable, .. }
            | Record::Literal { variable, .. }
            | Record::Op { variable, .. } => Some(variable),
            _ => None,
        }
    }

    // The variables that are bound in the body.
    pub fn parameters(self) -> Bindings<'a> {
        match self {
            Record::Definition { parameters, .. } | Record::Clause { parameters, .. } => parameters,
            _ => List::empty(),
        }
    }

    // The list of the variables that are used.
    pub fn arguments(self) -> Bindings<'a> {
        match self {
            Record::Call { arguments, .. }
            | Record::Let { arguments, .. }
            | Record::Invoke { arguments, .. } => arguments,
            _ => List::empty(),
        }
    }

    // The variables that are used beside the arguments: the first, and the second.
    pub fn uses(self) -> (Option<Identifier>, Option<Identifier>) {
        match self {
            Record::Switch { variable, .. }
            | Record::Invoke { variable, .. }
            | Record::PrintI64 { variable, .. }
            | Record::Exit { variable } => (Some(variable), None),
            Record::Op { first, second, .. } => (Some(first), Some(second)),
            Record::IfC { first, second, .. } => (Some(first), second),
            _ => (None, None),
        }
    }

    // How many clauses follow.
    pub fn clauses(self) -> u8 {
        match self {
            Record::Switch { clauses, .. } | Record::Create { clauses, .. } => clauses,
            _ => 0,
        }
    }

    // How many bodies follow, clauses apart.
    pub fn bodies(self) -> u8 {
        match self {
            Record::Call { .. }
            | Record::Switch { .. }
            | Record::Invoke { .. }
            | Record::Exit { .. } => 0,
            Record::IfC { .. } => 2,
            // Each of the others has one.
            _ => 1,
        }
    }
}
