// Events as lines. The words are those of the listing's line for the statement, with what the event shows in place of the variables.
use crate::value::Value;
use std::io::{self, Write};
use tool_listing::page::Page;
use try_building::codes::Kind;
use try_building::reader::Reader;
use try_building::sort::Sort;

// The bytes of an event without its argument values, and of each of these.
const SLOT: usize = 16;

#[derive(Clone, Copy)]
enum Event<'a> {
    Call {
        label: u16,
    },
    Let {
        cell: Value,
        tag: u16,
    },
    Switch {
        cell: Value,
        tag: u16,
    },
    Create {
        cell: Value,
    },
    // The argument values of an outside number.
    Invoke {
        target: Value,
        tag: u16,
        arguments: &'a [u8],
    },
    Literal(Value),
    Op(Value),
    Then,
    Else,
    PrintI64 {
        // A yes or no, as the record has it.
        newline: bool,
        value: Value,
    },
    Exit(Value),
}

impl<'a> Event<'a> {
    fn read(reader: &mut Reader<'a>) -> Option<Event<'a>> {
        let kind = Kind::try_from(reader.byte()?).ok()?;
        let second = reader.byte()?;
        let tag = reader.half()?;
        let count = reader.word()? as usize;
        let bits = reader.double()?;
        let value = Value::of(Sort::of(second), bits);
        let arguments = reader.take(SLOT * count)?;
        match kind {
            Kind::Call => Some(Event::Call { label: tag }),
            Kind::Let => Some(Event::Let { cell: value, tag }),
            Kind::Switch => Some(Event::Switch { cell: value, tag }),
            Kind::Create => Some(Event::Create { cell: value }),
            Kind::Invoke => Some(Event::Invoke {
                target: value,
                tag,
                arguments,
            }),
            Kind::Literal => Some(Event::Literal(value)),
            Kind::Op => Some(Event::Op(value)),
            // (`second`, here and below: a byte of the format, 1 or 0.)
            Kind::IfC => Some(if second == 1 {
                Event::Then
            } else {
                Event::Else
            }),
            Kind::PrintI64 => Some(Event::PrintI64 {
                newline: second == 1,
                value: Value::Integer(bits.cast_signed()),
            }),
            Kind::Exit => Some(Event::Exit(value)),
            // A Substitute shows nothing, and no step is of the others.
            Kind::Definition | Kind::Substitute | Kind::Clause => None,
        }
    }
}

// The value of a slot.
fn argument(slot: &[u8]) -> Option<Value> {
    let mut reader = Reader::new(slot);
    let sort = Sort::of(reader.byte()?);
    reader.take(7)?;
    Some(Value::of(sort, reader.double()?))
}

fn arguments(page: &mut Page<'_>, slots: &[u8]) -> io::Result<()> {
    page.say("(")?;
    for (j, slot) in slots.chunks_exact(SLOT).enumerate() {
        if let Some(value) = argument(slot) {
            page.comma(j)?;
            write!(page, "{value}")?;
        }
    }
    page.say(")")
}

fn line(page: &mut Page<'_>, event: Event<'_>) -> io::Result<()> {
    match event {
        Event::Call { label } => {
            page.name(label)?;
            page.say("()")
        }
        Event::Let { cell, tag } => {
            write!(page, "let {cell} = ")?;
            page.name(tag)
        }
        Event::Switch { cell, tag } => {
            write!(page, "switch {cell} ")?;
            page.name(tag)
        }
        Event::Create { cell } => write!(page, "create {cell}"),
        Event::Invoke {
            target,
            tag,
            arguments: slots,
        } => {
            write!(page, "invoke {target} ")?;
            page.name(tag)?;
            match target {
                Value::Outside(_) => arguments(page, slots),
                Value::Integer(_) | Value::Cell(_) => Ok(()),
            }
        }
        Event::Literal(value) => write!(page, "lit <- {value}"),
        Event::Op(value) => write!(page, "<- {value}"),
        Event::Then => page.say("if then"),
        Event::Else => page.say("if else"),
        Event::PrintI64 { newline, value } => {
            page.say(if newline {
                "println_i64("
            } else {
                "print_i64("
            })?;
            write!(page, "{value})")
        }
        Event::Exit(value) => write!(page, "exit {value}"),
    }
}

// The lines of events. Turns are counted, since of a `while let` it would have to be proved that it ends.
pub fn lines(page: &mut Page<'_>, events: &[u8]) -> io::Result<()> {
    let mut reader = Reader::new(events);
    for _ in 0..events.len() / SLOT {
        let Some(event) = Event::read(&mut reader) else {
            break;
        };
        line(page, event)?;
        page.say("\n")?;
    }
    Ok(())
}
