// Annotations as text. Let, Literal, Op and PrintI64 have the free variables of their next, Switch those of its clauses, Create both.
use crate::page::Page;
use std::io::{self, Write};
use try_building::reader::Reader;
use try_building::record::Record;

pub fn is_annotated(record: Record<'_>) -> bool {
    matches!(
        record,
        Record::Let { .. }
            | Record::Switch { .. }
            | Record::Create { .. }
            | Record::Literal { .. }
            | Record::Op { .. }
            | Record::PrintI64 { .. }
    )
}

impl Page<'_> {
    // The annotation of a record, from the bytes that axcut_annotate wrote.
    pub fn annotation(&mut self, record: Record<'_>, found: &[u8]) -> io::Result<()> {
        let mut reader = Reader::new(found);
        match record {
            Record::Switch { .. } => self.set("clauses", &mut reader),
            Record::Create { .. } => {
                self.set("clauses", &mut reader)?;
                self.set(", next", &mut reader)
            }
            // The others that have one.
            _ => self.set("next", &mut reader),
        }
    }

    // A set of IDs, behind its word.
    fn set(&mut self, word: &str, found: &mut Reader<'_>) -> io::Result<()> {
        write!(self, "{word} {{")?;
        for j in 0..usize::from(found.half().unwrap_or(0)) {
            self.comma(j)?;
            write!(self, "{}", found.half().unwrap_or(0))?;
        }
        self.say("}")
    }
}
