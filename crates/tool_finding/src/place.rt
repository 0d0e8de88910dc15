// What a refusal is about: a record, and the ID of a variable there where it is about one.
use std::fmt;

#[derive(Clone, Copy, Debug, PartialEq, Eq)]
pub struct Place {
    pub record: usize,
    pub id: Option<usize>,
}

impl From<usize> for Place {
    fn from(record: usize) -> Place {
        Place { record, id: None }
    }
}

impl fmt::Display for Place {
    fn fmt<W: fmt::Write>(&self, f: &mut fmt::Formatter<W>) -> fmt::Result {
        let record = self.record;
        match self.id {
            Some(id) => write!(f, "record {record}, ID {id}"),
            None => write!(f, "record {record}"),
        }
    }
}
