// What is still to come while the records of an image are walked.
use try_building::record::Record;

#[derive(Clone, Copy, Debug, PartialEq, Eq)]
pub enum Due {
    Definition,
    // The statement below one at a depth, with so many IDs in scope and perhaps one more.
    Statement {
        depth: usize,
        scope: usize,
        binds: Option<u16>,
    },
    // So many clauses of a statement at a depth, with so many IDs in scope.
    Clauses {
        depth: usize,
        scope: usize,
        left: u8,
    },
}

impl Due {
    // The depth of it, where it is a statement, and else of what it belongs to.
    pub fn depth(self) -> usize {
        match self {
            Due::Definition => 0,
            Due::Statement { depth, .. } => depth.saturating_add(1),
            Due::Clauses { depth, .. } => depth,
        }
    }

    // How many IDs are in scope in it, but for the one that is bound before it.
    pub fn scope(self) -> usize {
        match self {
            Due::Definition => 0,
            Due::Statement { scope, .. } | Due::Clauses { scope, .. } => scope,
        }
    }

    // The ID that is bound before it.
    pub fn binds(self) -> Option<u16> {
        match self {
            Due::Statement { binds, .. } => binds,
            Due::Definition | Due::Clauses { .. } => None,
        }
    }

    // Can this record be it?
    pub fn takes(self, record: Record<'_>) -> bool {
        match self {
            Due::Definition => matches!(record, Record::Definition { .. }),
            Due::Clauses { .. } => matches!(record, Record::Clause { .. }),
            Due::Statement { .. } => {
                !matches!(record, Record::Definition { .. } | Record::Clause { .. })
            }
        }
    }

    // What is left of it behind one record.
    pub fn rest(self) -> Option<Due> {
        match self {
            Due::Clauses { depth, scope, left } if 1 < left => Some(Due::Clauses {
                depth,
                scope,
                left: left - 1,
            }),
            Due::Clauses { .. } | Due::Definition | Due::Statement { .. } => None,
        }
    }
}

// All that is still to come, the next one last.
#[derive(Clone, Copy)]
pub struct Dues {
    list: [Due; Dues::MAX],
    length: usize,
}

impl Dues {
    pub const MAX: usize = 256;

    pub fn none() -> Dues {
        Dues {
            list: [Due::Definition; Dues::MAX],
            length: 0,
        }
    }

    // What finds no room is left out: it is not waited for, so question 5 may then be told of a later record than the first that is wrong, or
    // of none. (Only 128 Creates, each in the first of several clauses of the one before, have 256 due and come to more.)
    pub fn push(&mut self, due: Due) {
        if let Some(place) = self.list.get_mut(self.length) {
            *place = due;
            self.length = self.length.saturating_add(1);
        }
    }

    // The next one, which is taken off.
    pub fn pop(&mut self) -> Option<Due> {
        self.length = self.length.checked_sub(1)?;
        self.list.get(self.length).copied()
    }
}
