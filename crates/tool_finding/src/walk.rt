// Questions 5 and 7 to 10: the records in their order, each with what is in scope there, up to the first that is the no.
use crate::due::{Due, Dues};
use crate::place::Place;
use crate::scope::Scope;
use try_building::image::Image;
use try_building::lists::{Bindings, Identifier};
use try_building::record::Record;
use try_building::refusal::Refusal;

// The most statements in depth, for questions 5 and 7.
const DEEPEST: usize = 128;

const DEEP: usize = 64;

// The greatest count for question 7.
const COUNT: usize = 32;

#[derive(Clone, Copy)]
struct Walk {
    // (The question is kept, and looked at in three functions: a closure in its place would be three.)
    question: Refusal,
    // The record at hand.
    record: usize,
    // How many definitions the image has, and how many there were.
    definitions: u16,
    before: u16,
    max_id: u16,
    scope: Scope,
    dues: Dues,
}

impl Walk {
    // The record at hand as the no.
    fn here(&self) -> Place {
        Place::from(self.record)
    }

    // A variable as the no, where its ID is that: in a binder for questions 8 and 10, and where it is used for question 9.
    fn variable(&self, variable: Identifier) -> Option<Place> {
        let id = variable.id;
        let is_no = match self.question {
            Refusal::Binders => self.scope.contains(id),
            Refusal::Scope => !self.scope.contains(id),
            Refusal::MaxId => self.max_id < id,
            // No other question is about a variable.
            _ => false,
        };
        is_no.then_some(Place {
            record: self.record,
            id: Some(usize::from(id)),
        })
    }

    // `due` and `record`, here and below: what may come next, from the list of dues, and what does come, from the image.
    // Question 5: is it not what is due, or one definition too many, or too deep?
    fn is_misplaced(&self, due: Due, record: Record<'_>) -> bool {
        !due.takes(record)
            || DEEPEST < due.depth()
            || (due == Due::Definition && self.definitions <= self.before)
    }

    // Question 7: is it too deep, or has a count that is too great, or more binders than there is room for in scope?
    fn is_large(&self, due: Due, record: Record<'_>) -> bool {
        let bound = record.parameters().len();
        let binders = if record.variable().is_some() {
            1
        } else {
            bound
        };
        DEEP < due.depth()
            || COUNT < bound
            || COUNT < record.arguments().len()
            || COUNT < usize::from(record.clauses())
            || Scope::MAX < self.scope.len().saturating_add(binders)
    }

    // The first variable that is used and is the no.
    fn used(&self, record: Record<'_>) -> Option<Place> {
        let (first, second) = record.uses();
        let arguments = record.arguments().map(|binding| binding.variable);
        [first, second]
            .into_iter()
            .flatten()
            .chain(arguments)
            .find_map(|variable| self.variable(variable))
    }

    // The no of a record, but for its parameters.
    fn ask(&self, due: Due, record: Record<'_>) -> Option<Place> {
        match self.question {
            Refusal::Shape if self.is_misplaced(due, record) => Some(self.here()),
            Refusal::Limits if self.is_large(due, record) => Some(self.here()),
            Refusal::Scope => self.used(record),
            Refusal::Binders | Refusal::MaxId => self.variable(record.variable()?),
            // It is no no to the first two, and no other question is asked so.
            _ => None,
        }
    }

    // Binds parameters, one after the other, up to the first that is the no.
    fn bind(&mut self, parameters: Bindings<'_>) -> Option<Place> {
        for binding in parameters {
            if self.question != Refusal::Scope {
                if let Some(place) = self.variable(binding.variable) {
                    return Some(place);
                }
            }
            self.scope.push(binding.variable.id);
        }
        None
    }

    // What is due behind a record, which was due.
    fn open(&mut self, due: Due, record: Record<'_>) {
        let depth = due.depth();
        let scope = self.scope.len();
        let left = record.clauses();
        let binds = record.variable().map(|variable| variable.id);
        for _ in 0..record.bodies() {
            self.dues.push(Due::Statement {
                depth,
                scope,
                binds,
            });
        }
        if 0 < left {
            self.dues.push(Due::Clauses { depth, scope, left });
        }
    }

    // The next record, and its no.
    fn step(&mut self, record: Record<'_>) -> Option<Place> {
        let due = self.dues.pop().unwrap_or(Due::Definition);
        if let Some(rest) = due.rest() {
            self.dues.push(rest);
        }
        self.scope.truncate(due.scope());
        if let Some(id) = due.binds() {
            self.scope.push(id);
        }
        if let Some(place) = self.ask(due, record) {
            return Some(place);
        }
        if let Some(place) = self.bind(record.parameters()) {
            return Some(place);
        }
        if matches!(record, Record::Definition { .. }) {
            self.before = self.before.saturating_add(1);
        }
        self.open(due, record);
        None
    }
}

pub fn first(image: Image<'_>, question: Refusal) -> Option<Place> {
    let mut walk = Walk {
        question,
        record: 0,
        definitions: image.definitions(),
        before: 0,
        max_id: image.max_id(),
        scope: Scope::empty(),
        dues: Dues::none(),
    };
    for k in 0..image.records() {
        walk.record = usize::from(k);
        if let Some(record) = image.record(k) {
            let place = walk.step(record);
            if place.is_some() {
                return place;
            }
        }
    }
    None
}
