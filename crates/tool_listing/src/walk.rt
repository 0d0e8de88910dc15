// A listing from record to record: each one's line, and the braces that are due behind it. What stands between is the caller's.
use crate::line::View;
use crate::page::Page;
use std::io::{self, Write};
use try_building::record::Record;

// What is open while a listing is written, with the number of clauses that are still to come.
#[derive(Clone, Copy, PartialEq, Eq)]
enum Block {
    Definition,
    Switch(u8),
    Create(u8),
    Clause,
    Then,
    Else,
}

impl Block {
    // The block that a record opens.
    fn of(record: Record<'_>) -> Option<Block> {
        match record {
            Record::Definition { .. } => Some(Block::Definition),
            Record::Switch { clauses, .. } => Some(Block::Switch(clauses)),
            Record::Create { clauses, .. } => Some(Block::Create(clauses)),
            Record::IfC { .. } => Some(Block::Then),
            Record::Clause { .. } => Some(Block::Clause),
            // The others open none.
            _ => None,
        }
    }

    // What ends it.
    fn brace(self) -> &'static str {
        match self {
            Block::Then => "} else {",
            Block::Create(_) => "};",
            Block::Definition | Block::Switch(_) | Block::Clause | Block::Else => "}",
        }
    }

    // Without one of the clauses that are still to come.
    fn clause_done(self) -> Block {
        match self {
            Block::Switch(left) => Block::Switch(left.saturating_sub(1)),
            Block::Create(left) => Block::Create(left.saturating_sub(1)),
            other => other,
        }
    }

    // Is no clause to come any more?
    fn is_done(self) -> bool {
        match self {
            Block::Switch(left) | Block::Create(left) => left == 0,
            Block::Definition | Block::Clause | Block::Then | Block::Else => true,
        }
    }
}

// Has the statement ended with its record?
fn is_ended(record: Record<'_>) -> bool {
    match record {
        Record::Call { .. } | Record::Invoke { .. } | Record::Exit { .. } => true,
        Record::Switch { clauses, .. } | Record::Create { clauses, .. } => clauses == 0,
        // Behind the others their body, their branches or their next comes.
        _ => false,
    }
}

// The blocks that are open, the innermost last.
#[derive(Clone, Copy)]
pub struct Walk {
    open: [Block; Walk::MAX],
    depth: usize,
}

impl Walk {
    // An image of 128 statements deep has at most two blocks for each, and a definition.
    const MAX: usize = 512;

    pub fn new() -> Walk {
        Walk {
            open: [Block::Definition; Walk::MAX],
            depth: 0,
        }
    }

    // A block that finds no room is left out.
    fn push(&mut self, block: Block) {
        if let Some(place) = self.open.get_mut(self.depth) {
            *place = block;
            self.depth = self.depth.saturating_add(1);
        }
    }

    fn pop(&mut self) -> Option<Block> {
        self.depth = self.depth.checked_sub(1)?;
        self.open.get(self.depth).copied()
    }

    // A record's line, with its index: an empty line stands before a definition, and spaces before any other record.
    pub fn begin_line(
        &self,
        page: &mut Page<'_>,
        view: View,
        k: u16,
        record: Record<'_>,
    ) -> io::Result<()> {
        match record {
            Record::Definition { .. } => page.say("\n")?,
            _ => page.indent(self.depth)?,
        }
        page.line(record, view.uses)?;
        if view.records {
            write!(page, "  // {k}")?;
        }
        Ok(())
    }

    // The end of a record's line, and the braces that are due behind it.
    pub fn end_line(&mut self, page: &mut Page<'_>, record: Record<'_>) -> io::Result<()> {
        page.say("\n")?;
        if let Some(block) = Block::of(record) {
            self.push(block);
        }
        if is_ended(record) {
            self.settle(page)?;
        }
        Ok(())
    }

    // Closes each block that the statement at hand ends. Turns are counted, since of a `while let` it would have to be proved that it
    // ends, though a block is put back.
    fn settle(&mut self, page: &mut Page<'_>) -> io::Result<()> {
        for _ in 0..self.depth {
            let Some(block) = self.pop() else { break };
            page.indent(self.depth)?;
            page.say(block.brace())?;
            page.say("\n")?;
            if !self.ends_outer(block) {
                break;
            }
        }
        Ok(())
    }

    // Has the statement around a block ended with it? Behind a then-branch the else-branch comes, behind a Create its next.
    // (A yes or no: what is pushed stays, whatever is answered.)
    fn ends_outer(&mut self, block: Block) -> bool {
        match block {
            Block::Then => {
                self.push(Block::Else);
                false
            }
            Block::Create(_) => false,
            Block::Clause => self.clause_done(),
            Block::Definition | Block::Switch(_) | Block::Else => true,
        }
    }

    // A clause has ended: its Switch or Create has one less to come, and with the last one it has ended.
    fn clause_done(&mut self) -> bool {
        let Some(block) = self.pop() else {
            return true;
        };
        let left = block.clause_done();
        self.push(left);
        left.is_done()
    }
}
