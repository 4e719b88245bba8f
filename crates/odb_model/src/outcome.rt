//! What a statement does, and what a transaction has read.
use crate::{Reply, Writes};
use odb_values::{Duplicate, Edge, Frozen, Range};
use std::alloc::{AllocError, Global};
use std::default::MadeWith;

/// Ranges that a statement read.
pub type Ranges = Frozen<Range>;

/// What a statement does on a state: its reply, its writes in their order, and the ranges it read.
#[derive(Debug, Drop)]
pub struct Outcome {
    pub reply: Reply,
    pub writes: Writes,
    pub reads: Ranges,
}

/// A range that a transaction read, and how many entries the history had then.
#[derive(Debug, Drop)]
pub struct Read {
    pub range: Range,
    pub number: u64,
}

impl Duplicate for Outcome {
    fn copy(&self, alloc: Global) -> Result<Outcome, AllocError> {
        Ok(Outcome {
            reply: self.reply.copy(alloc)?,
            writes: self.writes.copy(alloc)?,
            reads: self.reads.copy(alloc)?,
        })
    }
}

impl Duplicate for Read {
    fn copy(&self, alloc: Global) -> Result<Read, AllocError> {
        Ok(Read {
            range: self.range.copy(alloc)?,
            number: self.number,
        })
    }
}

/// A blank, as a list with places inline keeps in those that aren't used: the whole of table 0,
/// which is no table's number. It takes no memory.
impl MadeWith<Global> for Read {
    fn made_with(alloc: Global) -> Read {
        Read {
            range: Range {
                table: 0,
                prefix: Frozen::empty(alloc),
                low: Edge::Free,
                high: Edge::Free,
            },
            number: 0,
        }
    }
}
