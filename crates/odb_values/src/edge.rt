//! The ends of a range.
use crate::{Duplicate, Value};
use std::alloc::{AllocError, Global};

/// One end of a range, as a bound on the value that follows the prefix.
#[derive(Clone, Debug, Drop)]
pub enum Edge {
    /// No bound, and no such value is needed.
    Free,
    /// The bound is in the range.
    Closed(Value),
    /// The bound is left out.
    Beyond(Value),
}

impl Duplicate for Edge {
    fn copy(&self, alloc: Global) -> Result<Edge, AllocError> {
        match self {
            Edge::Free => Ok(Edge::Free),
            Edge::Closed(value) => Ok(Edge::Closed(value.copy(alloc)?)),
            Edge::Beyond(value) => Ok(Edge::Beyond(value.copy(alloc)?)),
        }
    }
}
