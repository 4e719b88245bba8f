//! What stands above the left part of a bound predicate: by it predicates are bound without a deep
//! recursion.
ghost use Rattle.std.specs.Prelude.{◌≡◌, IfOk, fold, reverse};
ghost use Rattle.odb_eval.specs.Joint.{under};

use crate::Filter;
use sqlite_items::Boxed;
use std::alloc::{AllocError, Global};

/// What stands above the left part of a bound predicate, with its right part.
#[derive(Drop)]
pub enum Joint {
    /// A NOT, which has no right part.
    Not,
    /// An AND with this right part.
    And(Filter),
    /// An OR with this right part.
    Or(Filter),
}

impl Joint {
    /// The predicate of this joint whose left part is this one. The error is want of memory.
    fn over(self, alloc: Global, left: Filter) -> Result<Filter, AllocError>
        ensures { IfOk result (λ whole. whole ≡ under left self) }
    {
        let left = Boxed::new(alloc, left)?;
        match self {
            Joint::Not => Ok(Filter::Not(left)),
            Joint::And(right) => Ok(Filter::And(left, Boxed::new(alloc, right)?)),
            Joint::Or(right) => Ok(Filter::Or(left, Boxed::new(alloc, right)?)),
        }
    }
}

/// The predicate that has these joints, the topmost first, above this one. The error is want of
/// memory.
pub fn joined(alloc: Global, mut joints: Vec<Joint>, lowest: Filter) -> Result<Filter, AllocError>
    ensures { IfOk result (λ whole. whole ≡ fold under lowest (reverse joints.items)) }
{
    let mut whole = lowest;
    while let Some(joint) = joints.pop() {
        whole = joint.over(alloc, whole)?;
    }
    Ok(whole)
}
