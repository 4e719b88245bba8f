//! The edges of a range.
ghost use Rattle.std.specs.Prelude.{◌≡◌, IfOk};
ghost use Rattle.odb_model.specs.Where.{tighter};
ghost use Rattle.odb_plan.specs.Sides.{lies_inside, edge_by, is_second};

use odb_model::Compare;
use odb_values::{Duplicate, Edge, Value, cmp_value};
use std::alloc::{AllocError, Global};
use std::cmp::Ordering;

/// From where an edge bounds a range.
#[derive(Clone, Copy, Debug, PartialEq, Eq)]
pub enum Side {
    /// From below.
    Low,
    /// From above.
    High,
}

/// Whether a value lies further inside than another, seen from this side.
fn lies_inside(side: Side, a: &Value, b: &Value) -> bool
    ensures { result ≡ lies_inside side a.now b.now }
{
    match side {
        Side::Low => cmp_value(a, b) == Ordering::Greater,
        Side::High => cmp_value(a, b) == Ordering::Less,
    }
}

/// The edge on this side that a comparison of a column with a value gives. The error is want of
/// memory.
pub fn edge_by(alloc: Global, side: Side, op: Compare, value: &Value) -> Result<Edge, AllocError>
    ensures { IfOk result (λ edge. edge ≡ edge_by side op value.now) }
{
    match (side, op) {
        (Side::Low, Compare::Gt) => Ok(Edge::Beyond(value.copy(alloc)?)),
        (Side::Low, Compare::Ge) => Ok(Edge::Closed(value.copy(alloc)?)),
        (Side::Low, Compare::Eq | Compare::Ne | Compare::Lt | Compare::Le) => Ok(Edge::Free),
        (Side::High, Compare::Lt) => Ok(Edge::Beyond(value.copy(alloc)?)),
        (Side::High, Compare::Le) => Ok(Edge::Closed(value.copy(alloc)?)),
        (Side::High, Compare::Eq | Compare::Ne | Compare::Gt | Compare::Ge) => Ok(Edge::Free),
    }
}

/// Whether the second of two edges is the tighter one.
fn is_second(side: Side, first: &Edge, second: &Edge) -> bool
    ensures { result ≡ is_second (lies_inside side) first.now second.now }
{
    match (first, second) {
        (Edge::Free, _) => true,
        (_, Edge::Free) => false,
        (Edge::Closed(a), Edge::Beyond(b)) => !lies_inside(side, a, b),
        (Edge::Closed(a), Edge::Closed(b)) => lies_inside(side, b, a),
        (Edge::Beyond(a), Edge::Closed(b)) => lies_inside(side, b, a),
        (Edge::Beyond(a), Edge::Beyond(b)) => lies_inside(side, b, a),
    }
}

/// The tighter of two edges; at a tie the one that leaves its value out.
pub fn tighter(side: Side, first: Edge, second: Edge) -> Edge
    ensures { result ≡ tighter (lies_inside side) first second }
{
    if is_second(side, &first, &second) {
        second
    } else {
        first
    }
}
