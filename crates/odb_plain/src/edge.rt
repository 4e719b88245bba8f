//! The edges of a range.
ghost use Rattle.std.specs.Prelude.{◌≡◌, ◌==◌, List, ◌∷◌, filter, IfOk};
ghost use Rattle.odb_model.specs.Where.{ColumnTest, tighter, tests_at};
ghost use Rattle.odb_plain.specs.Sides.{lies_inside, edge_by, edge_of};

use crate::tests_of::Test;
use odb_model::Compare;
use odb_values::{Duplicate, Edge, Value, cmp_value};
use std::alloc::{AllocError, Global};
use std::cmp::Ordering;

/// From where an edge bounds a range.
#[derive(Clone, Copy, Debug, PartialEq, Eq)]
pub(crate) enum Side {
    /// From below.
    Low,
    /// From above.
    High,
}

/// Whether a value lies further inside than another, seen from this side.
fn lies_inside(side: Side, a: &Value, b: &Value) -> bool
    ensures { result ≡ lies_inside side a.now b.now }
{
    match side {
        Side::Low => cmp_value(a, b) == Ordering::Greater,
        Side::High => cmp_value(a, b) == Ordering::Less,
    }
}

/// The edge on this side that a comparison of a column with a value gives. The error is want of
/// memory.
fn edge_by(alloc: Global, side: Side, op: Compare, value: &Value) -> Result<Edge, AllocError>
    ensures { IfOk result (λ edge. edge ≡ edge_by side op value.now) }
{
    match (side, op) {
        (Side::Low, Compare::Gt) => Ok(Edge::Beyond(value.copy(alloc)?)),
        (Side::Low, Compare::Ge) => Ok(Edge::Closed(value.copy(alloc)?)),
        (Side::Low, Compare::Eq | Compare::Ne | Compare::Lt | Compare::Le) => Ok(Edge::Free),
        (Side::High, Compare::Lt) => Ok(Edge::Beyond(value.copy(alloc)?)),
        (Side::High, Compare::Le) => Ok(Edge::Closed(value.copy(alloc)?)),
        (Side::High, Compare::Eq | Compare::Ne | Compare::Gt | Compare::Ge) => Ok(Edge::Free),
    }
}

/// The tighter of two edges; at a tie the one that leaves its value out.
fn tighter(side: Side, first: Edge, second: Edge) -> Edge
    ensures { result ≡ tighter (lies_inside side) first second }
{
    match (first, second) {
        (Edge::Free, second) => second,
        (first, Edge::Free) => first,
        (Edge::Closed(a), Edge::Closed(b)) => {
            if lies_inside(side, &b, &a) {
                Edge::Closed(b)
            } else {
                Edge::Closed(a)
            }
        }
        (Edge::Closed(a), Edge::Beyond(b)) => {
            if lies_inside(side, &a, &b) {
                Edge::Closed(a)
            } else {
                Edge::Beyond(b)
            }
        }
        (Edge::Beyond(a), Edge::Closed(b)) => {
            if lies_inside(side, &b, &a) {
                Edge::Closed(b)
            } else {
                Edge::Beyond(a)
            }
        }
        (Edge::Beyond(a), Edge::Beyond(b)) => {
            if lies_inside(side, &b, &a) {
                Edge::Beyond(b)
            } else {
                Edge::Beyond(a)
            }
        }
    }
}

/// The tightest edge on this side that the comparisons of the column at this place give, from the
/// last one on. The error is want of memory.
fn edge_on(alloc: Global, side: Side, tests: &[Test], place: u32) -> Result<Edge, AllocError>
    ensures { IfOk result
        (λ edge. edge ≡ edge_of side (filter (λ test. test.place == place) tests.now)) }
{
    let mut edge = Edge::Free;
    let mut left = tests.len();
    while 0 < left {
        left -= 1;
        edge = with_test(alloc, side, &tests[left], place, edge)?;
    }
    Ok(edge)
}

/// The tighter of the edge that a comparison gives, where it is of the column at this place, and
/// another. The error is want of memory.
fn with_test(
    alloc: Global,
    side: Side,
    test: &Test,
    place: u32,
    edge: Edge,
) -> Result<Edge, AllocError>
    ensures { (rest : List ColumnTest)
        → edge ≡ edge_of side (filter (λ t. t.place == place) rest)
        → IfOk result (λ new. new
        ≡ edge_of side (filter (λ t. t.place == place) (test.now ∷ rest))) }
{
    if !test.is_at(place) {
        return Ok(edge);
    }
    let first = edge_by(alloc, side, test.op(), test.value())?;
    Ok(tighter(side, first, edge))
}

/// The tightest edge on this side that the comparisons of the column at a place give; Free without a
/// place. The error is want of memory.
pub(crate) fn edge_at(
    alloc: Global,
    side: Side,
    tests: &[Test],
    place: Option<u32>,
) -> Result<Edge, AllocError>
    ensures { IfOk result (λ edge. edge ≡ edge_of side (tests_at tests.now place)) }
{
    match place {
        None => Ok(Edge::Free),
        Some(place) => edge_on(alloc, side, tests, place),
    }
}
