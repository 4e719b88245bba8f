//! An order of ranges, by which one that was read before is found.
ghost use Rattle.std.specs.Prelude.{◌≡◌};
ghost use Rattle.odb_txn.specs.RangeOrder.{edge_cmp, range_cmp};

use odb_values::{Edge, Range, cmp_value, cmp_values};
use std::cmp::Ordering;

/// How two ranges stand: by table, then by prefix, then by the low edge, then by the high edge.
/// Only equal ranges tie. It takes no memory.
pub(crate) fn cmp_range(a: &Range, b: &Range) -> Ordering
    ensures { result ≡ range_cmp a.now b.now }
{
    match a.table.cmp(&b.table) {
        Ordering::Equal => cmp_inside(a, b),
        other => other,
    }
}

/// How two ranges of one table stand.
fn cmp_inside(a: &Range, b: &Range) -> Ordering
    requires { a.now.table ≡ b.now.table }
    ensures { result ≡ range_cmp a.now b.now }
{
    match cmp_values(a.prefix.as_slice(), b.prefix.as_slice()) {
        Ordering::Equal => match cmp_edge(&a.low, &b.low) {
            Ordering::Equal => cmp_edge(&a.high, &b.high),
            other => other,
        },
        other => other,
    }
}

/// How two edges stand: Free before Closed before Beyond, and those of one kind by their bounds.
fn cmp_edge(a: &Edge, b: &Edge) -> Ordering
    ensures { result ≡ edge_cmp a.now b.now }
{
    match (a, b) {
        (Edge::Free, Edge::Free) => Ordering::Equal,
        (Edge::Free, Edge::Closed(_) | Edge::Beyond(_)) => Ordering::Less,
        (Edge::Closed(_) | Edge::Beyond(_), Edge::Free) => Ordering::Greater,
        (Edge::Closed(a), Edge::Closed(b)) => cmp_value(a, b),
        (Edge::Closed(_), Edge::Beyond(_)) => Ordering::Less,
        (Edge::Beyond(_), Edge::Closed(_)) => Ordering::Greater,
        (Edge::Beyond(a), Edge::Beyond(b)) => cmp_value(a, b),
    }
}
