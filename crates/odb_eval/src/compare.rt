//! Comparisons.
ghost use Rattle.std.specs.Prelude.{◌≡◌};
ghost use Rattle.odb_model.specs.Truth.{truth_if, holds, compared, not_of};

use odb_model::{Compare, Truth};
use odb_values::{Value, cmp_value};
use std::cmp::Ordering;

/// Whether a comparison holds of two values in this order.
fn holds(op: Compare, order: Ordering) -> bool
    ensures { result ≡ holds op order }
{
    match op {
        Compare::Eq => order == Ordering::Equal,
        Compare::Ne => order != Ordering::Equal,
        Compare::Lt => order == Ordering::Less,
        Compare::Le => order != Ordering::Greater,
        Compare::Gt => order == Ordering::Greater,
        Compare::Ge => order != Ordering::Less,
    }
}

/// True or False.
pub fn truth_if(holds: bool) -> Truth
    ensures { result ≡ truth_if holds }
{
    if holds { Truth::True } else { Truth::False }
}

/// True where the truth is False, and the other way round; Unknown stays.
pub fn not_of(truth: Truth) -> Truth
    ensures { result ≡ not_of truth }
{
    match truth {
        Truth::True => Truth::False,
        Truth::False => Truth::True,
        Truth::Unknown => Truth::Unknown,
    }
}

/// The truth of a comparison: Unknown where a side is Null.
pub fn compared(op: Compare, left: &Value, right: &Value) -> Truth
    ensures { result ≡ compared op left.now right.now }
{
    if left.is_null() || right.is_null() {
        return Truth::Unknown;
    }
    truth_if(holds(op, cmp_value(left, right)))
}
