//! Sums of values.
ghost use Rattle.std.specs.Prelude.{◌≡◌, ◌+ℤ◌, ◌||◌, not, List, [], ◌∷◌, ◌++◌, unwrap_or, IfOk};
ghost use Rattle.std.specs.Option.{option_copied};
ghost use Rattle.odb_values.specs.declared.value.Value.{Value as Cell};
ghost use Rattle.odb_values.specs.Value.{is_null};
ghost use Rattle.odb_model.specs.Sums.{number_of, total_of};
ghost use Rattle.odb_exec.specs.Total.{IsTotalOf};

use odb_values::Value;
use std::alloc::AllocError;

/// A sum of values as far as it has come, in 128 bits, and whether one of them wasn't Null.
#[derive(Clone, Copy, Debug, PartialEq, Eq)]
pub struct Total {
    pub sum: i128,
    pub some: bool,
}

impl Total {
    /// The sum of no value.
    pub fn none() -> Total
        ensures { IsTotalOf [] result }
    {
        Total {
            sum: 0,
            some: false,
        }
    }

    /// With one value more; None stands for Null, which adds nothing.
    ///
    /// As many numbers of 64 bits as would leave 128 bits fit into no memory, so it is wanting there.
    pub fn with(self, value: Option<&Value>) -> Result<Total, AllocError>
        ensures { (values : List Cell) → IsTotalOf values self → IfOk result
            (IsTotalOf (values ++ unwrap_or (option_copied value.entry) Cell.Null ∷ [])) }
    {
        let sum = added(self.sum, number(value))?;
        Ok(Total {
            sum,
            some: is_some_with(self.some, value),
        })
    }

    /// The sum as a value: Null where each value was Null or there was none; None where it lies
    /// outside the numbers of 64 bits.
    pub fn into_value(self) -> Option<Value>
        ensures { (values : List Cell) → IsTotalOf values self → result ≡ total_of values }
    {
        if !self.some {
            return Some(Value::Null);
        }
        match i64::try_from(self.sum) {
            Ok(number) => Some(Value::Int(number)),
            Err(_) => None,
        }
    }
}

/// The number of a value; Null and a text add nothing.
fn number(value: Option<&Value>) -> i64
    ensures { result ≡ number_of (unwrap_or (option_copied value.entry) Cell.Null) }
{
    match value {
        Some(Value::Int(number)) => *number,
        _ => 0,
    }
}

/// Whether a value is Null; None stands for Null.
fn is_null(value: Option<&Value>) -> bool
    ensures { result ≡ is_null (unwrap_or (option_copied value.entry) Cell.Null) }
{
    match value {
        Some(value) => value.is_null(),
        None => true,
    }
}

/// The sum of two numbers. Where it doesn't fit into 128 bits memory is wanting, since none holds as
/// many numbers.
fn added(sum: i128, number: i64) -> Result<i128, AllocError>
    ensures { IfOk result (λ more. more ≡ sum +ℤ number) }
{
    match sum.checked_add(number as i128) {
        Some(more) => Ok(more),
        None => Err(AllocError),
    }
}

/// Whether one of some values wasn't Null, or this one isn't.
fn is_some_with(some: bool, value: Option<&Value>) -> bool
    ensures { result
        ≡ (some || not (is_null (unwrap_or (option_copied value.entry) Cell.Null))) }
{
    some || !is_null(value)
}
