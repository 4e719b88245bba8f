//! The three truth values.

/// Whether a predicate holds of a row, by the three-valued logic of ISO/IEC 9075.
#[derive(Clone, Copy, Debug, PartialEq, Eq)]
pub enum Truth {
    True,
    False,
    /// A comparison with NULL is neither.
    Unknown,
}
