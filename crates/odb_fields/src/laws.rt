//! The laws, as the contract of a function with nothing to do.
ghost use Rattle.std.specs.Prelude.{◌≡◌, ◌≤◌, ℕ, List, ◌++◌, length, sum, Some};
ghost use Rattle.odb_fields.specs.Fields.{Fit, fields_image, numbers_in, padded_image, fields_of};

/// Reading the fields gives the numbers that were written, whatever stands behind them. Bytes of a
/// size that has room for the fields are read as just these numbers exactly where they are their
/// image with zeros behind it.
pub fn reads_fields()
    ensures back { (widths numbers rest : List ℕ) → Fit widths numbers
        → numbers_in widths (fields_image widths numbers ++ rest) ≡ numbers }
    ensures size { (size : ℕ) (widths numbers : List ℕ) → Fit widths numbers → sum widths ≤ size
        → length (padded_image size widths numbers) ≡ size }
    ensures found { (size : ℕ) (widths numbers : List ℕ) → Fit widths numbers
        → fields_of size widths (padded_image size widths numbers) ≡ Some numbers }
    ensures only { (size : ℕ) (widths numbers bytes : List ℕ)
        → fields_of size widths bytes ≡ Some numbers
        → bytes ≡ padded_image size widths numbers }
{}
