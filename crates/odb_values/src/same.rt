//! Equality as contracts mean it.
ghost use Rattle.std.specs.Prelude.{◌≡◌, ◌↔◌, IsTrue};

/// Equality as contracts mean it.
///
/// `==` answers what an `impl` of `PartialEq` says; `same` answers whether two values are one.
pub trait Same {
    /// Whether the two values are equal.
    fn same(&self, other: &Self) -> bool
        ensures { IsTrue result ↔ (self.now ≡ other.now) };
}

/// Whether two lists have equal items at equal places.
pub(crate) fn same_items<T: Same>(a: &[T], b: &[T]) -> bool
    ensures { IsTrue result ↔ (a.now ≡ b.now) }
{
    match a {
        [] => match b {
            [] => true,
            [_, ..] => false,
        },
        [x, xs @ ..] => match b {
            [] => false,
            [y, ys @ ..] => x.same(y) && same_items(xs, ys),
        },
    }
}
