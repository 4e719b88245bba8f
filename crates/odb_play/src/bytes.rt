//! What stands behind a prefix of some bytes, and before a suffix.
ghost use Rattle.std.specs.Prelude.{◌≡◌, ℕ, List, ◌++◌, IfSome, IfNone};

/// What follows a prefix, where the bytes begin with it.
pub fn after<'a>(bytes: &'a [u8], prefix: &[u8]) -> Option<&'a [u8]>
    ensures found { IfSome result (λ rest. bytes.now ≡ prefix.now ++ rest.now) }
    ensures none { IfNone result ((rest : List ℕ) → bytes.now ≡ prefix.now ++ rest → ⊥) }
{
    bytes.strip_prefix(prefix)
}

/// What stands before a suffix, where the bytes end with it.
pub fn before<'a>(bytes: &'a [u8], suffix: &[u8]) -> Option<&'a [u8]>
    ensures found { IfSome result (λ front. bytes.now ≡ front.now ++ suffix.now) }
    ensures none { IfNone result ((front : List ℕ) → bytes.now ≡ front ++ suffix.now → ⊥) }
{
    bytes.strip_suffix(suffix)
}
