//! What has a text, and lists of it.
ghost use Rattle.std.specs.Prelude.{ℕ, List, flat_map};
ghost use Rattle.odb_lex.specs.Written.{Appends};
ghost use Rattle.odb_model.specs.Canonical.{joined};

use std::alloc::AllocError;

/// A part of a statement, as its text has it.
pub trait Put {
    /// The bytes of its text.
    ghost text: { Self → List ℕ };

    /// Writes its text behind what is written. The error is want of memory.
    fn put(&self, out: &mut String) -> Result<(), AllocError>
        ensures { Appends result out.old out.new (text self.now) };
}

/// The texts of some items, with a comma and a space between two.
pub fn put_joined<T: Put>(out: &mut String, items: &[T]) -> Result<(), AllocError>
    ensures { Appends result out.old out.new (joined T.text items.now) }
{
    for (at, item) in items.iter().enumerate() {
        if at > 0 {
            out.push_str(", ")?;
        }
        item.put(out)?;
    }
    Ok(())
}

/// The texts of some items, one behind another.
pub fn put_all<T: Put>(out: &mut String, items: &[T]) -> Result<(), AllocError>
    ensures { Appends result out.old out.new (flat_map T.text items.now) }
{
    for item in items {
        item.put(out)?;
    }
    Ok(())
}
