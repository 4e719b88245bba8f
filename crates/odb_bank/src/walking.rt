//! Keys of a databank file, in order.
ghost use Rattle.std.specs.Prelude.{ℕ};
ghost use Rattle.std.specs.Option.{option_copied};
ghost use Rattle.odb_bank.specs.Known.{Known};

use crate::Bank;
use odb_values::{Key, Range};

impl Bank {
    ghost use Rattle.odb_bank.specs.Bank.{AreKnownBy};
    ghost use Rattle.odb_bank.specs.Reading.{rows_in, IsNextKey};

    /// The least key of a range that has a row and stands behind another key, where one is given.
    /// From a faulted `gates` to its Ok it answers as before the run.
    ///
    /// A search in what memory keeps, with one more for each key on the way that has no row: one
    /// that is deleted, until the turn that closes its record; no call of the store and no memory.
    pub fn next_key<'a>(&'a self, range: &Range, after: Option<&Key>) -> Option<&'a Key>
        ensures { (known : ℕ → Known) → AreKnownBy self.now.slots known
            → IsNextKey (rows_in self.now known) range.now (option_copied after.entry)
            (option_copied result) }
    {
        // Asked for what its contract says: the keys don't fall.
        self.slots.ascends();
        match self.slots.first_reached(&self.slots, range, after) {
            None => None,
            Some(it) => Some(&it.at.key),
        }
    }
}
