//! A new databank file.
ghost use Rattle.std.specs.Prelude.{◌≡◌, ℕ, ◌≤◌, OnOk, IfErr};
ghost use Rattle.odb_device.specs.World.{file_of};
ghost use Rattle.odb_device.specs.Images.{EachImage};
ghost use Rattle.odb_device.specs.Calls.{HasCause};
ghost use Rattle.odb_device.specs.Moments.{WritesWithin};
ghost use Rattle.odb_extent.specs.Opened.{content_end};
ghost use Rattle.odb_bank.specs.History.{History, WritesNoneTo};
ghost use Rattle.odb_bank.specs.Files.{StandsAt, IsNewFile};

use crate::{Bank, BankError, BankFields};
use odb_device::Store;
use odb_extent::Extents;

/// How many extents a databank file may have.
pub(crate) const MOST: u32 = 4096;

impl Bank {
    /// Makes a file of this databank without records, of one extent, with this mark. The format is
    /// 1.
    ///
    /// After Ok each image stands for every history of which no entry up to the mark writes a key
    /// of the databank. It costs 19 writes and four syncs, as `Extents::format`. A crash before it
    /// ends, and `Fault`, the only refusal, may leave any bytes in the extent and the pair.
    pub fn format<S: Store>(
        store: &mut S,
        file: u32,
        bank: u32,
        mark: u64,
        format: u16,
    ) -> Result<(), BankError>
        requires { format ≡ 1 }
        ensures run { WritesWithin file 0 (content_end 1) (S.world store.old) (S.world store.new) }
        ensures made { OnOk result
            (EachImage (IsNewFile bank mark) (file_of file (S.world store.new))) }
        ensures stands { (h : History) → mark ≤ h.count → WritesNoneTo h mark → OnOk result
            (EachImage (StandsAt bank h mark) (file_of file (S.world store.new))) }
        ensures refusal { IfErr result (λ e. e ≡ BankError.Fault) }
        ensures cause { HasCause file (S.world store.old) (S.world store.new) result }
    {
        let fields = BankFields { format, bank, mark };
        match Extents::format(store, file, MOST, &fields.image()) {
            Ok(_) => Ok(()),
            Err(_) => Err(BankError::Fault),
        }
    }
}
