//! A new database.
ghost use Rattle.std.specs.Prelude.{◌≡◌, ◌≤◌, [], OnOk, IfErr};
ghost use Rattle.odb_device.specs.World.{file_of};
ghost use Rattle.odb_device.specs.Images.{EachImage};
ghost use Rattle.odb_device.specs.Calls.{HasCause};
ghost use Rattle.odb_device.specs.Moments.{Runs};
ghost use Rattle.odb_transdb.specs.Header.{new_header};
ghost use Rattle.odb_transdb.specs.Steps.{PairComesLast};

use crate::header::{Header, SIDES};
use crate::transdb::FILE;
use crate::zeros::zero_range;
use crate::{Transdb, TransdbError};
use odb_device::Store;
use odb_pair::Pair;

impl Transdb {
    ghost use Rattle.odb_transdb.specs.Opened.{Holds};

    /// Makes file 0 a TRANSDB without entries, with two sides of so many KiB, from 64 to 16,384.
    /// The format is 1.
    ///
    /// It zeroes both sides, in pieces of 65,536 bytes, and syncs; the pair comes last, in three
    /// writes and three syncs. So at each moment, and after `Fault`, the one refusal, each image
    /// has the pair that one from before had, if that was as long as a pair, or its sides are all
    /// zeros already: then its pair may be any bytes, up to the end.
    pub fn create<S: Store>(store: &mut S, side_kib: u32, format: u16) -> Result<(), TransdbError>
        requires side { (64 ≤ side_kib) × (side_kib ≤ 16384) }
        requires format { format ≡ 1 }
        ensures run { Runs 0 (λ _. Unit {0}) (S.world store.old) (S.world store.new) }
        ensures moments { Runs 0 (PairComesLast (new_header side_kib)
            (file_of 0 (S.world store.old)))
            (S.world store.old) (S.world store.new) }
        ensures created { OnOk result
            (EachImage (Holds (new_header side_kib) []) (file_of 0 (S.world store.new))) }
        ensures refusal { IfErr result (λ e. e ≡ TransdbError.Fault) }
        ensures cause { HasCause 0 (S.world store.old) (S.world store.new) result }
    {
        let header = Header::new(side_kib as u16);
        zero_range(store, SIDES, header.file_size())?;
        match Pair::format(store, FILE, &header.image()) {
            Ok(_) => Ok(()),
            Err(_) => Err(TransdbError::Fault),
        }
    }
}
