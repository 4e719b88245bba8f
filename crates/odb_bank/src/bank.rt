//! A databank file in memory.
ghost use Rattle.std.specs.Prelude.{◌≡◌};

use crate::Phase;
use crate::tree::Tree;
use odb_extent::Extents;
use std::marker::Model;

/// One file of a databank: its records, up to a mark in the history of commits, and the turn by
/// which it takes up further entries.
///
/// A turn is `bodies`, `gates`, `raise_mark`. At each moment of it a crash leaves a file that stands
/// for the history, complete to the mark that the file holds.
///
/// Memory has of each slot that isn't free the key, once, the stamp and whether there is a row, and
/// not the row: a node of 80 bytes a record, for which the allocator takes some more, and the key's
/// values. Of a free slot it has nothing. Contracts see the value as a `BankState`, and say by
/// `Stands` what each image of the file is.
#[derive(Debug, Drop)]
pub struct Bank {
    /// The number of its file.
    pub(crate) file: u32,
    pub(crate) extents: Extents,
    /// The number of its databank.
    pub(crate) bank: u32,
    /// Up to which entry the file is complete.
    pub(crate) mark: u64,
    /// The last entry of the run; between turns the mark.
    pub(crate) reached: u64,
    pub(crate) phase: Phase,
    /// The slots of the run.
    pub(crate) run: Vec<u32>,
    /// What is kept of each slot that isn't free, in the order of the keys.
    pub(crate) slots: Tree,
}

impl Model for Bank {
    ghost use Rattle.odb_bank.specs.Bank.{BankState, IsSound};

    ghost Value = { BankState };

    ghost view = { λ b. record {
      extents = b.extents;
      bank = b.bank;
      mark = b.mark;
      reached = b.reached;
      phase = b.phase;
      run = b.run.items;
      slots = b.slots;
    } };

    ghost invariant = { λ b. IsSound b.file (view b) };
}

impl Bank {
    ghost use Rattle.odb_bank.specs.Bank.{file_number};

    /// The mark kept: up to which entry the file is complete.
    pub fn mark(&self) -> u64
        ensures { result ≡ self.now.mark }
    {
        self.mark
    }

    /// The number that the turn reaches whose run stands in the file; between turns the mark.
    pub fn reached(&self) -> u64
        ensures { result ≡ self.now.reached }
    {
        self.reached
    }

    /// The number of its databank.
    pub fn bank(&self) -> u32
        ensures { result ≡ self.now.bank }
    {
        self.bank
    }

    /// The number of its file.
    pub fn file(&self) -> u32
        ensures { result ≡ file_number self.now }
    {
        self.file
    }

    /// How far the file has come in a turn.
    pub fn phase(&self) -> Phase
        ensures { result ≡ self.now.phase }
    {
        self.phase
    }
}
