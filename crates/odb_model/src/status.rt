//! How the program ends: the number and the text of each status.
ghost use Rattle.std.specs.Prelude.{◌≡◌, string_bytes, IfOk};
ghost use Rattle.odb_model.specs.Status.{number_of, text_of};

use std::alloc::{AllocError, Global};

/// How the program ended.
#[derive(Clone, Copy, Debug, PartialEq, Eq)]
pub enum Status {
    /// The command ended, and its input was read to the end.
    Done,
    /// The words of the command line are not those of a command.
    Usage,
    /// The input could not be read on.
    ReadFault,
    /// The output could not be written on.
    WriteFault,
    /// A call on the file of this number failed while the database was made or opened.
    FileFault { file: u32 },
    /// There is no database in the current folder.
    NoDatabase,
    /// There is a database in the current folder already.
    Exists,
    /// A file isn't in order; `at` is the byte at which that shows.
    Damaged { file: u32, at: u64 },
    /// The entries of the history that a databank lacks, those above its mark, are held from a
    /// later number on.
    NotHeld { bank: u32, mark: u64, first: u64 },
    /// The input has more than 2^32 bytes.
    InputTooLong,
    /// Memory ran out.
    NoMemory,
    /// A databank is to be read from a file in which the dictionary names no copy of it.
    NotACopy { bank: u32, file: u32 },
    /// A databank is to be read from a copy of it that is new, to which not all was copied.
    Unfinished { file: u32 },
}

impl Status {
    /// The number that the process ends with.
    pub fn number(self) -> u8
        ensures { result ≡ number_of self }
    {
        match self {
            Status::Done => 0,
            Status::Usage => 2,
            Status::ReadFault => 3,
            Status::WriteFault => 4,
            Status::FileFault { .. } => 5,
            Status::NoDatabase => 6,
            Status::Exists => 7,
            Status::Damaged { .. } => 8,
            Status::NotHeld { .. } => 9,
            Status::InputTooLong => 10,
            Status::NoMemory => 11,
            Status::NotACopy { .. } => 12,
            Status::Unfinished { .. } => 13,
        }
    }

    /// The text for standard error, without an end of line; empty for `Done`. The error is want of
    /// memory.
    pub fn text(self, alloc: Global) -> Result<String, AllocError>
        ensures { IfOk result (λ text. string_bytes text ≡ text_of self) }
    {
        match self {
            Status::Done => Ok(String::new(alloc)),
            Status::Usage => format!(in alloc; "optsql: usage"),
            Status::ReadFault => format!(in alloc; "optsql: read fault"),
            Status::WriteFault => format!(in alloc; "optsql: write fault"),
            Status::FileFault { file } => format!(in alloc; "optsql: fault: file {file}"),
            Status::NoDatabase => format!(in alloc; "optsql: no database"),
            Status::Exists => format!(in alloc; "optsql: database exists"),
            Status::Damaged { file, at } => {
                format!(in alloc; "optsql: damaged: file {file} at {at}")
            }
            Status::NotHeld { bank, mark, first } => {
                format!(in alloc; "optsql: not held: bank {bank} mark {mark} first {first}")
            }
            Status::InputTooLong => format!(in alloc; "optsql: input too long"),
            Status::NoMemory => format!(in alloc; "optsql: no memory"),
            Status::NotACopy { bank, file } => {
                format!(in alloc; "optsql: not a copy: bank {bank} file {file}")
            }
            Status::Unfinished { file } => format!(in alloc; "optsql: unfinished: file {file}"),
        }
    }
}
