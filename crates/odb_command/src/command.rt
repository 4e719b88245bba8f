//! The commands of the program.
use crate::choice::Choices;

/// What the words ask for.
#[derive(Debug, Drop)]
pub enum Command {
    /// A database is made.
    Create {
        /// How large a side of TRANSDB is, in KiB: 64 to 16,384.
        side_kib: u32,
    },
    /// A script is played.
    Play {
        /// The files that are taken instead of masters.
        choices: Choices,
    },
    /// What the database holds is told.
    Check {
        /// Whether each row is told, and not only how many there are.
        with_rows: bool,
        /// The files that are taken instead of masters.
        choices: Choices,
    },
    /// A script is made and run.
    Generate {
        /// How many rounds the script has: 1 to 100,000.
        rounds: u32,
    },
}
