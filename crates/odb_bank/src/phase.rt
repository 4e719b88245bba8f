//! The phases of a turn.

/// How far a databank file has come in a turn.
#[derive(Clone, Copy, Debug, PartialEq, Eq)]
pub enum Phase {
    /// No turn is begun: `bodies` may come.
    Idle,
    /// The run stands behind closed gates: `gates` may come.
    Bodies,
    /// The gates of the run are open: `raise_mark` may come.
    Gates,
}
