//! What a seat knows, as the proofs keep it. No value of these types is made.
use crate::opening::OpenedRows;
use odb_model::Entry;
use std::collections::LinkedList;

/// The kinds of seats.
pub enum Kind {
    /// The seat beside the part that decides commits. It is the first, and makes the others.
    Book,
    /// The seat beside the rows that statements read.
    View,
    /// The seat of a copy of a databank, from 0, or the last one, of LOGDB.
    Copy(u64),
    /// The seat of a session, from 1.
    Pass(u64),
    /// A copy of what a seat has seen.
    Note,
    /// What is left of a Note that was taken in.
    Spent,
}

/// What a seat knows.
pub struct SeatView {
    pub kind: Kind,
    /// How many entries there were when the server was opened.
    pub number: u64,
    /// The state that it was opened with.
    pub rows: OpenedRows,
    /// The entries that it has seen, which stand behind these.
    pub list: LinkedList<Entry>,
    /// Whether it has the one pen, without which nothing is appended.
    pub pen: bool,
    /// The session whose one right it has.
    pub right: Option<u32>,
    /// With a right: the entries by that session.
    pub mine: LinkedList<Entry>,
    /// A list that it was shown, until the next load.
    pub seen: LinkedList<Entry>,
    /// The list that came with the pen, until the next load.
    pub came: LinkedList<Entry>,
    /// Its own list of that step.
    pub there: LinkedList<Entry>,
    /// Of the Book alone: how many seats were made, itself among them.
    pub made: u64,
}
