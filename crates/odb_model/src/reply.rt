//! The replies, and whom each names.
use crate::{CopyPhase, StateReply, ValueRows};
use odb_values::Duplicate;
use std::alloc::{AllocError, Global};

/// Whom a reply line names at its front.
#[derive(Clone, Copy, Debug, PartialEq, Eq)]
pub enum Head {
    /// A session, by the number of its line.
    Session(u32),
    /// A control line, told as `!`.
    Control,
    /// A line that is neither, told as `?`.
    Unknown,
}

/// The answer to one line of a script.
#[derive(Debug, Drop)]
pub enum Reply {
    /// START is done.
    Okay,
    /// The rows of a SELECT.
    Rows(ValueRows),
    /// How many rows an INSERT put, an UPDATE changed or a DELETE took away.
    Done(u64),
    /// COMMIT is done, and this is the number of its entry.
    Committed(u64),
    /// COMMIT is done without a write, after this many entries.
    Ended(u64),
    /// It isn't known whether COMMIT, or a definition, is done: the entry of this number may be
    /// there. The transaction is over. Until the files are opened again every COMMIT, every
    /// definition and each control line but STATE and REOPEN is refused.
    InDoubt(u64),
    /// The bodies of a turn of the copy in this file are written; its gates and its mark will reach
    /// this number.
    Bodies { file: u32, number: u64 },
    /// The gates of the turn are open; its mark will reach this number.
    Gates { file: u32, number: u64 },
    /// The turn is over, and the copy is complete to this number.
    Mark { file: u32, number: u64 },
    /// LOG is done, and this is the number of LOGDB's last entry.
    Logged(u64),
    /// TURN is done: this side of TRANSDB, 0 or 1, takes the new records, from this number on.
    Turned { side: u32, first: u64 },
    /// CLEAN is done: the other side of TRANSDB is zeros.
    Cleaned,
    /// So many records are left to be copied to the copy in this file.
    Copying { file: u32, left: u64 },
    /// All records are copied to this file, and it is complete to this number.
    Copied { file: u32, mark: u64 },
    /// DROPLOG or NEWLOG is done, and this is the number of LOGDB's first entry.
    LogFirst(u64),
    /// The files are opened again, and the history has so many entries.
    Opened(u64),
    /// What STATE tells.
    State(StateReply),
    /// A byte of the statement's text, at this place from 0, can't stand there.
    Character(u64),
    /// The quoted text whose first quote stands at this place of the statement's text has no end.
    Text(u64),
    /// The number at this place of the statement's text is above 9223372036854775808.
    Number(u64),
    /// No statement goes on with the token at this place of the statement's text.
    Syntax(u64),
    /// The statement's text ends where a statement wants more.
    End,
    /// The statement's text has more than 65,536 bytes.
    Long,
    /// The line is no line of a script: neither that of a session nor a control line of a known
    /// form.
    Line,
    /// The session's number is 0 or above 64.
    NoSession,
    /// The form of the line is not built yet.
    NotYet,
    /// The statement wants a transaction, and the session is in none.
    NoTransaction,
    /// START, or a definition, wants no transaction, and the session is in one.
    InTransaction,
    /// No table of the dictionary has the name. The statement changed nothing, as with each refusal
    /// below up to TooManyWrites.
    NoTable,
    /// No databank of the dictionary has the name. Nothing has changed, as with each refusal of a
    /// definition.
    NoBank,
    /// The name of a new object is taken, or two columns of a new table have one name.
    NameTaken,
    /// The table holds a row, and so can't be dropped.
    NotEmpty,
    /// There are sixteen copies of databanks, and there may be no more.
    NoCopyLeft,
    /// All numbers that the dictionary gives to its objects have been used.
    NoNumberLeft,
    /// No shadow of the dictionary has the name.
    NoShadow,
    /// No backup of the dictionary has the name; or the one that has it is another databank's.
    NoBackup,
    /// The object is fixed: no definition changes it.
    Fixed,
    /// The table has no column of a name that the statement names.
    NoColumn,
    /// A number stands where a text is wanted, or a text where a number is.
    KindMismatch,
    /// The statement sets a column of the primary key.
    KeyColumn,
    /// A tuple has more or fewer values than the table has columns, or a column is set twice; or a
    /// new table would have more than 15 columns, or has a column twice in its primary key.
    ColumnCount,
    /// A row with this key is there already. The statement changed nothing.
    Duplicate,
    /// A column that takes no NULL would get one.
    NullNotAllowed,
    /// A text would have more characters than its column takes; or a column of a new table would
    /// take other than 1 to 200.
    TooLong,
    /// The image of a key would have more than 256 bytes.
    KeyTooWide,
    /// The images of a key and its row would have more bytes than fit together.
    RowTooWide,
    /// The transaction would have written more than 4,096 different keys. The statement changed
    /// nothing.
    TooManyWrites,
    /// A sum lies outside the numbers of 64 bits. The statement changed nothing.
    Overflow,
    /// The entry of this number is in doubt. A transaction stands; it can't be committed, and no
    /// definition or control line but STATE is taken, before the files are opened again.
    Halted(u64),
    /// The transaction read where the history had so many entries, and those behind them are no
    /// longer all kept: the entries up to `start` aren't. So it can't be told whether it conflicts.
    /// The transaction is over.
    Aged { oldest: u64, start: u64 },
    /// The entry of this number wrote a range that the transaction had read before. The transaction
    /// is over.
    Conflict(u64),
    /// The history has as many entries as it may have. A transaction stands.
    HistoryFull,
    /// The record of the entry needs so many bytes, and the active side of TRANSDB has so many
    /// left. A transaction stands.
    Full { need: u64, room: u64 },
    /// A call on the file of this number failed, and nothing was committed. A transaction stands
    /// and may be committed again, as a definition or a control line may be asked for again. Of LOG,
    /// COPY, CLEAN, DROPLOG and BODIES a part may be done.
    Fault(u32),
    /// The other side of TRANSDB isn't clean, so it can't be taken into use.
    NotClean,
    /// The other side of TRANSDB holds entries up to `last`, and those above `mark` may still be
    /// wanted by a copy or by LOGDB.
    Held { mark: u64, last: u64 },
    /// The record of the next entry needs so many bytes, and LOGDB has so many left. The entries
    /// before it are added.
    LogFull { need: u64, room: u64 },
    /// LOGDB's entries above this number may still be wanted by a copy.
    Needed(u64),
    /// The entries that the copy lacks, those above its mark, are held from a later number on.
    NotHeld { mark: u64, first: u64 },
    /// The copy in this file, or LOGDB where the file is 1, is at this, which the step doesn't take.
    Phase { file: u32, name: CopyPhase },
    /// The dictionary names no copy in this file; or the copy isn't a new one, and COPY wants one.
    NoFile(u32),
    /// The file has too few slots for the records of the turn. Nothing has changed.
    Limit(u32),
    /// Memory ran out. Nothing has changed.
    Memory,
}

impl Duplicate for Reply {
    fn copy(&self, alloc: Global) -> Result<Reply, AllocError> {
        match self {
            Reply::Okay => Ok(Reply::Okay),
            Reply::Rows(rows) => Ok(Reply::Rows(rows.copy(alloc)?)),
            Reply::Done(count) => Ok(Reply::Done(*count)),
            Reply::Committed(number) => Ok(Reply::Committed(*number)),
            Reply::Ended(number) => Ok(Reply::Ended(*number)),
            Reply::InDoubt(number) => Ok(Reply::InDoubt(*number)),
            Reply::Bodies { file, number } => Ok(Reply::Bodies {
                file: *file,
                number: *number,
            }),
            Reply::Gates { file, number } => Ok(Reply::Gates {
                file: *file,
                number: *number,
            }),
            Reply::Mark { file, number } => Ok(Reply::Mark {
                file: *file,
                number: *number,
            }),
            Reply::Logged(number) => Ok(Reply::Logged(*number)),
            Reply::Turned { side, first } => Ok(Reply::Turned {
                side: *side,
                first: *first,
            }),
            Reply::Cleaned => Ok(Reply::Cleaned),
            Reply::Copying { file, left } => Ok(Reply::Copying {
                file: *file,
                left: *left,
            }),
            Reply::Copied { file, mark } => Ok(Reply::Copied {
                file: *file,
                mark: *mark,
            }),
            Reply::LogFirst(number) => Ok(Reply::LogFirst(*number)),
            Reply::Opened(number) => Ok(Reply::Opened(*number)),
            Reply::State(state) => Ok(Reply::State(state.copy(alloc)?)),
            Reply::Character(at) => Ok(Reply::Character(*at)),
            Reply::Text(at) => Ok(Reply::Text(*at)),
            Reply::Number(at) => Ok(Reply::Number(*at)),
            Reply::Syntax(at) => Ok(Reply::Syntax(*at)),
            Reply::End => Ok(Reply::End),
            Reply::Long => Ok(Reply::Long),
            Reply::Line => Ok(Reply::Line),
            Reply::NoSession => Ok(Reply::NoSession),
            Reply::NotYet => Ok(Reply::NotYet),
            Reply::NoTransaction => Ok(Reply::NoTransaction),
            Reply::InTransaction => Ok(Reply::InTransaction),
            Reply::NoTable => Ok(Reply::NoTable),
            Reply::NoBank => Ok(Reply::NoBank),
            Reply::NameTaken => Ok(Reply::NameTaken),
            Reply::NotEmpty => Ok(Reply::NotEmpty),
            Reply::NoCopyLeft => Ok(Reply::NoCopyLeft),
            Reply::NoNumberLeft => Ok(Reply::NoNumberLeft),
            Reply::NoShadow => Ok(Reply::NoShadow),
            Reply::NoBackup => Ok(Reply::NoBackup),
            Reply::Fixed => Ok(Reply::Fixed),
            Reply::NoColumn => Ok(Reply::NoColumn),
            Reply::KindMismatch => Ok(Reply::KindMismatch),
            Reply::KeyColumn => Ok(Reply::KeyColumn),
            Reply::ColumnCount => Ok(Reply::ColumnCount),
            Reply::Duplicate => Ok(Reply::Duplicate),
            Reply::NullNotAllowed => Ok(Reply::NullNotAllowed),
            Reply::TooLong => Ok(Reply::TooLong),
            Reply::KeyTooWide => Ok(Reply::KeyTooWide),
            Reply::RowTooWide => Ok(Reply::RowTooWide),
            Reply::TooManyWrites => Ok(Reply::TooManyWrites),
            Reply::Overflow => Ok(Reply::Overflow),
            Reply::Halted(number) => Ok(Reply::Halted(*number)),
            Reply::Aged { oldest, start } => Ok(Reply::Aged {
                oldest: *oldest,
                start: *start,
            }),
            Reply::Conflict(number) => Ok(Reply::Conflict(*number)),
            Reply::HistoryFull => Ok(Reply::HistoryFull),
            Reply::Full { need, room } => Ok(Reply::Full {
                need: *need,
                room: *room,
            }),
            Reply::Fault(file) => Ok(Reply::Fault(*file)),
            Reply::NotClean => Ok(Reply::NotClean),
            Reply::Held { mark, last } => Ok(Reply::Held {
                mark: *mark,
                last: *last,
            }),
            Reply::LogFull { need, room } => Ok(Reply::LogFull {
                need: *need,
                room: *room,
            }),
            Reply::Needed(mark) => Ok(Reply::Needed(*mark)),
            Reply::NotHeld { mark, first } => Ok(Reply::NotHeld {
                mark: *mark,
                first: *first,
            }),
            Reply::Phase { file, name } => Ok(Reply::Phase {
                file: *file,
                name: *name,
            }),
            Reply::NoFile(file) => Ok(Reply::NoFile(*file)),
            Reply::Limit(file) => Ok(Reply::Limit(*file)),
            Reply::Memory => Ok(Reply::Memory),
        }
    }
}
