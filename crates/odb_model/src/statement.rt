//! Statements and their parts.
use crate::{Operand, Predicate};
use odb_values::{Duplicate, Frozen, Text, Values};
use std::alloc::{AllocError, Global};

/// Names of columns, in capitals.
pub type Names = Frozen<Text>;

/// Rows of values: the tuples of an INSERT, or what a SELECT tells.
pub type ValueRows = Frozen<Values>;

/// What follows the first operand of a sum.
pub type Terms = Frozen<Term>;

/// What an UPDATE sets.
pub type Assignments = Frozen<Assignment>;

/// The columns that a CREATE TABLE asks for.
pub type ColumnTexts = Frozen<ColumnText>;

/// An operand with the `+` or `-` before it.
#[derive(Debug, Drop)]
pub struct Term {
    pub minus: bool,
    pub operand: Operand,
}

/// An operand, and what is added to it or taken from it, from left to right.
#[derive(Debug, Drop)]
pub struct Expression {
    pub first: Operand,
    pub rest: Terms,
}

/// What a SELECT gives of the rows.
#[derive(Debug, Drop)]
pub enum What {
    /// All values of each row, in column order.
    All,
    /// The values of these columns.
    Columns(Names),
    /// How many rows there are.
    Count,
    /// The sum of this column's values.
    Sum(Text),
}

/// A column and the value that it is set to.
#[derive(Debug, Drop)]
pub struct Assignment {
    pub column: Text,
    pub value: Expression,
}

/// A column as a CREATE TABLE asks for it.
#[derive(Debug, Drop)]
pub struct ColumnText {
    pub name: Text,
    /// The most characters of a VARCHAR as the text says, below 2^63; None for INTEGER.
    pub length: Option<u64>,
    /// Whether the text says NOT NULL.
    pub not_null: bool,
}

/// One statement of a session. Names are in capitals.
#[derive(Debug, Drop)]
pub enum Statement {
    /// Begins a transaction.
    Start,
    /// Validates the reads of the transaction and puts its writes into the history as one entry, or
    /// refuses it.
    Commit,
    /// Ends the transaction without a trace.
    Rollback,
    /// The rows of a table at which the filter is True, in key order.
    Select {
        what: What,
        table: Text,
        filter: Option<Predicate>,
    },
    /// New rows of a table, each tuple with a value for each column in column order.
    Insert {
        table: Text,
        tuples: ValueRows,
    },
    /// New values for the rows at which the filter is True.
    Update {
        table: Text,
        sets: Assignments,
        filter: Option<Predicate>,
    },
    /// The rows at which the filter is True are deleted.
    Delete {
        table: Text,
        filter: Option<Predicate>,
    },
    /// A databank: a set of tables in a file of its own.
    CreateDatabank {
        name: Text,
    },
    /// A table in a databank, with its columns and the columns of its primary key.
    CreateTable {
        name: Text,
        columns: ColumnTexts,
        key: Names,
        bank: Text,
    },
    /// A table is taken away.
    DropTable {
        name: Text,
    },
    /// A shadow of a databank: a copy on another disk that is kept up to date.
    CreateShadow {
        name: Text,
        bank: Text,
    },
    /// A shadow follows its databank again.
    ShadowOnline {
        name: Text,
    },
    /// A shadow rests.
    ShadowOffline {
        name: Text,
    },
    /// A shadow becomes its databank's master file.
    ShadowMaster {
        name: Text,
    },
    /// A shadow is taken away.
    DropShadow {
        name: Text,
    },
    /// A backup of a databank: a copy that stays as it is.
    CreateBackup {
        name: Text,
        bank: Text,
    },
    /// A backup is complete.
    BackupReady {
        name: Text,
    },
    /// A backup is taken away.
    DropBackup {
        name: Text,
    },
    /// A databank goes on from a backup.
    Restore {
        bank: Text,
        name: Text,
    },
}

impl Duplicate for Term {
    fn copy(&self, alloc: Global) -> Result<Term, AllocError> {
        Ok(Term {
            minus: self.minus,
            operand: self.operand.copy(alloc)?,
        })
    }
}

impl Duplicate for Expression {
    fn copy(&self, alloc: Global) -> Result<Expression, AllocError> {
        Ok(Expression {
            first: self.first.copy(alloc)?,
            rest: self.rest.copy(alloc)?,
        })
    }
}

impl Duplicate for What {
    fn copy(&self, alloc: Global) -> Result<What, AllocError> {
        match self {
            What::All => Ok(What::All),
            What::Columns(names) => Ok(What::Columns(names.copy(alloc)?)),
            What::Count => Ok(What::Count),
            What::Sum(name) => Ok(What::Sum(name.copy(alloc)?)),
        }
    }
}

impl Duplicate for Assignment {
    fn copy(&self, alloc: Global) -> Result<Assignment, AllocError> {
        Ok(Assignment {
            column: self.column.copy(alloc)?,
            value: self.value.copy(alloc)?,
        })
    }
}

impl Duplicate for ColumnText {
    fn copy(&self, alloc: Global) -> Result<ColumnText, AllocError> {
        Ok(ColumnText {
            name: self.name.copy(alloc)?,
            length: self.length,
            not_null: self.not_null,
        })
    }
}

impl Duplicate for Statement {
    fn copy(&self, alloc: Global) -> Result<Statement, AllocError> {
        match self {
            Statement::Start => Ok(Statement::Start),
            Statement::Commit => Ok(Statement::Commit),
            Statement::Rollback => Ok(Statement::Rollback),
            Statement::Select {
                what,
                table,
                filter,
            } => Ok(Statement::Select {
                what: what.copy(alloc)?,
                table: table.copy(alloc)?,
                filter: filter.copy(alloc)?,
            }),
            Statement::Insert { table, tuples } => Ok(Statement::Insert {
                table: table.copy(alloc)?,
                tuples: tuples.copy(alloc)?,
            }),
            Statement::Update {
                table,
                sets,
                filter,
            } => Ok(Statement::Update {
                table: table.copy(alloc)?,
                sets: sets.copy(alloc)?,
                filter: filter.copy(alloc)?,
            }),
            Statement::Delete { table, filter } => Ok(Statement::Delete {
                table: table.copy(alloc)?,
                filter: filter.copy(alloc)?,
            }),
            Statement::CreateDatabank { name } => Ok(Statement::CreateDatabank {
                name: name.copy(alloc)?,
            }),
            Statement::CreateTable {
                name,
                columns,
                key,
                bank,
            } => Ok(Statement::CreateTable {
                name: name.copy(alloc)?,
                columns: columns.copy(alloc)?,
                key: key.copy(alloc)?,
                bank: bank.copy(alloc)?,
            }),
            Statement::DropTable { name } => Ok(Statement::DropTable {
                name: name.copy(alloc)?,
            }),
            Statement::CreateShadow { name, bank } => Ok(Statement::CreateShadow {
                name: name.copy(alloc)?,
                bank: bank.copy(alloc)?,
            }),
            Statement::ShadowOnline { name } => Ok(Statement::ShadowOnline {
                name: name.copy(alloc)?,
            }),
            Statement::ShadowOffline { name } => Ok(Statement::ShadowOffline {
                name: name.copy(alloc)?,
            }),
            Statement::ShadowMaster { name } => Ok(Statement::ShadowMaster {
                name: name.copy(alloc)?,
            }),
            Statement::DropShadow { name } => Ok(Statement::DropShadow {
                name: name.copy(alloc)?,
            }),
            Statement::CreateBackup { name, bank } => Ok(Statement::CreateBackup {
                name: name.copy(alloc)?,
                bank: bank.copy(alloc)?,
            }),
            Statement::BackupReady { name } => Ok(Statement::BackupReady {
                name: name.copy(alloc)?,
            }),
            Statement::DropBackup { name } => Ok(Statement::DropBackup {
                name: name.copy(alloc)?,
            }),
            Statement::Restore { bank, name } => Ok(Statement::Restore {
                bank: bank.copy(alloc)?,
                name: name.copy(alloc)?,
            }),
        }
    }
}
