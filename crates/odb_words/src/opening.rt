//! How a server was opened.
ghost use Rattle.std.specs.Prelude.{◌≡◌};
ghost use Rattle.std.specs.Coded.{coded_list};
ghost use Rattle.std.specs.FinMap.{code};
ghost use base.Fml.{ftrue};
ghost use Rattle.odb_values.specs.contracts.value.Value as cell;
ghost use Rattle.odb_model.specs.contracts.table_key.TableKey as table_key;
ghost use Rattle.odb_model.specs.State.{State};

use odb_rowsource::RowSource;
use std::marker::{Model, PhantomData};

/// The state that a server was opened with, as contracts see it. It has no bytes.
///
/// It owns nothing, so only the clause of [`OpenedRows::of`] ties it to the rows.
pub struct OpenedRows {
    marker: PhantomData<()>,
    pub ghost state: { State } by { code table_key.the_row.coded (coded_list cell.the_row.coded) },
}

impl Model for OpenedRows {
    ghost also_owns = { λ _. ftrue };
}

impl OpenedRows {
    /// The state that a source tells. The source isn't kept, and no row is read.
    pub fn of<R: RowSource>(rows: &R) -> OpenedRows
        ensures { result.state ≡ R.state rows.now }
    {
        let _ = rows;
        OpenedRows {
            marker: PhantomData,
        }
    }
}

impl Drop for OpenedRows {
    fn drop(self) {
        let Self { marker: _ } = self;
    }
}

/// How a server was opened: what the word is told once, when it is made.
#[derive(Drop)]
pub struct Opening {
    /// How many entries the history had.
    pub number: u64,
    /// The state after them.
    pub rows: OpenedRows,
}
