//! What a definition comes to on the committed rows.
ghost use Rattle.std.specs.Prelude.{◌≡◌, ◌≢◌, ◌≤◌, [], IfOk, IfErr, IsTrue};
ghost use Rattle.odb_catalog.specs.Planning.{IsRefusal, IsPlan};
ghost use Rattle.odb_model.specs.Definitions.{IsSpelled, Planned, Plans, is_definition, planned};
ghost use Rattle.odb_model.specs.Storable.{IsStorableList};
ghost use Rattle.odb_system.specs.Defining.{IsRefusedBy, IsOfNoFile};

use odb_catalog::{CatalogError, Definition, plan_definition};
use odb_keytable::{CommittedRows, Rows};
use odb_model::{Reply, Statement, Writes};
use std::alloc::Global;

/// The writes of a CREATE TABLE or a DROP TABLE on the committed rows, or the reply that refuses it;
/// `Memory` where memory is missing.
///
/// Entries that wait are folded into the rows first; beside that it costs what
/// [`odb_catalog::plan_definition`] costs over an ordered map.
pub(crate) fn planned_writes(
    alloc: Global,
    rows: &mut CommittedRows,
    statement: &Statement,
) -> Result<Writes, Reply>
    requires definition { IsTrue (is_definition statement.now) }
    requires spelled { IsSpelled statement.now }
    ensures writes { IfOk result
        (λ writes. planned statement.now rows.old.state ≡ Plans writes) }
    ensures storable { IfOk result IsStorableList }
    ensures some { IfOk result (λ writes. writes ≢ []) }
    ensures refused { IfErr result (IsRefusedBy (planned statement.now rows.old.state)) }
    ensures state { rows.new.state ≡ rows.old.state }
    ensures fewer { rows.new.waiting ≤ rows.old.waiting }
{
    let Ok(()) = rows.settle(alloc) else {
        return Err(Reply::Memory);
    };
    match plan_in(alloc, rows.rows(), statement) {
        Ok(definition) => Ok(definition.writes),
        Err(error) => Err(refusal_of(error)),
    }
}

/// The plan of a definition on these rows. They are read from no file.
fn plan_in(alloc: Global, rows: Rows<'_>, statement: &Statement) -> Result<Definition, CatalogError>
    requires definition { IsTrue (is_definition statement.now) }
    requires spelled { IsSpelled statement.now }
    ensures planned { IfOk result (IsPlan (planned statement.now rows.entry.table.now)) }
    ensures storable { IfOk result (λ plan. IsStorableList plan.writes) }
    ensures some { IfOk result (λ plan. plan.writes ≢ []) }
    ensures refused { IfErr result (IsRefusal (planned statement.now rows.entry.table.now)) }
    ensures cause { IfErr result IsOfNoFile }
{
    let mut seen = rows;
    plan_definition(&mut seen, alloc, statement)
}

/// The reply that tells why a definition isn't planned, which no file's fault is.
fn refusal_of(error: CatalogError) -> Reply
    requires { IsOfNoFile error }
    ensures { (plan : Planned) → IsRefusal plan error → IsRefusedBy plan result }
{
    match error {
        CatalogError::NoTable => Reply::NoTable,
        CatalogError::NoBank => Reply::NoBank,
        CatalogError::NameTaken => Reply::NameTaken,
        CatalogError::NotEmpty => Reply::NotEmpty,
        CatalogError::Fixed => Reply::Fixed,
        CatalogError::NoColumn => Reply::NoColumn,
        CatalogError::ColumnCount => Reply::ColumnCount,
        CatalogError::TooLong => Reply::TooLong,
        CatalogError::NoNumberLeft => Reply::NoNumberLeft,
        CatalogError::NoMemory => Reply::Memory,
        CatalogError::RowFault { file: _ } => unreachable!(),
    }
}
