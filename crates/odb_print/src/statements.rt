//! The text of a statement.
ghost use Rattle.std.specs.Prelude.{◌≡◌, ◌++◌, IfOk};
ghost use Rattle.odb_lex.specs.Written.{Appends};
ghost use Rattle.odb_model.specs.Canonical.{what_text, filter_text, statement_text};

use crate::PrintError;
use crate::predicates::put_predicate;
use crate::put::{Put, put_joined};
use odb_model::{Assignments, ColumnTexts, Names, Predicate, Statement, ValueRows, What};
use odb_values::{Bytes, Frozen, Text};
use std::alloc::{AllocError, Global};

/// The canonical text of a statement, in one buffer that grows to its length.
///
/// It has one space between two tokens, but none after `(`, before `)`, before `,`, after the `-`
/// of a literal, or between COUNT, SUM or VARCHAR and `(`; parentheses only where a predicate needs
/// them; and no `;`. The statement is only read. The error is want of memory alone.
pub fn print_statement(alloc: Global, statement: &Statement) -> Result<Bytes, PrintError>
    ensures text { IfOk result (λ bytes. bytes ≡ statement_text statement.now) }
{
    let mut out = String::new(alloc);
    put_statement(alloc, &mut out, statement)?;
    Ok(Frozen::from_vec(out.into_bytes()))
}

fn put_statement(alloc: Global, out: &mut String, statement: &Statement) -> Result<(), AllocError>
    ensures { Appends result out.old out.new (statement_text statement.now) }
{
    match statement {
        Statement::Start => out.push_str("START"),
        Statement::Commit => out.push_str("COMMIT"),
        Statement::Rollback => out.push_str("ROLLBACK"),
        Statement::Select {
            what,
            table,
            filter,
        } => put_select(alloc, out, what, table, filter),
        Statement::Insert { table, tuples } => put_insert(out, table, tuples),
        Statement::Update {
            table,
            sets,
            filter,
        } => put_update(alloc, out, table, sets, filter),
        Statement::Delete { table, filter } => put_delete(alloc, out, table, filter),
        Statement::CreateDatabank { name } => put_last(out, "CREATE DATABANK ", name),
        Statement::CreateTable {
            name,
            columns,
            key,
            bank,
        } => put_table(out, name, columns, key, bank),
        Statement::DropTable { name } => put_last(out, "DROP TABLE ", name),
        Statement::CreateShadow { name, bank } => pair(out, "CREATE SHADOW ", name, " FOR ", bank),
        Statement::ShadowOnline { name } => put_one(out, "SET SHADOW ", name, " ONLINE"),
        Statement::ShadowOffline { name } => put_one(out, "SET SHADOW ", name, " OFFLINE"),
        Statement::ShadowMaster { name } => put_one(out, "ALTER SHADOW ", name, " TO MASTER"),
        Statement::DropShadow { name } => put_last(out, "DROP SHADOW ", name),
        Statement::CreateBackup { name, bank } => pair(out, "CREATE BACKUP ", name, " OF ", bank),
        Statement::BackupReady { name } => put_one(out, "SET BACKUP ", name, " READY"),
        Statement::DropBackup { name } => put_last(out, "DROP BACKUP ", name),
        Statement::Restore { bank, name } => pair(out, "RESTORE ", bank, " FROM ", name),
    }
}

fn put_select(
    alloc: Global,
    out: &mut String,
    what: &What,
    table: &Text,
    filter: &Option<Predicate>,
) -> Result<(), AllocError>
    ensures { Appends result out.old out.new
        (statement_text (Statement.Select what.now table.now filter.now)) }
{
    out.push_str("SELECT ")?;
    put_what(out, what)?;
    put_last(out, " FROM ", table)?;
    put_filter(alloc, out, filter)
}

fn put_what(out: &mut String, what: &What) -> Result<(), AllocError>
    ensures { Appends result out.old out.new (what_text what.now) }
{
    match what {
        What::All => out.push_str("*"),
        What::Columns(names) => put_joined(out, names.as_slice()),
        What::Count => out.push_str("COUNT(*)"),
        What::Sum(name) => put_one(out, "SUM(", name, ")"),
    }
}

fn put_insert(out: &mut String, table: &Text, tuples: &ValueRows) -> Result<(), AllocError>
    ensures { Appends result out.old out.new
        (statement_text (Statement.Insert table.now tuples.now)) }
{
    put_one(out, "INSERT INTO ", table, " VALUES ")?;
    put_joined(out, tuples.as_slice())
}

fn put_update(
    alloc: Global,
    out: &mut String,
    table: &Text,
    sets: &Assignments,
    filter: &Option<Predicate>,
) -> Result<(), AllocError>
    ensures { Appends result out.old out.new
        (statement_text (Statement.Update table.now sets.now filter.now)) }
{
    put_one(out, "UPDATE ", table, " SET ")?;
    put_joined(out, sets.as_slice())?;
    put_filter(alloc, out, filter)
}

fn put_delete(
    alloc: Global,
    out: &mut String,
    table: &Text,
    filter: &Option<Predicate>,
) -> Result<(), AllocError>
    ensures { Appends result out.old out.new
        (statement_text (Statement.Delete table.now filter.now)) }
{
    put_last(out, "DELETE FROM ", table)?;
    put_filter(alloc, out, filter)
}

fn put_table(
    out: &mut String,
    name: &Text,
    columns: &ColumnTexts,
    key: &Names,
    bank: &Text,
) -> Result<(), AllocError>
    ensures { Appends result out.old out.new
        (statement_text (Statement.CreateTable name.now columns.now key.now bank.now)) }
{
    put_one(out, "CREATE TABLE ", name, " (")?;
    put_joined(out, columns.as_slice())?;
    out.push_str(", PRIMARY KEY (")?;
    put_joined(out, key.as_slice())?;
    put_last(out, ")) IN ", bank)
}

/// What a WHERE says, if there is one.
fn put_filter(alloc: Global, out: &mut String, filter: &Option<Predicate>) -> Result<(), AllocError>
    ensures { Appends result out.old out.new (filter_text filter.now) }
{
    match filter {
        None => Ok(()),
        Some(predicate) => {
            out.push_str(" WHERE ")?;
            put_predicate(alloc, out, predicate)
        }
    }
}

/// Words and a name.
fn put_last(out: &mut String, before: &str, name: &Text) -> Result<(), AllocError>
    ensures { Appends result out.old out.new (before.now ++ name.now) }
{
    out.push_str(before)?;
    name.put(out)
}

/// A name between words.
fn put_one(out: &mut String, before: &str, name: &Text, after: &str) -> Result<(), AllocError>
    ensures { Appends result out.old out.new (before.now ++ name.now ++ after.now) }
{
    put_last(out, before, name)?;
    out.push_str(after)
}

/// Two names, each behind words.
fn pair(
    out: &mut String,
    before: &str,
    first: &Text,
    between: &str,
    second: &Text,
) -> Result<(), AllocError>
    ensures { Appends result out.old out.new
        (before.now ++ first.now ++ between.now ++ second.now) }
{
    put_last(out, before, first)?;
    put_last(out, between, second)
}
