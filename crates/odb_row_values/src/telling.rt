//! Tells a statement with a word for each kind, and its predicate with all parentheses.
use crate::values::{tell_listed, tell_value};
use odb_model::{
    Assignment, ColumnText, Compare, Expression, Operand, Predicate, Statement, Term, What,
};
use odb_values::{Text, Value, Values};
use std::alloc::AllocError;

/// Tells a statement.
pub(crate) fn tell_statement(out: &mut String, statement: &Statement) -> Result<(), AllocError> {
    match statement {
        Statement::Start => out.push_str("start"),
        Statement::Commit => out.push_str("commit"),
        Statement::Rollback => out.push_str("rollback"),
        Statement::Select {
            what,
            table,
            filter,
        } => {
            out.push_str("select ")?;
            tell_what(out, what)?;
            tell_name(out, " of ", table)?;
            tell_filter(out, filter)
        }
        Statement::Insert { table, tuples } => {
            tell_name(out, "insert ", table)?;
            tell_tuples(out, tuples.as_slice())
        }
        Statement::Update {
            table,
            sets,
            filter,
        } => {
            tell_name(out, "update ", table)?;
            tell_sets(out, sets.as_slice())?;
            tell_filter(out, filter)
        }
        Statement::Delete { table, filter } => {
            tell_name(out, "delete ", table)?;
            tell_filter(out, filter)
        }
        definition => tell_definition(out, definition),
    }
}

/// Tells a statement on tables and databanks.
fn tell_definition(out: &mut String, statement: &Statement) -> Result<(), AllocError> {
    match statement {
        Statement::CreateDatabank { name } => tell_name(out, "create databank ", name),
        Statement::CreateTable {
            name,
            columns,
            key,
            bank,
        } => {
            tell_name(out, "create table ", name)?;
            tell_columns(out, columns.as_slice())?;
            out.push_str(" key")?;
            tell_names(out, key.as_slice())?;
            tell_name(out, " in ", bank)
        }
        Statement::DropTable { name } => tell_name(out, "drop table ", name),
        Statement::Restore { bank, name } => {
            tell_name(out, "restore ", bank)?;
            tell_name(out, " from ", name)
        }
        copy => tell_copy(out, copy),
    }
}

/// Tells a statement on shadows and backups.
fn tell_copy(out: &mut String, statement: &Statement) -> Result<(), AllocError> {
    match statement {
        Statement::CreateShadow { name, bank } => {
            tell_name(out, "create shadow ", name)?;
            tell_name(out, " for ", bank)
        }
        Statement::ShadowOnline { name } => tell_name(out, "online shadow ", name),
        Statement::ShadowOffline { name } => tell_name(out, "offline shadow ", name),
        Statement::ShadowMaster { name } => tell_name(out, "master shadow ", name),
        Statement::DropShadow { name } => tell_name(out, "drop shadow ", name),
        Statement::CreateBackup { name, bank } => {
            tell_name(out, "create backup ", name)?;
            tell_name(out, " of ", bank)
        }
        Statement::BackupReady { name } => tell_name(out, "ready backup ", name),
        Statement::DropBackup { name } => tell_name(out, "drop backup ", name),
        _ => out.push_str("another"),
    }
}

/// Tells a name behind some words.
fn tell_name(out: &mut String, words: &str, name: &Text) -> Result<(), AllocError> {
    out.push_str(words)?;
    out.push_str(name.as_str())
}

fn tell_what(out: &mut String, what: &What) -> Result<(), AllocError> {
    match what {
        What::All => out.push_str("all"),
        What::Columns(names) => {
            out.push_str("columns")?;
            tell_names(out, names.as_slice())
        }
        What::Count => out.push_str("count"),
        What::Sum(column) => tell_name(out, "sum ", column),
    }
}

fn tell_names(out: &mut String, names: &[Text]) -> Result<(), AllocError> {
    for name in names {
        tell_name(out, " ", name)?;
    }
    Ok(())
}

fn tell_columns(out: &mut String, columns: &[ColumnText]) -> Result<(), AllocError> {
    for column in columns {
        tell_name(out, " [", &column.name)?;
        let length = column.length;
        let not_null = column.not_null;
        write!(out, " {length:?} {not_null}]")?;
    }
    Ok(())
}

fn tell_tuples(out: &mut String, tuples: &[Values]) -> Result<(), AllocError> {
    for tuple in tuples {
        out.push_str(" tuple")?;
        tell_listed(out, " ", tuple.as_slice())?;
    }
    Ok(())
}

fn tell_sets(out: &mut String, sets: &[Assignment]) -> Result<(), AllocError> {
    for set in sets {
        tell_name(out, " [", &set.column)?;
        out.push_str(" := ")?;
        tell_sum(out, &set.value)?;
        out.push_str("]")?;
    }
    Ok(())
}

fn tell_sum(out: &mut String, sum: &Expression) -> Result<(), AllocError> {
    tell_operand(out, &sum.first)?;
    for term in sum.rest.as_slice() {
        tell_term(out, term)?;
    }
    Ok(())
}

fn tell_term(out: &mut String, term: &Term) -> Result<(), AllocError> {
    let sign = if term.minus { " minus " } else { " plus " };
    out.push_str(sign)?;
    tell_operand(out, &term.operand)
}

fn tell_operand(out: &mut String, operand: &Operand) -> Result<(), AllocError> {
    match operand {
        Operand::Column(name) => out.push_str(name.as_str()),
        Operand::Literal(value) => tell_value(out, value),
    }
}

fn tell_filter(out: &mut String, filter: &Option<Predicate>) -> Result<(), AllocError> {
    match filter {
        None => Ok(()),
        Some(predicate) => {
            out.push_str(" where ")?;
            tell_predicate(out, predicate)
        }
    }
}

fn tell_predicate(out: &mut String, predicate: &Predicate) -> Result<(), AllocError> {
    out.push_str("(")?;
    match predicate {
        Predicate::Test { op, left, right } => tell_test(out, *op, left, right)?,
        Predicate::Null { column, negated } => {
            let column = column.as_str();
            write!(out, "{column} null {negated}")?;
        }
        Predicate::Not(inner) => {
            out.push_str("not ")?;
            tell_predicate(out, inner.get())?;
        }
        Predicate::And(left, right) => {
            tell_predicate(out, left.get())?;
            out.push_str(" and ")?;
            tell_predicate(out, right.get())?;
        }
        Predicate::Or(left, right) => {
            tell_predicate(out, left.get())?;
            out.push_str(" or ")?;
            tell_predicate(out, right.get())?;
        }
    }
    out.push_str(")")
}

fn tell_test(
    out: &mut String,
    op: Compare,
    left: &Operand,
    right: &Operand,
) -> Result<(), AllocError> {
    tell_operand(out, left)?;
    write!(out, " {op:?} ")?;
    tell_operand(out, right)
}
