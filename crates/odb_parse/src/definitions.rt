//! Statements that define databanks, tables, shadows and backups. In each of them its first word
//! stands next.
ghost use Rattle.odb_parse.specs.Reading.{ReadsAs};
ghost use Rattle.odb_parse.specs.Statements as spec;

use crate::ParseError;
use crate::columns::columns;
use crate::kind::Kind;
use crate::lists::listed;
use crate::tokens::Tokens;
use odb_model::{Keyword, Sign, Statement};
use std::alloc::Global;

/// `CREATE (DATABANK | TABLE | SHADOW | BACKUP) name ..`
#[tactic(auto, unfolding(crate::specs::Statements::create))]
pub fn create(alloc: Global, tokens: &mut Tokens<'_>) -> Result<Statement, ParseError>
    ensures reads { ReadsAs spec.create tokens.old result tokens.new }
{
    tokens.skip()?;
    match tokens.peek() {
        Kind::Word(Keyword::Databank) => {
            tokens.skip()?;
            let name = tokens.name(alloc)?;
            Ok(Statement::CreateDatabank { name })
        }
        Kind::Word(Keyword::Shadow) => {
            tokens.skip()?;
            let name = tokens.name(alloc)?;
            tokens.expect_word(Keyword::For)?;
            let bank = tokens.name(alloc)?;
            Ok(Statement::CreateShadow { name, bank })
        }
        Kind::Word(Keyword::Backup) => {
            tokens.skip()?;
            let name = tokens.name(alloc)?;
            tokens.expect_word(Keyword::Of)?;
            let bank = tokens.name(alloc)?;
            Ok(Statement::CreateBackup { name, bank })
        }
        _ => create_table(alloc, tokens),
    }
}

/// `TABLE name ( column {, column} , PRIMARY KEY ( name {, name} ) ) IN name`
#[tactic(auto, unfolding(crate::specs::Statements::create_table))]
fn create_table(alloc: Global, tokens: &mut Tokens<'_>) -> Result<Statement, ParseError>
    ensures reads { ReadsAs spec.create_table tokens.old result tokens.new }
{
    tokens.expect_word(Keyword::Table)?;
    let name = tokens.name(alloc)?;
    tokens.expect_sign(Sign::Open)?;
    let columns = columns(alloc, tokens)?;
    tokens.expect_word(Keyword::Key)?;
    tokens.expect_sign(Sign::Open)?;
    let key = listed(alloc, tokens)?;
    tokens.expect_sign(Sign::Close)?;
    tokens.expect_sign(Sign::Close)?;
    tokens.expect_word(Keyword::In)?;
    let bank = tokens.name(alloc)?;
    Ok(Statement::CreateTable {
        name,
        columns,
        key,
        bank,
    })
}

/// `DROP (TABLE | SHADOW | BACKUP) name`
#[tactic(auto, unfolding(crate::specs::Statements::drop_object))]
pub fn drop_object(alloc: Global, tokens: &mut Tokens<'_>) -> Result<Statement, ParseError>
    ensures reads { ReadsAs spec.drop_object tokens.old result tokens.new }
{
    tokens.skip()?;
    match tokens.peek() {
        Kind::Word(Keyword::Table) => {
            tokens.skip()?;
            let name = tokens.name(alloc)?;
            Ok(Statement::DropTable { name })
        }
        Kind::Word(Keyword::Shadow) => {
            tokens.skip()?;
            let name = tokens.name(alloc)?;
            Ok(Statement::DropShadow { name })
        }
        _ => {
            tokens.expect_word(Keyword::Backup)?;
            let name = tokens.name(alloc)?;
            Ok(Statement::DropBackup { name })
        }
    }
}

/// `SET SHADOW name (ONLINE | OFFLINE) | SET BACKUP name READY`
#[tactic(auto, unfolding(crate::specs::Statements::set_object))]
pub fn set_object(alloc: Global, tokens: &mut Tokens<'_>) -> Result<Statement, ParseError>
    ensures reads { ReadsAs spec.set_object tokens.old result tokens.new }
{
    tokens.skip()?;
    if tokens.sees_word(Keyword::Shadow) {
        return set_shadow(alloc, tokens);
    }
    set_backup(alloc, tokens)
}

/// `BACKUP name READY`
#[tactic(auto, unfolding(crate::specs::Statements::set_backup))]
fn set_backup(alloc: Global, tokens: &mut Tokens<'_>) -> Result<Statement, ParseError>
    ensures reads { ReadsAs spec.set_backup tokens.old result tokens.new }
{
    tokens.expect_word(Keyword::Backup)?;
    let name = tokens.name(alloc)?;
    tokens.expect_word(Keyword::Ready)?;
    Ok(Statement::BackupReady { name })
}

/// `SHADOW name (ONLINE | OFFLINE)`, where SHADOW stands next
#[tactic(auto, unfolding(crate::specs::Statements::set_shadow))]
fn set_shadow(alloc: Global, tokens: &mut Tokens<'_>) -> Result<Statement, ParseError>
    ensures reads { ReadsAs spec.set_shadow tokens.old result tokens.new }
{
    tokens.skip()?;
    let name = tokens.name(alloc)?;
    if tokens.eat_word(Keyword::Online)? {
        return Ok(Statement::ShadowOnline { name });
    }
    tokens.expect_word(Keyword::Offline)?;
    Ok(Statement::ShadowOffline { name })
}

/// `ALTER SHADOW name TO MASTER`
#[tactic(auto, unfolding(crate::specs::Statements::alter))]
pub fn alter(alloc: Global, tokens: &mut Tokens<'_>) -> Result<Statement, ParseError>
    ensures reads { ReadsAs spec.alter tokens.old result tokens.new }
{
    tokens.skip()?;
    tokens.expect_word(Keyword::Shadow)?;
    let name = tokens.name(alloc)?;
    tokens.expect_word(Keyword::To)?;
    tokens.expect_word(Keyword::Master)?;
    Ok(Statement::ShadowMaster { name })
}

/// `RESTORE name FROM name`
#[tactic(auto, unfolding(crate::specs::Statements::restore))]
pub fn restore(alloc: Global, tokens: &mut Tokens<'_>) -> Result<Statement, ParseError>
    ensures reads { ReadsAs spec.restore tokens.old result tokens.new }
{
    tokens.skip()?;
    let bank = tokens.name(alloc)?;
    tokens.expect_word(Keyword::From)?;
    let name = tokens.name(alloc)?;
    Ok(Statement::Restore { bank, name })
}
