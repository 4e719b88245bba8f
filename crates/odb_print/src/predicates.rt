//! The text of a predicate, with the parentheses that it needs.
ghost use Rattle.std.specs.Prelude.{◌≡◌};
ghost use Rattle.odb_lex.specs.Written.{Appends};
ghost use Rattle.odb_model.specs.Canonical.{compare_text, predicate_text, within};
ghost use Rattle.odb_print.specs.Shown.{Opens, infix_text, null_text, shown_of, test_text, text_behind};

use crate::put::Put;
use odb_model::{Compare, Operand, Predicate};
use odb_values::Text;
use std::alloc::{AllocError, Global};

/// How tightly an OR binds.
const OR: u32 = 1;

/// How tightly an AND binds.
const AND: u32 = 2;

/// How tightly all else binds.
const OTHER: u32 = 3;

/// The predicate, without parentheses round the whole.
///
/// What the reader makes of a long line is deep on its left alone, where this goes by a loop:
/// `behind` has what stands behind the left parts, the innermost last. It calls itself for right
/// parts and NOTs.
#[cycle(predicate)]
pub fn put_predicate(
    alloc: Global,
    out: &mut String,
    predicate: &Predicate,
) -> Result<(), AllocError>
    ensures { Appends result out.old out.new (predicate_text predicate.now) }
{
    let mut behind = Vec::new(alloc);
    let mut part = predicate;
    loop {
        match part {
            Predicate::Test { op, left, right } => {
                put_test(out, *op, left, right)?;
                return put_behind(out, behind);
            }
            Predicate::Null { column, negated } => {
                put_null(out, column, *negated)?;
                return put_behind(out, behind);
            }
            Predicate::Not(a) => {
                out.push_str("NOT ")?;
                put_within(alloc, out, OTHER, a.get())?;
                return put_behind(out, behind);
            }
            Predicate::And(a, b) => {
                behind.push(put_left(alloc, out, AND, a.get(), " AND ", OTHER, b.get())?)?;
                part = a.get();
            }
            Predicate::Or(a, b) => {
                behind.push(put_left(alloc, out, OR, a.get(), " OR ", AND, b.get())?)?;
                part = a.get();
            }
        }
    }
}

/// A part that has to bind as tightly at least, with parentheses where it doesn't.
#[cycle(predicate)]
fn put_within(
    alloc: Global,
    out: &mut String,
    least: u32,
    part: &Predicate,
) -> Result<(), AllocError>
    ensures { Appends result out.old out.new (within least (shown_of part.now)) }
{
    let behind = put_open(alloc, out, least, part)?;
    put_predicate(alloc, out, part)?;
    out.push_str(behind.as_str())
}

/// Writes what stands before a left part, and gives what stands behind it: `)` where `(` was
/// written, the word and the right part. A side has to bind as tightly as its number at least.
#[cycle(predicate)]
fn put_left(
    alloc: Global,
    out: &mut String,
    least: u32,
    left: &Predicate,
    word: &str,
    right_least: u32,
    right: &Predicate,
) -> Result<String, AllocError>
    ensures { Opens result out.old out.new left.now
        (infix_text least left.now word.now right_least right.now) }
{
    let mut behind = put_open(alloc, out, least, left)?;
    behind.push_str(word)?;
    put_within(alloc, &mut behind, right_least, right)?;
    Ok(behind)
}

/// Writes `(` where the part binds less tightly than it has to, and gives what then stands behind
/// it.
fn put_open(
    alloc: Global,
    out: &mut String,
    least: u32,
    part: &Predicate,
) -> Result<String, AllocError>
    ensures { Opens result out.old out.new part.now (within least (shown_of part.now)) }
{
    if least <= binding(part) {
        return Ok(String::new(alloc));
    }
    out.push_str("(")?;
    String::from_str(alloc, ")")
}

/// The texts that stand behind left parts, the last first.
fn put_behind(out: &mut String, mut behind: Vec<String>) -> Result<(), AllocError>
    ensures { Appends result out.old out.new (text_behind behind.items) }
{
    while let Some(text) = behind.pop() {
        out.push_str(text.as_str())?;
    }
    Ok(())
}

/// How tightly a predicate binds.
fn binding(predicate: &Predicate) -> u32
    ensures { result ≡ (shown_of predicate.now).binds }
{
    match predicate {
        Predicate::Or(..) => OR,
        Predicate::And(..) => AND,
        Predicate::Test { .. } | Predicate::Null { .. } | Predicate::Not(_) => OTHER,
    }
}

fn put_test(
    out: &mut String,
    op: Compare,
    left: &Operand,
    right: &Operand,
) -> Result<(), AllocError>
    ensures { Appends result out.old out.new (test_text op left.now right.now) }
{
    left.put(out)?;
    out.push_str(sign_of(op))?;
    right.put(out)
}

fn put_null(out: &mut String, column: &Text, negated: bool) -> Result<(), AllocError>
    ensures { Appends result out.old out.new (null_text column.now negated) }
{
    column.put(out)?;
    out.push_str(if negated { " IS NOT NULL" } else { " IS NULL" })
}

/// The sign of a comparison, with a space on either side.
fn sign_of(op: Compare) -> &'static str
    ensures { result.now ≡ compare_text op }
{
    match op {
        Compare::Eq => " = ",
        Compare::Ne => " <> ",
        Compare::Lt => " < ",
        Compare::Le => " <= ",
        Compare::Gt => " > ",
        Compare::Ge => " >= ",
    }
}
