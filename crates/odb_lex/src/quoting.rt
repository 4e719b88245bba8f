//! Quoted texts, as they are written.
ghost use Rattle.odb_lex.specs.Quoted.{doubled, in_quotes};
ghost use Rattle.odb_lex.specs.Written.{Appends};

use std::alloc::AllocError;

/// Writes a text between quotes, with each of its own quotes twice, behind what is written. The
/// error is want of memory.
pub fn put_quoted(out: &mut String, text: &str) -> Result<(), AllocError>
    ensures { Appends result out.old out.new (in_quotes text.now) }
{
    out.push_str("'")?;
    put_doubled(out, text)?;
    out.push_str("'")
}

/// The text with each quote twice, copied in the pieces between the quotes.
fn put_doubled(out: &mut String, text: &str) -> Result<(), AllocError>
    ensures { Appends result out.old out.new (doubled text.now) }
{
    let mut rest = text;
    while let Some((piece, after)) = rest.split_once('\'') {
        out.push_str(piece)?;
        out.push_str("''")?;
        rest = after;
    }
    out.push_str(rest)
}
