//! Names.
ghost use Rattle.std.specs.Prelude.{◌≡◌, codes};
ghost use Rattle.std.specs.List.{list_all};
ghost use Rattle.odb_model.specs.Table.{is_named};
ghost use Rattle.odb_model.specs.Dictionary.{is_capital, is_name_byte, has_name_form};

use odb_values::Text;

/// Whether two names are one. Names are in capitals, so they are compared byte by byte.
pub fn is_named(name: &Text, other: &Text) -> bool
    ensures { result ≡ is_named name.now other.now }
{
    name.as_bytes() == other.as_bytes()
}

/// Whether a name is that of the table KV, which is fixed.
pub(crate) fn is_kv(name: &Text) -> bool
    ensures { result ≡ is_named name.now (codes "KV") }
{
    name.as_bytes() == b"KV".as_slice()
}

/// Whether a byte is a letter in capitals.
fn is_capital(byte: u8) -> bool
    ensures { result ≡ is_capital byte }
{
    65 <= byte && byte <= 90
}

/// Whether a byte is a letter in capitals, a digit or an underline.
fn is_name_byte(byte: u8) -> bool
    ensures { result ≡ is_name_byte byte }
{
    is_capital(byte) || (48 <= byte && byte <= 57) || byte == 95
}

fn are_name_bytes(bytes: &[u8]) -> bool
    ensures { result ≡ list_all is_name_byte bytes.now }
{
    bytes.iter().all(|byte| is_name_byte(*byte))
}

/// Whether bytes have the form of a name in capitals: a letter, and then letters, digits and
/// underlines, at most 32 bytes.
pub fn has_name_form(name: &[u8]) -> bool
    ensures { result ≡ has_name_form name.now }
{
    match name {
        [] => false,
        [first, rest @ ..] => is_capital(*first) && are_name_bytes(rest) && rest.len() < 32,
    }
}
