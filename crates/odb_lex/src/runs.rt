//! How many bytes of one class stand at the front.
ghost use Rattle.std.specs.Prelude.{◌≡◌, ◌≤◌, length};
ghost use Rattle.std.specs.List.{prefix_len};
ghost use Rattle.std.specs.Char.{is_ascii_digit};
ghost use Rattle.odb_values.specs.Text.{is_plain};
ghost use Rattle.odb_lex.specs.Bytes.{is_blank, is_name_byte};
ghost use Rattle.odb_lex.specs.Quoted.{quote_in};

/// How many blanks stand at the front: spaces and tabs.
pub fn blank_len(bytes: &[u8]) -> usize
    ensures len { result ≡ prefix_len is_blank bytes.now }
    ensures within { result ≤ length bytes.now }
{
    bytes
        .iter()
        .take_while(|b| **b == b' ' || **b == b'\t')
        .count()
}

/// How many bytes that a name goes on with.
pub fn name_len(bytes: &[u8]) -> usize
    ensures len { result ≡ prefix_len is_name_byte bytes.now }
    ensures within { result ≤ length bytes.now }
{
    bytes
        .iter()
        .take_while(|b| b.is_ascii_alphanumeric() || **b == b'_')
        .count()
}

/// How many decimal digits.
pub fn digit_len(bytes: &[u8]) -> usize
    ensures len { result ≡ prefix_len is_ascii_digit bytes.now }
    ensures within { result ≤ length bytes.now }
{
    bytes.iter().take_while(|b| b.is_ascii_digit()).count()
}

/// How many bytes before a control byte other than tab.
pub fn plain_len(bytes: &[u8]) -> usize
    ensures len { result ≡ prefix_len is_plain bytes.now }
    ensures within { result ≤ length bytes.now }
{
    bytes
        .iter()
        .take_while(|b| 32 <= **b || **b == b'\t')
        .count()
}

/// How many bytes before a quote.
pub fn unquoted_len(bytes: &[u8]) -> usize
    ensures len { result ≡ quote_in bytes.now }
    ensures within { result ≤ length bytes.now }
{
    bytes.iter().take_while(|b| **b != b'\'').count()
}
