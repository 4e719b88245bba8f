//! The forty bytes that the pair keeps: the limit and the owner's fields.
ghost use Rattle.std.specs.Prelude.{◌≡◌, ◌+◌, ◌*◌, ◌≤◌};
ghost use Rattle.odb_extent.specs.Opened.{content_end, value_with, limit_in, fields_in};

/// The bytes of an extent: 1 MiB.
const EXTENT: u64 = 1_048_576;

/// The first byte of the content, behind the pair.
const CONTENT: u64 = 1024;

/// The value for this limit and these fields.
pub(crate) fn value_with(limit: u32, fields: &[u8; 36]) -> [u8; 40]
    ensures { result ≡ value_with limit fields.now }
{
    let mut value = [0; 40];
    value[..4].copy_from_slice(&limit.to_be_bytes());
    value[4..].copy_from_slice(fields);
    value
}

/// The limit that a value has.
pub(crate) fn limit_in(value: &[u8; 40]) -> u32
    ensures { result ≡ limit_in value.now }
{
    let mut limit = [0; 4];
    limit.copy_from_slice(&value[..4]);
    u32::from_be_bytes(limit)
}

/// The fields that a value has.
pub(crate) fn fields_in(value: &[u8; 40]) -> [u8; 36]
    ensures { result ≡ fields_in value.now }
{
    let mut fields = [0; 36];
    fields.copy_from_slice(&value[4..]);
    fields
}

/// The first byte behind the content of so many extents, at most 4,096.
pub(crate) fn content_end(limit: u32) -> u64
    requires { limit ≤ 4096 }
    ensures { result ≡ content_end limit }
{
    CONTENT + EXTENT * u64::from(limit)
}
