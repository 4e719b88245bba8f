//! Bytes copied out of a list, and put behind one.
ghost use Rattle.std.specs.Prelude.{◌≡◌, ◌+◌, ◌≤◌, ◌++◌, length, vec_len, vec_capacity};
ghost use Rattle.odb_device.specs.Calls.{HasCopied};

/// Copies the front of what lies from a byte on.
pub(crate) fn copy_from(bytes: &[u8], at: u64, out: &mut [u8]) -> usize
    ensures bound { result ≤ length out.new }
    ensures copied { HasCopied bytes.now at result out.new }
{
    if at >= bytes.len() as u64 {
        return 0;
    }
    let rest = &bytes[at as usize..];
    let n = rest.len().min(out.len());
    out[..n].copy_from_slice(&rest[..n]);
    n
}

/// Puts bytes behind others, where there is room for them.
pub(crate) fn add(to: &mut Vec<u8>, bytes: &[u8])
    requires { vec_len to.old + length bytes.now ≤ vec_capacity to.old }
    ensures bytes { to.new.items ≡ to.old.items ++ bytes.now }
    ensures capacity { vec_capacity to.old ≤ vec_capacity to.new }
{
    if to.extend_from_slice(bytes).is_err() {
        unreachable!();
    }
}
