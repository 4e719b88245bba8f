//! Reads and writes over std's readers and writers. A call that a signal interrupts is tried again,
//! and a standard stream that has nothing now, or no room now, is waited for.
ghost use Rattle.std.specs.Prelude.{◌<◌, ◌≤◌, length, IfOk};
ghost use Rattle.std.specs.Io.KnownBytes.{ReadConsumes, WriteAppends};
ghost use Rattle.odb_folder.specs.Streams.{Fills, TakesFront};

use libc::net::{POLLIN, POLLOUT};
use libc::types::pollfd;
use std::io;
use std::io::{ErrorKind, Read, Write};

/// One read. It gives no byte only at the end of the reader, where there is room for one.
pub(crate) fn read_once<R: Read>(reader: &mut R, out: &mut [u8]) -> io::Result<usize>
    ensures bound { IfOk result (λ n. n ≤ length out.new) }
    ensures bytes { ReadConsumes (R.remaining reader.old) (R.remaining reader.new) result out.new }
{
    for _ in 0..u64::MAX {
        match reader.read(out) {
            Err(error) if error.kind() == ErrorKind::Interrupted => {}
            answer => return answer,
        }
    }
    Err(io::Error::from(ErrorKind::Interrupted))
}

/// One read of the standard input, once it has something to give.
pub(crate) fn read_input<R: Read>(input: &mut R, out: &mut [u8]) -> io::Result<usize>
    ensures bound { IfOk result (λ n. n ≤ length out.new) }
    ensures bytes { ReadConsumes (R.remaining input.old) (R.remaining input.new) result out.new }
{
    for _ in 0..u64::MAX {
        match read_once(input, out) {
            Err(error) if error.kind() == ErrorKind::WouldBlock => {
                wait_for(libc::STDIN_FILENO, POLLIN)?;
            }
            answer => return answer,
        }
    }
    Err(io::Error::from(ErrorKind::WouldBlock))
}

/// Reads to the end of the reader or of `out`, and answers how many bytes. It reads until `out` is
/// full or a read gives none.
pub(crate) fn fill<R: Read>(reader: &mut R, out: &mut [u8]) -> io::Result<usize>
    ensures bound { IfOk result (λ n. n ≤ length out.new) }
    ensures bytes { Fills (R.remaining reader.old) (R.remaining reader.new) result out.new }
{
    let mut filled = 0;
    while filled < out.len() {
        let n = read_once(reader, &mut out[filled..])?;
        if n == 0 {
            break;
        }
        filled += n;
    }
    Ok(filled)
}

/// Writes a front of the bytes to the standard output and flushes it, once it has room for some. An
/// output that takes nothing is an error.
pub(crate) fn write_front<W: Write>(writer: &mut W, bytes: &[u8]) -> io::Result<usize>
    ensures bound { IfOk result (λ n. (0 < n) × (n ≤ length bytes.now)) }
    ensures bytes { TakesFront (W.contents writer.old) (W.contents writer.new) result bytes.now }
{
    let n = write_once(writer, bytes)?;
    if n == 0 {
        return Err(io::Error::from(ErrorKind::WriteZero));
    }
    writer.flush()?;
    Ok(n)
}

/// One write to the standard output, once it has room.
fn write_once<W: Write>(writer: &mut W, bytes: &[u8]) -> io::Result<usize>
    ensures bound { IfOk result (λ n. n ≤ length bytes.now) }
    ensures bytes { WriteAppends (W.contents writer.old) (W.contents writer.new) result bytes.now }
{
    for _ in 0..u64::MAX {
        match writer.write(bytes) {
            Err(error) if error.kind() == ErrorKind::Interrupted => {}
            Err(error) if error.kind() == ErrorKind::WouldBlock => {
                wait_for(libc::STDOUT_FILENO, POLLOUT)?;
            }
            answer => return answer,
        }
    }
    Err(io::Error::from(ErrorKind::Interrupted))
}

/// Waits until the standard stream can go on, or has an end or an error to tell.
fn wait_for(stream: i32, events: i16) -> io::Result<()> {
    let mut asked = [pollfd {
        fd: stream,
        events,
        revents: 0,
    }];
    for _ in 0..u64::MAX {
        if libc::net::poll(&mut asked, -1) >= 0 {
            return Ok(());
        }
        let error = io::Error::from_raw_os_error(os::errno());
        if error.kind() != ErrorKind::Interrupted {
            return Err(error);
        }
    }
    Err(io::Error::from(ErrorKind::Interrupted))
}
