//! A file over a fake one, whose system does all that a system may do.
ghost use Rattle.std.specs.Prelude.{◌+◌, ◌≤◌, IfOk};

use odb_folder::SyncedFile;
use std::cell::Cell;
use std::fs::{File, Metadata, OpenFile};
use std::io;
use std::io::ErrorKind;
use std::os::fd::AsRawFd;
use std::os::unix::fs::FileExt;

/// How many bytes the fake file has, always.
const LENGTH: usize = 8;

/// A file of 8 bytes. Each second call of read or write is interrupted, and each other moves at
/// most 3 bytes.
///
/// A byte that was written stands in memory until a sync. A sync that fails writes nothing, and
/// keeps what is in memory as if the disk had it: the next sync doesn't write it any more.
#[derive(Drop)]
struct FakeFile {
    // The system is asked to forget what it keeps of this one.
    real: File,
    memory: Cell<[u8; LENGTH]>,
    is_dirty: Cell<[bool; LENGTH]>,
    disk: Cell<[u8; LENGTH]>,
    calls: Cell<u32>,
    syncs_to_fail: Cell<u32>,
}

impl FakeFile {
    /// The places from `at` on that one call moves, of so many bytes.
    fn moves(&self, at: u64, count: usize) -> io::Result<(usize, usize)>
        ensures { IfOk result (λ part. (part.0 + part.1 ≤ 8) × (part.1 ≤ count)) }
    {
        let call = self.calls.get();
        self.calls.set(call.wrapping_add(1));
        if call % 2 == 0 {
            return Err(io::Error::from(ErrorKind::Interrupted));
        }
        let start = at.min(LENGTH as u64) as usize;
        Ok((start, count.min(3).min(LENGTH - start)))
    }
}

impl FileExt for FakeFile {
    fn read_at(&self, out: &mut [u8], at: u64) -> io::Result<usize> {
        let (start, n) = self.moves(at, out.len())?;
        let memory = self.memory.get();
        out[..n].copy_from_slice(&memory[start..start + n]);
        Ok(n)
    }

    fn write_at(&self, bytes: &[u8], at: u64) -> io::Result<usize> {
        let (start, n) = self.moves(at, bytes.len())?;
        let mut memory = self.memory.get();
        let mut is_dirty = self.is_dirty.get();
        memory[start..start + n].copy_from_slice(&bytes[..n]);
        is_dirty[start..start + n].fill(true);
        self.memory.set(memory);
        self.is_dirty.set(is_dirty);
        Ok(n)
    }
}

impl OpenFile for FakeFile {
    fn metadata(&self) -> io::Result<Metadata> {
        Ok(Metadata::of_file(LENGTH as u64))
    }

    fn set_len(&self, _length: u64) -> io::Result<()> {
        Ok(())
    }

    fn sync_data(&self) -> io::Result<()> {
        let is_dirty = self.is_dirty.replace([false; LENGTH]);
        let left = self.syncs_to_fail.get();
        if left > 0 {
            self.syncs_to_fail.set(left - 1);
            return Err(io::Error::from(ErrorKind::Other));
        }
        let (memory, mut disk) = (self.memory.get(), self.disk.get());
        for place in 0..LENGTH {
            if is_dirty[place] {
                disk[place] = memory[place];
            }
        }
        self.disk.set(disk);
        Ok(())
    }

    fn sync_all(&self) -> io::Result<()> {
        self.sync_data()
    }
}

impl AsRawFd for FakeFile {
    fn as_raw_fd(&self) -> i32 {
        self.real.as_raw_fd()
    }
}

/// A new file whose next syncs fail, so many of them.
fn failing(rt: &HostRuntime, syncs: u32) -> io::Result<SyncedFile<FakeFile>> {
    Ok(SyncedFile::new(FakeFile {
        real: File::open(rt, "/dev/null")?,
        memory: Cell::new(*b"abcdefgh"),
        is_dirty: Cell::new([false; LENGTH]),
        disk: Cell::new(*b"abcd----"),
        calls: Cell::new(0),
        syncs_to_fail: Cell::new(syncs),
    }))
}

#[test]
fn short_and_interrupted_calls_go_on(rt: HostRuntime) -> io::Result<()> {
    let mut file = failing(&rt, 0)?;
    let mut out = [b'?'; 12];
    assert!(rt; file.write_at(1, b"BCDEF").is_ok());
    assert_eq!(rt; file.read_at(0, &mut out).ok(), Some(8));
    assert_eq!(rt; &out, b"aBCDEFgh????");
    assert_eq!(rt; file.read_at(6, &mut out[..1]).ok(), Some(1));
    assert_eq!(rt; file.read_at(u64::MAX, &mut out).ok(), Some(0));
    assert_eq!(rt; out[0], b'g');
    Ok(())
}

/// Where somebody else wrote bytes that the disk hasn't, and where this file did after a sync.
#[test]
fn a_sync_that_failed_is_made_good(rt: HostRuntime) -> io::Result<()> {
    let mut file = failing(&rt, 2)?;
    assert!(rt; file.sync().is_err() && file.sync().is_err());
    assert!(rt; file.sync().is_ok());
    assert_eq!(rt; &file.open_file().disk.get(), b"abcdefgh");

    assert!(rt; file.settle().is_ok(), "its length is known now");
    file.open_file().syncs_to_fail.set(1);
    assert!(rt; file.write_at(2, b"C").is_ok() && file.write_at(5, b"F").is_ok());
    assert!(rt; file.sync().is_err());
    assert_eq!(rt; &file.open_file().disk.get(), b"abcdefgh");
    let calls = file.open_file().calls.get();
    assert!(rt; file.needs_sync() && file.sync().is_ok());
    assert_eq!(rt; &file.open_file().disk.get(), b"abCdeFgh");
    assert!(rt; !file.needs_sync());
    assert_eq!(rt;
        file.open_file().calls.get().wrapping_sub(calls),
        8,
        "four bytes are read, and written"
    );
    Ok(())
}
