//! One open file, and what of it may not be on the disk.
ghost use Rattle.std.specs.Prelude.{◌≡◌, ◌↔◌, ◌⊎◌, ◌+◌, ◌-◌, ◌^◌, ◌≤◌, length, IfOk, IsErr, IsTrue, OnErr, OnOk};

use crate::streams::fill;
use std::fs::OpenFile;
use std::io;
use std::io::Read;
use std::os::fd::AsRawFd;
use std::os::unix::fs::FileExt;

/// No file has a byte here or behind it: the system numbers the places of a file in 63 bits.
const FARTHEST: u64 = i64::MAX as u64;

/// How many bytes are written again at once.
const PIECE: usize = 4096;

/// An open file.
///
/// **A sync that failed is no sync that comes later.** Where the system couldn't write a page, it
/// may say so once, keep the page in its memory as if it were on the disk, and answer the next sync
/// with success. So after a sync that failed this asks the system to forget what it keeps, and
/// before the next one it writes again all that may be missing on the disk. What that sync then
/// answers speaks of all the bytes that a read gives.
#[derive(Drop)]
pub struct SyncedFile<F> {
    file: F,
    // What may not be on the disk are the bytes from the one place to before the other.
    from: u64,
    to: u64,
    // The file is at least as long: its length as it was settled, or the end of a later write that
    // succeeded. A write behind it fills the gap with zeros, which may not be on the disk either.
    end: u64,
    // Whether something was written since the last sync that succeeded.
    is_written: bool,
    // Whether the last sync failed.
    is_suspect: bool,
}

impl<F: AsRawFd + FileExt + OpenFile + Drop> SyncedFile<F> {
    /// A file that was just opened. Somebody else may have written all of it, and not synced it.
    pub fn new(file: F) -> SyncedFile<F>
        ensures { (result.from ≡ 0) × (result.to ≡ 2 ^ 64 - 1) }
    {
        SyncedFile {
            file,
            from: 0,
            to: u64::MAX,
            end: 0,
            is_written: false,
            is_suspect: false,
        }
    }

    /// The open file itself.
    pub fn open_file(&self) -> &F {
        &self.file
    }

    /// The length in bytes.
    pub fn length(&self) -> io::Result<u64> {
        Ok(self.file.metadata()?.len())
    }

    /// Reads from the byte `at` on to the end of the file or of `out`, and answers how many bytes.
    pub fn read_at(&self, at: u64, out: &mut [u8]) -> io::Result<usize>
        ensures { IfOk result (λ n. n ≤ length out.new) }
    {
        let room = FARTHEST.saturating_sub(at).min(out.len() as u64) as usize;
        let file = &self.file;
        fill(&mut Reader { file, at }, &mut out[..room])
    }

    /// Writes all of the bytes from the byte `at` on. The system fills a gap before them with
    /// zeros. Where there are no bytes, the file is made as long as `at`.
    pub fn write_at(&mut self, at: u64, bytes: &[u8]) -> io::Result<()>
        requires { at + length bytes.now ≤ 2 ^ 40 }
        ensures noted { (self.new.from ≤ at) × (at + length bytes.now ≤ self.new.to) }
        ensures grown { (self.new.from ≤ self.old.from) × (self.old.to ≤ self.new.to) }
        ensures gap { self.new.from ≤ self.old.end }
        ensures written { IsTrue self.new.is_written }
        ensures suspect { self.new.is_suspect ≡ self.old.is_suspect }
    {
        let end = at + bytes.len() as u64;
        self.is_written = true;
        self.from = self.from.min(at).min(self.end);
        self.to = self.to.max(end);
        if !bytes.is_empty() {
            self.file.write_all_at(bytes, at)?;
        } else if self.length()? < at {
            self.file.set_len(at)?;
        }
        self.end = self.end.max(end);
        Ok(())
    }

    /// Whether something was written since the last sync that succeeded, or the last sync failed.
    pub fn needs_sync(&self) -> bool
        ensures { IsTrue result ↔ (IsTrue self.now.is_written ⊎ IsTrue self.now.is_suspect) }
    {
        self.is_written || self.is_suspect
    }

    /// Puts the file on the disk, so that the disk has what a read gives. It is one call of the
    /// system, where no sync failed before.
    pub fn sync(&mut self) -> io::Result<()>
        ensures suspect { IsTrue self.new.is_suspect ↔ IsErr result }
        ensures settled { OnOk result (¬ (IsTrue self.new.is_written)) }
        ensures from { OnErr result (self.new.from ≡ self.old.from) }
        ensures to { OnErr result (self.new.to ≡ self.old.to) }
    {
        if self.is_suspect {
            self.write_again()?;
        }
        self.is_suspect = true;
        if let Err(error) = self.file.sync_data() {
            let _ = self.forget();
            return Err(error);
        }
        self.from = u64::MAX;
        self.to = 0;
        self.is_written = false;
        self.is_suspect = false;
        Ok(())
    }

    /// Puts on the disk what anybody wrote, and has the system forget what it keeps of the file.
    /// What is read from then on is what the disk has.
    ///
    /// Who wrote the file before may have had a sync that failed, and ended: then the system may
    /// keep bytes that the disk hasn't, and answer this sync with success.
    pub fn settle(&mut self) -> io::Result<()>
        ensures { OnOk result (¬ (IsTrue self.new.is_suspect)) }
    {
        self.sync()?;
        self.forget()?;
        self.end = self.length()?;
        Ok(())
    }

    /// Asks the system to forget what it keeps of the file in memory, and the disk has too.
    fn forget(&self) -> io::Result<()> {
        let advised = libc::posix_fadvise(self.file.as_raw_fd(), 0, 0, libc::POSIX_FADV_DONTNEED);
        if advised != 0 {
            return Err(io::Error::from_raw_os_error(advised));
        }
        Ok(())
    }

    /// Writes again what a read gives of the part that may not be on the disk.
    fn write_again(&self) -> io::Result<()> {
        let mut piece = [0; PIECE];
        let mut at = self.from;
        while at < self.to {
            let room = (self.to - at).min(PIECE as u64) as usize;
            let n = self.read_at(at, &mut piece[..room])?;
            if n == 0 {
                break;
            }
            self.file.write_all_at(&piece[..n], at)?;
            at += n as u64;
        }
        Ok(())
    }
}

/// The bytes of a file from a place on.
#[derive(Drop)]
struct Reader<'a, F> {
    file: &'a F,
    at: u64,
}

impl<F: FileExt> Read for Reader<'_, F> {
    fn read(&mut self, out: &mut [u8]) -> io::Result<usize> {
        let n = self.file.read_at(out, self.at)?;
        self.at = self.at.saturating_add(n as u64);
        Ok(n)
    }
}
