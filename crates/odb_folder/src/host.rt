//! The host.
use crate::counts::{Counts, counted};
use crate::folder::Folder;
use crate::streams::{read_input, write_front};
use odb_device::{Console, Failed, Host, Outside, Store};
use std::fs::File;
use std::io;
use std::io::Input;
use std::marker::Model;
use std::rt::Files;

/// A host over the files of the current folder and the standard streams.
///
/// **Files.** File `n` is `n.odb` in the current folder, with `n` in decimal. Where it is a link,
/// the file that it leads to is meant. A file that isn't there has length 0, gives no bytes and
/// needs no sync; `write_at` alone makes it, for its owner alone to read and write. What is no
/// plain file (a folder, a device, a pipe, a link that leads nowhere), and a file that has a
/// second name, is a fault, and isn't opened. Each file is opened for reading and writing, and
/// stays open from its first use on: file 0 for good, any other until 31 others were opened after
/// it.
///
/// **One program at a time.** File 0 is locked as it is opened, and as long as it is open. Where
/// somebody else holds that lock, the call is a fault and has changed no byte. A host that was told
/// that file 0 isn't there makes it only where still nobody has; else that is a fault too. The lock
/// ends with the host, also where the program is killed.
///
/// **Opening.** Before a file is first read, it is put on the disk, the system is asked to forget
/// what it keeps of it, and the folder is put on the disk: whoever wrote it before may have had a
/// sync that failed, and ended. After a sync of the folder that failed no further file is opened.
///
/// **Syncs.** Ok says that the system told of no failure, for all bytes that a read gives. After
/// a sync that failed the system may keep in memory, as if they were on the disk, pages that it
/// couldn't write, and answer the next sync with success. So the host asks it to forget them, and
/// at the next sync of that file writes again, before it, what was written since the last sync
/// that succeeded; all of the file, where it never synced it. A sync is a fault where the name
/// doesn't mean the open file any more: that is looked at before the first sync of a file, and
/// before the first one after each `take`.
///
/// **Faults.** Each error that std answers, a standard output that takes nothing, and a write past
/// the length that the system lets a file have, is a fault: it raises a count, and the call answers
/// `Failed`. There is one count for the files together, which is the count of each, one for `take`
/// and one for `say`. An opening, a read, a write and a sync that a signal interrupts is tried
/// again, and a standard stream that doesn't block is waited for; neither is a fault.
///
/// **Proofs.** It keeps its counts and tells proofs no content: neither what a file holds nor what
/// was taken or said.
///
/// No call takes memory. A call that takes input or output waits as long as the stream lets it.
#[derive(Drop)]
pub struct FolderHost<R: Files<File = File> + Input + Print + Drop> {
    rt: R,
    folder: Folder,
    counts: Counts,
}

impl<R: Files<File = File> + Input + Print + Drop> Model for FolderHost<R> {
    ghost use Rattle.odb_folder.specs.declared.counts.Counts.{Counts};

    ghost Value = { Counts };

    ghost view = { λ s. s.counts };
}

impl<R: Files<File = File> + Input + Print + Drop> FolderHost<R> {
    ghost use Rattle.std.specs.Prelude.{◌≡◌};
    ghost use Rattle.odb_folder.specs.Counted.{no_counts};

    /// A host that has failed in nothing yet. It touches no file and no stream before it is asked.
    pub fn new(rt: R) -> FolderHost<R>
        ensures { result ≡ no_counts }
    {
        let counts = Counts {
            file_faults: 0,
            take_faults: 0,
            say_faults: 0,
            has_ended: false,
        };
        FolderHost {
            rt,
            folder: Folder::new(),
            counts,
        }
    }

    /// What contracts see of it.
    pub fn counts(&self) -> Counts
        ensures { result ≡ self.now }
    {
        self.counts
    }
}

impl<R: Files<File = File> + Input + Print + Drop> Outside for FolderHost<R> {
    ghost use Rattle.odb_folder.specs.Counted.{counted_world};

    ghost world = { counted_world };
}

/// Each call opens the file where it isn't open yet: that is two syncs, of the file and of the
/// folder, and some looks at the name. Where all places are taken, the file that was opened first
/// is closed, and synced before where it has to be; where that sync fails, the call is `Failed`.
impl<R: Files<File = File> + Input + Print + Drop> Store for FolderHost<R> {
    ghost reads_image = { λ s file. tt };

    /// It asks the system once.
    fn length(&mut self, file: u32) -> Result<u64, Failed> {
        counted(
            self.folder.length(&self.rt, file),
            &mut self.counts.file_faults,
        )
    }

    /// It reads until `out` is full or a read gives nothing: mostly one read, and one more at the
    /// end of the file.
    fn read_at(&mut self, file: u32, at: u64, out: &mut [u8]) -> Result<usize, Failed> {
        counted(
            self.folder.read_at(&self.rt, file, at, out),
            &mut self.counts.file_faults,
        )
    }

    /// It writes until all is written: mostly one write. Where there are no bytes it asks for the
    /// length, and sets it to `at` where it is below.
    fn write_at(&mut self, file: u32, at: u64, bytes: &[u8]) -> Result<(), Failed> {
        counted(
            self.folder.write_at(&self.rt, file, at, bytes),
            &mut self.counts.file_faults,
        )
    }

    /// It syncs the file's bytes and what is needed to read them: one call of the system. Before
    /// the first sync after the program has waited for input it looks at the name, and after a
    /// sync that failed it reads and writes what it has to write again, in pieces of 4,096 bytes.
    fn sync(&mut self, file: u32) -> Result<(), Failed> {
        counted(
            self.folder.sync(&self.rt, file),
            &mut self.counts.file_faults,
        )
    }
}

impl<R: Files<File = File> + Input + Print + Drop> Console for FolderHost<R> {
    /// One read of the standard input, which keeps nothing back for the next.
    fn take(&mut self, out: &mut [u8]) -> Result<usize, Failed> {
        self.folder.begin_turn();
        let n = counted(
            read_input(&mut self.rt.reader(), out),
            &mut self.counts.take_faults,
        )?;
        self.counts.has_ended = n == 0 || self.counts.has_ended;
        Ok(n)
    }

    /// One write to the standard output, and a flush of what it took, so that it is out before
    /// the next step.
    ///
    /// Where the flush failed, some of the bytes may be out all the same.
    fn say(&mut self, bytes: &[u8]) -> Result<usize, Failed> {
        counted(
            write_front(&mut io::writer(&self.rt), bytes),
            &mut self.counts.say_faults,
        )
    }
}

impl<R: Files<File = File> + Input + Print + Drop> Host for FolderHost<R> {}
