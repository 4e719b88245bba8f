//! The files of the current folder.
ghost use Rattle.std.specs.Prelude.{◌+◌, ◌^◌, ◌<◌, ◌≤◌, length, IfOk, IfSome};

use crate::file::SyncedFile;
use crate::name::file_name;
use crate::opening::{check_name, folder_behind, make_plain, open_plain};
use libc::types::rlimit;
use std::fs::File;
use std::io;
use std::io::ErrorKind;
use std::rt::Files;

/// How many files are open at once, at most.
const PLACES: usize = 32;

/// The file whose lock keeps every other program away. It has the place of the same number.
const FIRST: u32 = 0;

/// The limit that the system sets to the length of a file, by its number in C.
const RLIMIT_FSIZE: i32 = 1;

/// A file with its number.
#[derive(Drop)]
struct Numbered {
    number: u32,
    file: SyncedFile<File>,
    // Whether the file and its name are on the disk as they were found. Before, nothing is read.
    is_settled: bool,
    // In which turn its name was last seen to mean it, by a sync.
    seen: Option<u64>,
}

/// The files of the current folder, some of them open.
///
/// It takes no memory. A file stays open from its first use on: file 0 for good, and any other
/// until `PLACES - 1` others were opened after it.
#[derive(Drop)]
pub(crate) struct Folder {
    open: [Option<Numbered>; PLACES],
    // The place of the file that is opened next. Where a file stands there by then, it is closed.
    next: usize,
    // Whether it was told that file 0 isn't there.
    is_first_absent: bool,
    // Whether a sync of a folder failed. A name can't be written again as bytes can, so no later
    // sync of a folder can be believed.
    is_name_lost: bool,
    // How often the program waited for somebody.
    turn: u64,
    // No file may get longer, in bytes.
    longest: u64,
    ghost in_range: { next < 32 },
}

impl Folder {
    /// No file is open, and nothing is touched.
    pub(crate) fn new() -> Folder {
        Folder {
            open: Default::default(),
            next: 1,
            is_first_absent: false,
            is_name_lost: false,
            turn: 0,
            longest: longest_file(),
        }
    }

    /// The program has waited, and what the names mean may be other than before: the next sync of
    /// each file looks.
    pub(crate) fn begin_turn(&mut self) {
        self.turn = self.turn.wrapping_add(1);
    }

    /// The length of the file in bytes; 0 where it isn't there.
    pub(crate) fn length<R: Files<File = File>>(
        &mut self,
        files: &R,
        number: u32,
    ) -> io::Result<u64> {
        match self.find(files, number, false)? {
            Some(open) => open.file.length(),
            None => Ok(0),
        }
    }

    /// Reads from the byte `at` on to the end of the file or of `out`; nothing where the file isn't
    /// there.
    pub(crate) fn read_at<R: Files<File = File>>(
        &mut self,
        files: &R,
        number: u32,
        at: u64,
        out: &mut [u8],
    ) -> io::Result<usize>
        ensures { IfOk result (λ n. n ≤ length out.new) }
    {
        match self.find(files, number, false)? {
            Some(open) => open.file.read_at(at, out),
            None => Ok(0),
        }
    }

    /// Writes all of the bytes from the byte `at` on, and makes the file where it isn't there.
    pub(crate) fn write_at<R: Files<File = File>>(
        &mut self,
        files: &R,
        number: u32,
        at: u64,
        bytes: &[u8],
    ) -> io::Result<()>
        requires { at + length bytes.now ≤ 2 ^ 40 }
    {
        // Past its limit the system would end the program by a signal.
        if at + bytes.len() as u64 > self.longest {
            return Err(io::Error::from(ErrorKind::FileTooLarge));
        }
        match self.find(files, number, true)? {
            Some(open) => open.file.write_at(at, bytes),
            None => Err(io::Error::from(ErrorKind::NotFound)),
        }
    }

    /// Puts the file on the disk; nothing where it isn't there.
    pub(crate) fn sync<R: Files<File = File>>(&mut self, files: &R, number: u32) -> io::Result<()> {
        let turn = self.turn;
        match self.find(files, number, false)? {
            Some(open) => open.sync(files, turn),
            None => Ok(()),
        }
    }

    /// The file, which is opened where it isn't yet, and made where it isn't there if `makes`. None
    /// where it isn't there.
    fn find<R: Files<File = File>>(
        &mut self,
        files: &R,
        number: u32,
        makes: bool,
    ) -> io::Result<Option<&mut Numbered>> {
        let place = match self.place_of(number) {
            Some(place) => place,
            None => match self.open_file(files, number, makes)? {
                Some(file) => self.keep(files, number, file)?,
                None => return Ok(None),
            },
        };
        self.settle(files, place)?;
        Ok(self.open[place].as_mut())
    }

    /// The place of the file, if it is open.
    fn place_of(&self, number: u32) -> Option<usize>
        ensures { IfSome result (λ place. place < 32) }
    {
        self.open.iter().position(|open| open.as_ref().is_some_and(|open| open.number == number))
    }

    /// Opens the file, or makes it where it isn't there if `makes`.
    ///
    /// File 0 that wasn't there stays so until it is made here, and is then made only where still
    /// nobody has: who made it meanwhile may have committed into it, and ended.
    fn open_file<R: Files<File = File>>(
        &mut self,
        files: &R,
        number: u32,
        makes: bool,
    ) -> io::Result<Option<File>> {
        let name = file_name(number);
        let is_first = number == FIRST;
        if !is_first || !self.is_first_absent {
            let file = open_plain(files, name.as_str(), is_first)?;
            if file.is_some() {
                return Ok(file);
            }
        }
        if is_first {
            self.is_first_absent = true;
        }
        if !makes {
            return Ok(None);
        }
        Ok(Some(make_plain(files, name.as_str(), is_first)?))
    }

    /// Keeps an open file, and answers its place.
    ///
    /// The file that stands there is synced before it is closed, where that is needed: once it is
    /// opened again, nobody would know any more what wasn't on the disk. Where that fails it stays
    /// open, and the next file gets the next place.
    fn keep<R: Files<File = File>>(
        &mut self,
        files: &R,
        number: u32,
        file: File,
    ) -> io::Result<usize>
        ensures { IfOk result (λ place. place < 32) }
    {
        let place = if number == FIRST { 0 } else { self.next };
        if number != FIRST {
            self.next = if place + 1 < PLACES { place + 1 } else { 1 };
        }
        let turn = self.turn;
        if let Some(old) = &mut self.open[place] {
            if old.file.needs_sync() {
                old.sync(files, turn)?;
            }
        }
        self.open[place] = Some(Numbered {
            number,
            file: SyncedFile::new(file),
            is_settled: false,
            seen: None,
        });
        Ok(place)
    }

    /// Settles the file at the place where it isn't yet, and puts its name on the disk.
    ///
    /// That is done for each file that is opened, and not only for one that this program made: who
    /// made the file may have ended before it synced the folder.
    fn settle<R: Files<File = File>>(&mut self, files: &R, place: usize) -> io::Result<()>
        requires { place < 32 }
    {
        let Some(open) = &mut self.open[place] else {
            return Ok(());
        };
        if open.is_settled {
            return Ok(());
        }
        if self.is_name_lost {
            return Err(io::Error::from(ErrorKind::Other));
        }
        open.file.settle()?;
        let behind = folder_behind(files, file_name(open.number).as_str())?;
        let current = File::open(files, ".")?;
        let synced = match behind {
            Some(folder) => folder.sync_all().and_then(|()| current.sync_all()),
            None => current.sync_all(),
        };
        self.is_name_lost = synced.is_err();
        open.is_settled = synced.is_ok();
        synced
    }
}

impl Numbered {
    /// Puts the file on the disk, where its name still means it.
    ///
    /// The name is looked at once a turn, before its first sync: what is committed into a file that
    /// was removed or replaced is found by nobody.
    fn sync<R: Files<File = File>>(&mut self, files: &R, turn: u64) -> io::Result<()> {
        if self.seen != Some(turn) {
            check_name(
                files,
                file_name(self.number).as_str(),
                self.file.open_file(),
            )?;
            self.seen = Some(turn);
        }
        self.file.sync()
    }
}

/// The length that the system lets a file have.
fn longest_file() -> u64 {
    let mut limit = rlimit {
        rlim_cur: u64::MAX,
        rlim_max: u64::MAX,
    };
    if libc::getrlimit(RLIMIT_FSIZE, &mut limit) == 0 {
        limit.rlim_cur
    } else {
        u64::MAX
    }
}
