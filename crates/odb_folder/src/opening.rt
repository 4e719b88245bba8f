//! Opening the file of a name: what may stand there, its one holder, and the folder that it is in.
ghost use Rattle.std.specs.Prelude.{◌≡◌};

use std::fs::{File, OpenOptions};
use std::io::ErrorKind;
use std::os::fd::AsRawFd;
use std::os::unix::fs::{MetadataExt, OpenOptionsExt};
use std::path::Path;
use std::rt::Files;
use std::{fs, io, str};

/// Who may read and write a file that is made here: its owner alone.
const OWNER_ALONE: u32 = 0o600;

/// Opens the plain file that stands at the name, or where the link of that name leads. None where
/// nothing stands there; a link that leads nowhere is an error.
///
/// Where `is_locked`, the file is locked against every other open until it is closed, and an error
/// where somebody else has it open so.
pub(crate) fn open_plain<R: Files<File = File>>(
    files: &R,
    name: &str,
    is_locked: bool,
) -> io::Result<Option<File>> {
    match fs::metadata(files, name) {
        // What is no plain file isn't even opened: that may have an effect of its own.
        Ok(named) if named.is_file() => {}
        Ok(_) => return Err(io::Error::from(ErrorKind::Unsupported)),
        Err(error) if error.kind() == ErrorKind::NotFound => return absent(files, name),
        Err(error) => return Err(error),
    }
    let file = OpenOptions::new().read(true).write(true).open(files, name)?;
    Ok(Some(taken(files, name, file, is_locked)?))
}

/// None, where not even a link has the name.
fn absent<R: Files<File = File>>(files: &R, name: &str) -> io::Result<Option<File>> {
    match fs::symlink_metadata(files, name) {
        Ok(_) => Err(io::Error::from(ErrorKind::Unsupported)),
        Err(error) if error.kind() == ErrorKind::NotFound => Ok(None),
        Err(error) => Err(error),
    }
}

/// Makes the file, and opens and locks it as `open_plain` does. An error where the name is there.
pub(crate) fn make_plain<R: Files<File = File>>(
    files: &R,
    name: &str,
    is_locked: bool,
) -> io::Result<File> {
    let file = OpenOptions::new()
        .read(true)
        .write(true)
        .create_new(true)
        .mode(OWNER_ALONE)
        .open(files, name)?;
    taken(files, name, file, is_locked)
}

/// A file that was just opened under the name, once it is locked and seen to be what the name
/// means.
fn taken<R: Files<File = File>>(
    files: &R,
    name: &str,
    file: File,
    is_locked: bool,
) -> io::Result<File> {
    // Where the program was started without a standard stream, the system gives that stream's
    // number to the next file that is opened. What is then said must not land in the file, so it
    // gets a number above those of the streams.
    let file = if file.as_raw_fd() > 2 {
        file
    } else {
        file.try_clone()?
    };
    if is_locked {
        file.try_lock()?;
    }
    check_name(files, name, &file)?;
    Ok(file)
}

/// An error where the open file isn't the one that the name means, isn't plain, or has a second
/// name: then what is written here may be read by nobody, or written by somebody else.
pub(crate) fn check_name<R: Files<File = File>>(
    files: &R,
    name: &str,
    file: &File,
) -> io::Result<()> {
    let (open, named) = (file.metadata()?, fs::metadata(files, name)?);
    let is_named = open.dev() == named.dev() && open.ino() == named.ino();
    if !is_named || !open.is_file() || open.nlink() != 1 {
        return Err(io::Error::from(ErrorKind::Unsupported));
    }
    Ok(())
}

/// Opens the folder that the file of the name is in, where the name is a link. None where it isn't:
/// then that is the current folder.
pub(crate) fn folder_behind<R: Files<File = File>>(
    files: &R,
    name: &str,
) -> io::Result<Option<File>> {
    if !fs::symlink_metadata(files, name)?.is_symlink() {
        return Ok(None);
    }
    let mut real = [0u8; libc::PATH_MAX];
    if os::realpath(name.as_bytes(), &mut real) != 0 {
        return Err(io::Error::from_raw_os_error(os::errno()));
    }
    let folder = match str::from_utf8(&real[..os::name_length(&real)]) {
        Ok(path) => Path::new(path).parent(),
        Err(_) => None,
    };
    match folder {
        Some(folder) => Ok(Some(File::open(files, folder)?)),
        None => Err(io::Error::from(ErrorKind::InvalidFilename)),
    }
}
