//! The program's own host: a database is made in a folder, and played over twice.
use crate::folder::{enter, leave};
use odb_device::Host;
use odb_folder::FolderHost;
use odb_model::Status;
use odb_tool::run;
use std::alloc::{AllocError, Global};
use std::{fs, io};

/// The words of a command line of one word.
fn words_of(alloc: Global, word: &str) -> Result<Vec<String>, AllocError> {
    let mut words = Vec::new(alloc);
    words.push(String::from_str(alloc, word)?)?;
    Ok(words)
}

/// How the program ends on one word. The input of a test is empty.
fn status_of<H: Host>(alloc: Global, host: &mut H, word: &str) -> Status {
    match words_of(alloc, word) {
        Ok(words) => run(alloc, words.as_slice(), host),
        Err(_) => Status::NoMemory,
    }
}

/// Whether the file of this name has so many bytes.
fn has_length(rt: &HostRuntime, name: &str, length: u64) -> bool {
    fs::metadata(rt, name).is_ok_and(|file| file.len() == length)
}

/// Whether the files of a database are there, with the pair and what lies behind it: two sides of
/// 16,384 KiB, and an extent for each file of a databank. There is no longer log.
fn has_files(rt: &HostRuntime) -> [bool; 5] {
    [
        has_length(rt, "0.odb", 33_555_456),
        fs::metadata(rt, "1.odb").is_err(),
        has_length(rt, "2.odb", 1_049_600),
        has_length(rt, "3.odb", 1_049_600),
        has_length(rt, "4.odb", 1_049_600),
    ]
}

#[test]
fn databases_live_in_the_folder(rt: HostRuntime) -> io::Result<()> {
    enter(&rt, "odb_tool_test")?;
    let alloc = rt.alloc();
    let mut host = FolderHost::new(&rt);
    let found = [
        status_of(alloc, &mut host, "play"),
        status_of(alloc, &mut host, "create"),
        status_of(alloc, &mut host, "play"),
    ];
    let files = has_files(&rt);
    // a host keeps the database to itself, and a new one takes its place
    host = FolderHost::new(&rt);
    let again = [
        status_of(alloc, &mut host, "play"),
        status_of(alloc, &mut host, "create"),
    ];
    assert_eq!(rt; found, [Status::NoDatabase, Status::Done, Status::Done]);
    assert_eq!(rt; files, [true; 5]);
    assert_eq!(rt; again, [Status::Done, Status::Exists]);
    leave(&rt, "odb_tool_test")
}
