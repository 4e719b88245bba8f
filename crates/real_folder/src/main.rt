//! Commits through the files of a real folder, stopped or refused at each call of the store in
//! turn; then the database is opened again, and tells what it found.
//!
//! Each line of the output is one play: the replies that were said, and the status.
#![tactic(auto)]

mod stopping;

use crate::stopping::{Ending, Stopping};
use odb_folder::FolderHost;
use odb_tool::run;
use odb_transdb::Transdb;
use std::io::ErrorKind;
use std::{fs, io, str};

/// The size of a side, in KiB: the least.
const SIDE_KIB: u32 = 64;

/// Which calls of the store are chosen. The first commit makes six: a read of what lies behind the
/// list, two writes, a sync, the gate and a sync. The second makes five, without the read.
const CALLS: u32 = 12;

/// Two transactions that write one row each.
const SCRIPT: &str = "1 START
1 INSERT INTO KV VALUES (1,10)
1 COMMIT
2 START
2 INSERT INTO KV VALUES (2,20)
2 COMMIT
";

/// Reads all rows.
const LOOK: &str = "3 START
3 SELECT K FROM KV WHERE K > 0
3 COMMIT
";

fn main(rt: HostRuntime) -> io::Result<()> {
    for ending in [Ending::Stopped, Ending::Refused] {
        for call in 0..CALLS {
            make_database(&rt)?;
            print!(rt; "{ending} at call {call}:")?;
            play(&rt, SCRIPT, call, ending)?;
            print!(rt; "  opened again:")?;
            play(&rt, LOOK, u32::MAX, ending)?;
        }
    }
    Ok(())
}

/// A new database without entries, in the place of the one before.
fn make_database(rt: &HostRuntime) -> io::Result<()> {
    match fs::remove_file(rt, "0.odb") {
        Err(error) if error.kind() != ErrorKind::NotFound => return Err(error),
        _ => {}
    }
    match Transdb::create(&mut FolderHost::new(rt), SIDE_KIB, 1) {
        Ok(_) => Ok(()),
        Err(_) => Err(io::Error::from(ErrorKind::Other)),
    }
}

/// Plays the script over the database, and tells the replies and the status.
fn play(rt: &HostRuntime, script: &str, call: u32, ending: Ending) -> io::Result<()> {
    let alloc = rt.alloc();
    let words = vec![in alloc; String::from_str(alloc, "play")?]?;
    let folder = FolderHost::new(rt);
    let mut host = Stopping::new(alloc, folder, script.as_bytes(), call, ending);
    let status = run(alloc, words.as_slice(), &mut host);
    for line in str::from_utf8(host.said()).unwrap_or("no text").lines() {
        print!(rt; " {line},")?;
    }
    println!(rt; " status {}", status.number())
}
