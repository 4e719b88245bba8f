//! The program's own host, in a folder of its own and at the streams of the test.
//!
//! What a test finds is gathered in a list, by a function over any host where one will do, and
//! compared once: each comparison is proved too.
use odb_device::{Console, Host, Store};
use odb_folder::{Counts, FolderHost};
use std::os::unix::fs::{MetadataExt, symlink};
use std::rt::Env;
use std::{fs, io};

/// Makes a new folder, below the one where the test was started, and goes there.
pub(crate) fn enter(rt: &HostRuntime, folder: &str) -> io::Result<()> {
    let _ = fs::remove_dir_all(rt, folder);
    fs::create_dir(rt, folder)?;
    rt.set_current_dir(folder)
}

/// Goes back and removes the folder.
pub(crate) fn leave(rt: &HostRuntime, folder: &str) -> io::Result<()> {
    rt.set_current_dir("..")?;
    fs::remove_dir_all(rt, folder)
}

/// Whether a read into 8 bytes from the byte `at` on gives just these.
fn reads<S: Store>(store: &mut S, file: u32, at: u64, expected: &[u8]) -> bool {
    let mut out = [b'?'; 8];
    match store.read_at(file, at, &mut out) {
        Ok(n) => &out[..n] == expected,
        Err(_) => false,
    }
}

/// Whether each call on the file fails.
fn refuses<S: Store>(store: &mut S, file: u32) -> bool {
    let mut out = [0; 8];
    store.length(file).is_err()
        && store.read_at(file, 0, &mut out).is_err()
        && store.write_at(file, 0, b"HELLO").is_err()
        && store.sync(file).is_err()
}

/// Whether the file of this name holds just these bytes.
fn holds(rt: &HostRuntime, name: &str, expected: &[u8]) -> bool {
    fs::read(rt, name).is_ok_and(|bytes| bytes.as_slice() == expected)
}

/// The values of a host's counts: of the files, of `take` and of `say`.
fn faults(counts: Counts) -> (u64, u64, u64) {
    (counts.file_faults, counts.take_faults, counts.say_faults)
}

/// A host can be moved into a thread.
fn is_send<T: Send>(_host: &T) {}

/// Gaps are zeros, whether bytes follow or not, and reads end with the file or the room for them.
fn keeps_files<S: Store>(rt: &HostRuntime, host: &mut S) -> [bool; 8] {
    [
        host.length(5) == Ok(0) && reads(host, 5, 0, b"") && host.sync(5).is_ok(),
        fs::metadata(rt, "5.odb").is_err(),
        host.write_at(5, 4, b"hello").is_ok() && host.write_at(5, 6, b"LL").is_ok(),
        host.write_at(5, 11, b"").is_ok() && host.write_at(5, 2, b"").is_ok(),
        host.length(5) == Ok(11) && holds(rt, "5.odb", b"\0\0\0\0heLLo\0\0"),
        reads(host, 5, 1, b"\0\0\0heLLo") && reads(host, 5, 7, b"Lo\0\0"),
        reads(host, 5, 11, b"") && reads(host, 5, u64::MAX, b""),
        host.write_at(u32::MAX, 0, b"").is_ok() && holds(rt, "4294967295.odb", b""),
    ]
}

#[test]
fn files_are_kept(rt: HostRuntime) -> io::Result<()> {
    enter(&rt, "odb_files_test")?;
    let mut host = FolderHost::new(&rt);
    let found = keeps_files(&rt, &mut host);
    assert_eq!(rt; (found, faults(host.counts())), ([true; 8], (0, 0, 0)));
    leave(&rt, "odb_files_test")
}

/// Writes more files than are open at once, and syncs some of them.
fn write_many<S: Store>(store: &mut S) -> bool {
    (100..140u32).all(|file| {
        store
            .write_at(file, 0, file.to_be_bytes().as_slice())
            .is_ok()
            && (file % 8 != 0 || store.sync(file).is_ok())
    })
}

/// Whether all of these are found.
fn finds_many<S: Store>(store: &mut S) -> bool {
    (100..140u32).all(|file| reads(store, file, 0, file.to_be_bytes().as_slice()))
}

/// Whether both find what the one has written.
fn shares_many<S: Store>(host: &mut S, next: &mut S) -> bool {
    write_many(host) && finds_many(host) && finds_many(next)
}

#[test]
fn the_next_host_finds_them(rt: HostRuntime) -> io::Result<()> {
    enter(&rt, "odb_hosts_test")?;
    let mut host = FolderHost::new(&rt);
    let mut next = FolderHost::new(&rt);
    let found = shares_many(&mut host, &mut next);
    assert_eq!(rt;
        (found, faults(host.counts()), faults(next.counts())),
        (true, (0, 0, 0), (0, 0, 0))
    );
    leave(&rt, "odb_hosts_test")
}

/// A file with two names, a link to nowhere, a device, a folder, and a link to a plain file.
fn lay_out(rt: &HostRuntime) -> io::Result<()> {
    fs::write(rt, "twice", b"hello")?;
    fs::hard_link(rt, "twice", "5.odb")?;
    symlink(rt, "nowhere", "6.odb")?;
    symlink(rt, "/dev/full", "7.odb")?;
    fs::create_dir(rt, "8.odb")?;
    fs::write(rt, "8.odb/away", b"hello")?;
    symlink(rt, "8.odb/away", "9.odb")
}

/// Four files, each call on which fails, and one that is there.
fn tells_plain_files<S: Store>(rt: &HostRuntime, host: &mut S) -> [bool; 6] {
    [
        refuses(host, 5) && holds(rt, "twice", b"hello"),
        refuses(host, 6) && fs::metadata(rt, "nowhere").is_err(),
        refuses(host, 7),
        refuses(host, 8),
        host.write_at(9, 0, b"H").is_ok() && host.sync(9).is_ok(),
        holds(rt, "8.odb/away", b"Hello"),
    ]
}

#[test]
fn what_is_no_plain_file_is_a_fault(rt: HostRuntime) -> io::Result<()> {
    enter(&rt, "odb_faults_test")?;
    lay_out(&rt)?;
    let mut host = FolderHost::new(&rt);
    let found = tells_plain_files(&rt, &mut host);
    assert_eq!(rt; (found, faults(host.counts())), ([true; 6], (16, 0, 0)));
    leave(&rt, "odb_faults_test")
}

/// Whether nobody but the owner may read or write the file of this name.
fn is_private(rt: &HostRuntime, name: &str) -> bool {
    fs::metadata(rt, name).is_ok_and(|file| file.mode() & 0o777 == 0o600)
}

/// File 0 belongs to the host that opened it, and to nobody else until that one is gone. Who was told
/// that it isn't there may not write into it.
fn holds_alone<S: Store + Drop>(
    rt: &HostRuntime,
    mut late: S,
    mut second: S,
    mut holder: S,
) -> [bool; 6] {
    let found = [
        late.length(0) == Ok(0),
        holder.write_at(0, 0, b"hello").is_ok(),
        is_private(rt, "0.odb"),
        write_many(&mut holder) && refuses(&mut second, 0),
    ];
    holder = second;
    [
        found[0],
        found[1],
        found[2],
        found[3],
        late.write_at(0, 0, b"H").is_err(),
        reads(&mut holder, 0, 0, b"hello"),
    ]
}

#[test]
fn one_host_holds_file_0(rt: HostRuntime) -> io::Result<()> {
    enter(&rt, "odb_lock_test")?;
    let found = holds_alone(
        &rt,
        FolderHost::new(&rt),
        FolderHost::new(&rt),
        FolderHost::new(&rt),
    );
    assert_eq!(rt; found, [true; 6]);
    leave(&rt, "odb_lock_test")
}

/// Nothing is put on the disk under a name that means another file, or none. After the first sync a
/// name is looked at again once the program has waited for input.
fn syncs_by_name<H: Host>(rt: &HostRuntime, host: &mut H) -> [bool; 6] {
    [
        host.write_at(0, 0, b"hello").is_ok(),
        fs::rename(rt, "0.odb", "away").is_ok() && host.sync(0).is_err(),
        fs::write(rt, "0.odb", b"other").is_ok() && host.sync(0).is_err(),
        fs::rename(rt, "away", "0.odb").is_ok() && host.sync(0).is_ok(),
        fs::remove_file(rt, "0.odb").is_ok() && host.take(&mut [0; 8]) == Ok(0),
        host.sync(0).is_err(),
    ]
}

#[test]
fn a_file_that_is_gone_is_not_synced(rt: HostRuntime) -> io::Result<()> {
    enter(&rt, "odb_gone_test")?;
    let mut host = FolderHost::new(&rt);
    let found = syncs_by_name(&rt, &mut host);
    assert_eq!(rt; (found, faults(host.counts())), ([true; 6], (3, 0, 0)));
    leave(&rt, "odb_gone_test")
}

/// The standard input of a test is at its end, and its standard output takes text.
#[test]
fn streams_are_used(rt: HostRuntime) {
    let mut host = FolderHost::new(rt);
    is_send(&host);
    let mut out = [0; 8];
    let answers = (host.say(b"said by a test\n"), host.take(&mut out));
    let counts = host.counts();
    assert_eq!(rt; answers, (Ok(15), Ok(0)));
    assert_eq!(rt; (counts.has_ended, faults(counts)), (true, (0, 0, 0)));
}
