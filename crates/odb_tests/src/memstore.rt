//! The console of a host in memory, and a link. Of its files the rows of the store in memory tell.
use odb_device::{Console, Link};
use odb_memstore::{MemError, MemHost, MemLink};
use std::alloc::Global;
use std::test::Fail;

/// Takes these bytes where there is room for three.
fn takes<C: Console>(console: &mut C, bytes: &[u8]) -> bool {
    let mut out = [0; 3];
    match console.take(&mut out) {
        Ok(n) => &out[..n] == bytes,
        Err(_) => false,
    }
}

/// Says the whole of these bytes.
fn says<C: Console>(console: &mut C, bytes: &[u8]) -> bool {
    !bytes.is_empty() && console.say(bytes) == Ok(bytes.len())
}

/// Receives these bytes where there is room for three.
fn receives<L: Link>(link: &mut L, bytes: &[u8]) -> bool {
    let mut out = [0; 3];
    match link.receive(&mut out) {
        Ok(n) => &out[..n] == bytes,
        Err(_) => false,
    }
}

/// Sends the whole of these bytes.
fn sends<L: Link>(link: &mut L, bytes: &[u8]) -> bool {
    !bytes.is_empty() && link.send(bytes) == Ok(bytes.len())
}

/// A host with room for 4 bytes and for 7 calls, whose second call is to fail.
fn host_with(alloc: Global, input: &[u8]) -> Result<MemHost, MemError> {
    let mut host = MemHost::new(alloc, 4, 7)?;
    host.feed(alloc, input)?;
    host.fail(alloc, 1)?;
    Ok(host)
}

/// The second call is listed, and the eighth finds no place.
fn takes_to_the_end<C: Console>(console: &mut C) -> [bool; 4] {
    [
        takes(console, b"STA"),
        !takes(console, b"RT"),
        takes(console, b"RT"),
        takes(console, b""),
    ]
}

/// The first and the last have no room.
fn says_in_pieces<C: Console>(console: &mut C) -> [bool; 4] {
    [
        !says(console, b"12345"),
        says(console, b"0 "),
        says(console, b"OK"),
        !says(console, b"1"),
    ]
}

#[test]
fn takes_to_the_end_and_says_in_pieces(rt: HostRuntime) -> Result<(), Fail> {
    let mut host = host_with(rt.alloc(), b"START")?;
    let found = [
        takes_to_the_end(&mut host) == [true; 4],
        says_in_pieces(&mut host) == [true; 4],
        host.said() == b"0 OK".as_slice(),
        host.calls() == 6,
        takes(&mut host, b""),
        !takes(&mut host, b""),
        host.calls() == 7,
    ];
    assert_eq!(rt; found, [true; 7]);
    Ok(())
}

/// The third call is listed, and the fourth has one byte of room.
fn passes_on<L: Link>(link: &mut L) -> [bool; 6] {
    [
        receives(link, b"abc"),
        sends(link, b"xyz"),
        !receives(link, b"d"),
        !sends(link, b"12"),
        receives(link, b"d"),
        receives(link, b""),
    ]
}

#[test]
fn links_two_lists(rt: HostRuntime) -> Result<(), Fail> {
    let mut link = MemLink::new(rt.alloc(), b"abcd", 4)?;
    link.fail(rt.alloc(), 2)?;
    assert_eq!(rt; passes_on(&mut link), [true; 6]);
    assert_eq!(rt; link.sent(), b"xyz".as_slice());
    Ok(())
}
