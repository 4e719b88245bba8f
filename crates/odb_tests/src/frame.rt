//! Frames over a link that takes its time.
use odb_device::{Failed, Link};
use odb_frame::{FrameError, read_frame, write_frame};
use std::alloc::Global;
use std::test::Fail;

/// Gives and takes at most `most` bytes a call, and fails at the call of this number. It tells no
/// bytes.
#[derive(Drop)]
struct SlowLink {
    input: Vec<u8>,
    at: usize,
    sent: Vec<u8>,
    most: usize,
    fails_at: u64,
    calls: u64,
    has_ended: bool,
    faults: u64,
}

impl SlowLink {
    fn new(alloc: Global, input: &[u8], most: usize, fails_at: u64) -> Result<SlowLink, Fail> {
        Ok(SlowLink {
            input: Vec::from_slice(alloc, input)?,
            at: 0,
            sent: Vec::new(alloc),
            most,
            fails_at,
            calls: 0,
            has_ended: false,
            faults: 0,
        })
    }
}

impl Link for SlowLink {
    ghost use Rattle.std.specs.Prelude.{None};

    ghost wire = { λ l. record {
      received = None;
      sent = None;
      has_ended = l.has_ended;
      faults = l.faults;
    } };

    fn receive(&mut self, out: &mut [u8]) -> Result<usize, Failed> {
        let call = self.calls;
        self.calls = call.saturating_add(1);
        if call == self.fails_at {
            self.faults = self.faults.saturating_add(1);
            return Err(Failed);
        }
        let from = self.at.min(self.input.len());
        let n = (self.input.len() - from).min(self.most).min(out.len());
        out[..n].copy_from_slice(&self.input[from..from + n]);
        self.at = from + n;
        self.has_ended = n == 0 || self.has_ended;
        Ok(n)
    }

    fn send(&mut self, bytes: &[u8]) -> Result<usize, Failed> {
        let call = self.calls;
        self.calls = call.saturating_add(1);
        let n = bytes.len().min(self.most);
        if call == self.fails_at || n == 0 || self.sent.extend_from_slice(&bytes[..n]).is_err() {
            self.faults = self.faults.saturating_add(1);
            return Err(Failed);
        }
        Ok(n)
    }
}

/// The next frame has this body.
fn reads(alloc: Global, link: &mut SlowLink, body: &[u8]) -> bool {
    match read_frame(alloc, link) {
        Ok(Some(found)) => found.as_slice() == body,
        _ => false,
    }
}

/// The input has ended before the next frame.
fn ends(alloc: Global, link: &mut SlowLink) -> bool {
    match read_frame(alloc, link) {
        Ok(None) => true,
        _ => false,
    }
}

/// The next frame is refused so.
fn refuses(alloc: Global, link: &mut SlowLink, wanted: FrameError) -> bool {
    match read_frame(alloc, link) {
        Err(error) => error == wanted,
        Ok(_) => false,
    }
}

#[test]
fn reads_frames_however_they_are_cut(rt: HostRuntime) -> Result<(), Fail> {
    let alloc = rt.alloc();
    for most in [1, 3, 100] {
        let mut link = SlowLink::new(alloc, b"\0\0\0\x02hi\0\0\0\0\0\0\0\x01x", most, 99)?;
        assert!(rt; reads(alloc, &mut link, b"hi"));
        assert!(rt; reads(alloc, &mut link, b""));
        assert!(rt; reads(alloc, &mut link, b"x"));
        assert!(rt; ends(alloc, &mut link));
    }
    Ok(())
}

#[test]
fn refuses_what_is_no_frame(rt: HostRuntime) -> Result<(), Fail> {
    let alloc = rt.alloc();
    for (input, fails_at, wanted, taken) in [
        (
            b"\0\x01\0\x01rest".as_slice(),
            99,
            FrameError::TooLong { length: 65_537 },
            4,
        ),
        (b"\0\x01\0\0rest".as_slice(), 99, FrameError::Cut, 8),
        (b"\0\0".as_slice(), 99, FrameError::Cut, 2),
        (b"\0\0\0\x03hi".as_slice(), 99, FrameError::Cut, 6),
        (b"\0\0\0\x02hi".as_slice(), 0, FrameError::LinkFault, 0),
        (b"\0\0\0\x02hi".as_slice(), 1, FrameError::LinkFault, 4),
    ] {
        let mut link = SlowLink::new(alloc, input, 4, fails_at)?;
        assert!(rt; refuses(alloc, &mut link, wanted));
        assert_eq!(rt; link.at, taken);
    }
    Ok(())
}

#[test]
fn writes_frames(rt: HostRuntime) -> Result<(), Fail> {
    let alloc = rt.alloc();
    for (most, fails_at, done, sent) in [
        (100, 99, true, b"\0\0\0\x02hi".as_slice()),
        (3, 99, true, b"\0\0\0\x02hi".as_slice()),
        (3, 1, false, b"\0\0\0".as_slice()),
        (100, 1, false, b"\0\0\0\x02".as_slice()),
    ] {
        let mut link = SlowLink::new(alloc, b"", most, fails_at)?;
        assert_eq!(rt; write_frame(&mut link, b"hi").is_ok(), done);
        assert_eq!(rt; link.sent.as_slice(), sent);
        assert_eq!(rt; link.faults, u64::from(!done));
    }
    Ok(())
}
