//! All of a text over a console that takes its time.
use odb_device::{Console, Failed, Outside, say_all};
use std::alloc::Global;

/// Takes at most `most` bytes a call, and fails at the call of this number. Each byte said is a
/// moment.
#[derive(Drop)]
struct SlowConsole {
    said: Vec<u8>,
    most: usize,
    fails_at: u64,
    calls: u64,
    faults: u64,
    has_ended: bool,
}

impl SlowConsole {
    fn new(alloc: Global, most: usize, fails_at: u64) -> SlowConsole {
        SlowConsole {
            said: Vec::new(alloc),
            most,
            fails_at,
            calls: 0,
            faults: 0,
            has_ended: false,
        }
    }
}

impl Outside for SlowConsole {
    ghost use Rattle.std.specs.Prelude.{None, Some, false, length, take};

    ghost world = { λ s. record {
      time = length s.said.items;
      moment = λ k. record {
        files = λ _. None;
        said = Some (take k s.said.items);
        faults = λ _. 0;
      };
      talk = record {
        taken = None;
        has_ended = s.has_ended;
        take_faults = 0;
        say_faults = s.faults;
      };
    } };
}

impl Console for SlowConsole {
    fn take(&mut self, _out: &mut [u8]) -> Result<usize, Failed> {
        self.has_ended = true;
        Ok(0)
    }

    fn say(&mut self, bytes: &[u8]) -> Result<usize, Failed> {
        let call = self.calls;
        self.calls = call.saturating_add(1);
        let n = bytes.len().min(self.most);
        if call == self.fails_at || n == 0 || self.said.extend_from_slice(&bytes[..n]).is_err() {
            self.faults = self.faults.saturating_add(1);
            return Err(Failed);
        }
        Ok(n)
    }
}

/// What a console was told, whether that was done, and in how many calls and faults.
type Told = (Vec<u8>, bool, u64, u64);

/// Says all of a line.
fn tell(alloc: Global, most: usize, fails_at: u64, line: &[u8]) -> Told {
    let mut console = SlowConsole::new(alloc, most, fails_at);
    let done = say_all(&mut console, line).is_ok();
    (console.said, done, console.calls, console.faults)
}

#[test]
fn says_all_in_few_calls(rt: HostRuntime) {
    let line = b"1 COMMITTED 1\n".as_slice();
    for (most, fails_at, line, said, calls, faults) in [
        (100, 9, line, line, 1, 0),
        (7, 9, line, line, 2, 0),
        (5, 9, line, line, 3, 0),
        (5, 1, line, b"1 COM".as_slice(), 2, 1),
        (5, 0, line, b"".as_slice(), 1, 1),
        (5, 0, b"".as_slice(), b"".as_slice(), 0, 0),
    ] {
        let told = tell(rt.alloc(), most, fails_at, line);
        assert_eq!(rt; told.0.as_slice(), said);
        assert_eq!(rt; (told.1, told.2, told.3), (faults == 0, calls, faults));
    }
}
