//! A host over real files with a console in memory, which is stopped or refused at one call.
ghost use Rattle.std.specs.Prelude.{◌≡◌, ◌+◌, ◌≤◌, IsOk, OnErr};
ghost use Rattle.odb_device.specs.Counts.{Rose};

use odb_device::{Console, Failed, Host, Outside, Store};
use std::alloc::Global;
use std::fmt;
use std::fmt::{Display, Formatter};
use std::marker::Model;

/// How the call that was chosen ends.
#[derive(Clone, Copy, Debug, PartialEq, Eq)]
pub(crate) enum Ending {
    /// As if the program were killed before it: nothing is done and nothing said from then on.
    Stopped,
    /// It fails, and those after it don't.
    Refused,
}

impl Display for Ending {
    fn fmt<W: fmt::Write>(&self, f: &mut Formatter<W>) -> fmt::Result {
        f.write_str(match self {
            Ending::Stopped => "stopped",
            Ending::Refused => "refused",
        })
    }
}

/// Which call of the store is the chosen one. They are numbered from 0, from the first `take` on.
#[derive(Clone, Copy)]
struct Course {
    ending: Ending,
    // How many calls come before the chosen one; none are numbered before the first `take`.
    left: u32,
    is_begun: bool,
    is_past: bool,
}

impl Course {
    /// Whether the next call of the store is made.
    fn goes_on(&mut self) -> bool {
        if !self.is_begun {
            return true;
        }
        if self.is_past {
            return self.ending == Ending::Refused;
        }
        self.is_past = self.left == 0;
        self.left = self.left.saturating_sub(1);
        !self.is_past
    }

    /// Whether the program counts as killed.
    fn is_over(&self) -> bool {
        self.is_past && self.ending == Ending::Stopped
    }
}

/// How often the files and the output failed, and whether the end of the input was met.
#[derive(Clone, Copy, Debug)]
pub(crate) struct Counts {
    file_faults: u64,
    say_faults: u64,
    has_ended: bool,
}

/// The answer of a call, whose failure is counted.
fn counted<T>(answer: Result<T, Failed>, faults: &mut u64) -> Result<T, Failed>
    ensures answer { result ≡ answer }
    ensures same { IsOk answer → faults.new ≡ faults.old }
    ensures risen { OnErr answer (Rose faults.old faults.new) }
    ensures kept { faults.old ≤ faults.new }
    ensures once { faults.new ≤ faults.old + 1 }
{
    if answer.is_err() {
        *faults = faults.saturating_add(1);
    }
    answer
}

/// A store, and a console in memory.
#[derive(Drop)]
pub(crate) struct Stopping<'a, S: Store + Drop> {
    store: S,
    // What of the script wasn't taken yet.
    script: &'a [u8],
    said: Vec<u8>,
    course: Course,
    counts: Counts,
}

impl<'a, S: Store + Drop> Stopping<'a, S> {
    /// A host that ends so at its call of this number.
    pub(crate) fn new(
        alloc: Global,
        store: S,
        script: &'a [u8],
        call: u32,
        ending: Ending,
    ) -> Stopping<'a, S> {
        Stopping {
            store,
            script,
            said: Vec::new(alloc),
            course: Course {
                ending,
                left: call,
                is_begun: false,
                is_past: false,
            },
            counts: Counts {
                file_faults: 0,
                say_faults: 0,
                has_ended: false,
            },
        }
    }

    /// What was said.
    pub(crate) fn said(&self) -> &[u8] {
        self.said.as_slice()
    }
}

impl<'a, S: Store + Drop> Model for Stopping<'a, S> {
    ghost use Rattle.real_folder.specs.declared.stopping.Counts.{Counts};

    ghost Value = { Counts };

    ghost view = { λ s. s.counts };
}

impl<'a, S: Store + Drop> Outside for Stopping<'a, S> {
    ghost use Rattle.real_folder.specs.Untold.{untold_world};

    ghost world = { untold_world };
}

impl<'a, S: Store + Drop> Store for Stopping<'a, S> {
    ghost reads_image = { λ s file. tt };

    fn length(&mut self, file: u32) -> Result<u64, Failed> {
        let answer = if self.course.goes_on() {
            self.store.length(file)
        } else {
            Err(Failed)
        };
        counted(answer, &mut self.counts.file_faults)
    }

    fn read_at(&mut self, file: u32, at: u64, out: &mut [u8]) -> Result<usize, Failed> {
        let answer = if self.course.goes_on() {
            self.store.read_at(file, at, out)
        } else {
            Err(Failed)
        };
        counted(answer, &mut self.counts.file_faults)
    }

    fn write_at(&mut self, file: u32, at: u64, bytes: &[u8]) -> Result<(), Failed> {
        let answer = if self.course.goes_on() {
            self.store.write_at(file, at, bytes)
        } else {
            Err(Failed)
        };
        counted(answer, &mut self.counts.file_faults)
    }

    fn sync(&mut self, file: u32) -> Result<(), Failed> {
        let answer = if self.course.goes_on() {
            self.store.sync(file)
        } else {
            Err(Failed)
        };
        counted(answer, &mut self.counts.file_faults)
    }
}

impl<'a, S: Store + Drop> Console for Stopping<'a, S> {
    /// The next piece of the script.
    fn take(&mut self, out: &mut [u8]) -> Result<usize, Failed> {
        self.course.is_begun = true;
        let n = self.script.len().min(out.len());
        out[..n].copy_from_slice(&self.script[..n]);
        self.script = &self.script[n..];
        self.counts.has_ended = n == 0 || self.counts.has_ended;
        Ok(n)
    }

    /// All of the bytes, where the program isn't killed yet.
    fn say(&mut self, bytes: &[u8]) -> Result<usize, Failed> {
        let answer = if self.course.is_over() || self.said.extend_from_slice(bytes).is_err() {
            Err(Failed)
        } else {
            Ok(bytes.len())
        };
        counted(answer, &mut self.counts.say_faults)
    }
}

impl<'a, S: Store + Drop> Host for Stopping<'a, S> {}
