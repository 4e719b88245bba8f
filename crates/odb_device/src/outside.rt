//! Files and a console, each call in the words of specs/.
ghost use Rattle.std.specs.Prelude.{◌≡◌, ◌+◌, ◌^◌, ◌<◌, ◌≤◌, ℕ, length, take, IfOk, OnOk, OnErr};
ghost use Rattle.odb_device.specs.World.{World, file_of};
ghost use Rattle.odb_device.specs.Images.{ReadsImage};
ghost use Rattle.odb_device.specs.Calls.{CallsOn, HasCause, Stays, Writes, Tears, Keeps, Unsettles, HasLength, HasRead};
ghost use Rattle.odb_device.specs.Console.{Talks, TakeCountRose, SayCountRose, Says, SaysNothing, Takes, TakesNothing, EndsInput};

/// The outside failed, and the count of faults of the file, the direction, the link or the listener
/// rose.
#[derive(Clone, Copy, Debug, PartialEq, Eq)]
pub struct Failed;

/// What a store and a console show to proofs together.
///
/// It stands above both, so that a function that is generic over a store can say that nothing was
/// said.
pub trait Outside {
    /// The moments so far with the files and the bytes said, the bytes taken, and the counts of
    /// faults.
    ghost world: { Self → World };
}

/// Files with numbers, each with a count of faults.
///
/// Between two syncs of a file a crash may leave any bytes in each range written and past the
/// synced end; the other bytes stay. The file may also be cut back as far as to its length at the
/// last sync. Clauses on content say something of told files alone.
pub trait Store: Outside {
    /// The file's length in bytes. A file that was never written has length 0.
    fn length(&mut self, file: u32) -> Result<u64, Failed>
        ensures call { CallsOn file (Self.world self.old) (Self.world self.new) }
        ensures same { Stays file (Self.world self.old) (Self.world self.new) }
        ensures length { IfOk result (λ n. HasLength (file_of file (Self.world self.old)) n) }
        ensures cause { HasCause file (Self.world self.old) (Self.world self.new) result };

    /// Reads from the byte `at` on, to the end of the file or of `out`, whichever comes first, and
    /// answers how many bytes.
    ///
    /// What `out` holds behind them, and after `Failed`, isn't said.
    fn read_at(&mut self, file: u32, at: u64, out: &mut [u8]) -> Result<usize, Failed>
        ensures call { CallsOn file (Self.world self.old) (Self.world self.new) }
        ensures same { Stays file (Self.world self.old) (Self.world self.new) }
        ensures bound { IfOk result (λ n. n ≤ length out.new) }
        ensures bytes { IfOk result
            (λ n. HasRead (file_of file (Self.world self.old)) at n out.new) }
        ensures cause { HasCause file (Self.world self.old) (Self.world self.new) result };

    /// Writes the bytes from the byte `at` on, over what is there and past the end.
    ///
    /// A gap between the old end and `at` reads as zeros, also where there are no bytes to write.
    /// What is written is on the disk only after a `sync`. After `Failed` its range may hold any
    /// bytes, and so may what lies between the old end and the range.
    fn write_at(&mut self, file: u32, at: u64, bytes: &[u8]) -> Result<(), Failed>
        requires { at + length bytes.now ≤ 2 ^ 40 }
        ensures call { CallsOn file (Self.world self.old) (Self.world self.new) }
        ensures written { OnOk result
            (Writes file at bytes.now (Self.world self.old) (Self.world self.new)) }
        ensures torn { OnErr result
            (Tears file at (length bytes.now) (Self.world self.old) (Self.world self.new)) }
        ensures cause { HasCause file (Self.world self.old) (Self.world self.new) result };

    /// Puts the file on the disk: then a crash leaves what a read gives. After `Failed` nothing is
    /// settled, and a read may give other bytes than before: any that a crash might have left.
    fn sync(&mut self, file: u32) -> Result<(), Failed>
        ensures call { CallsOn file (Self.world self.old) (Self.world self.new) }
        ensures kept { OnOk result (Keeps file (Self.world self.old) (Self.world self.new)) }
        ensures unsettled { OnErr result
            (Unsettles file (Self.world self.old) (Self.world self.new)) }
        ensures cause { HasCause file (Self.world self.old) (Self.world self.new) result };

    /// What a told file reads now is one of its images.
    ghost reads_image: { (s : Self) (file : ℕ) → ReadsImage (file_of file (Self.world s)) };
}

/// Input and output, with a count of faults for each.
pub trait Console: Outside {
    /// Takes the next bytes of the input, at most as many as `out` holds, and answers how many; 0
    /// at the end of the input.
    ///
    /// What `out` holds behind them, and after `Failed`, isn't said.
    fn take(&mut self, out: &mut [u8]) -> Result<usize, Failed>
        requires { 0 < length out.old }
        ensures call { Talks (Self.world self.old) (Self.world self.new) }
        ensures output { SaysNothing (Self.world self.old) (Self.world self.new) }
        ensures bound { IfOk result (λ n. n ≤ length out.new) }
        ensures taken { IfOk result
            (λ n. Takes (take n out.new) (Self.world self.old) (Self.world self.new)) }
        ensures ended { IfOk result (λ n. EndsInput n (Self.world self.old) (Self.world self.new)) }
        ensures failed { OnErr result (TakesNothing (Self.world self.old) (Self.world self.new)) }
        ensures cause { OnErr result (TakeCountRose (Self.world self.old) (Self.world self.new)) };

    /// Says a front of the bytes, and answers how many, at least 1. An output that takes nothing is
    /// a fault.
    fn say(&mut self, bytes: &[u8]) -> Result<usize, Failed>
        requires { 0 < length bytes.now }
        ensures call { Talks (Self.world self.old) (Self.world self.new) }
        ensures input { TakesNothing (Self.world self.old) (Self.world self.new) }
        ensures bound { IfOk result (λ n. (0 < n) × (n ≤ length bytes.now)) }
        ensures said { IfOk result
            (λ n. Says (take n bytes.now) (Self.world self.old) (Self.world self.new)) }
        ensures failed { OnErr result (SaysNothing (Self.world self.old) (Self.world self.new)) }
        ensures cause { OnErr result (SayCountRose (Self.world self.old) (Self.world self.new)) };
}

/// Files and a console. A moment of a host is the bytes said so far, the images of its files, and
/// their counts of faults.
pub trait Host: Store + Console {}
