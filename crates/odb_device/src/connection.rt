//! A link and a listener, each call in the words of specs/.
ghost use Rattle.std.specs.Prelude.{◌≡◌, ◌<◌, ◌≤◌, ℕ, length, take, IfOk, OnOk, OnErr};
ghost use Rattle.odb_device.specs.Counts.{Rose};
ghost use Rattle.odb_device.specs.Connections.{Wire, Receives, ReceivesNothing, EndsReceiving, Sends, SendsNothing, Front, stage_after};
ghost use Rattle.odb_device.specs.Connections.Stage.{Idle, Listening};

use crate::Failed;

/// The two directions of one connection, with one count of faults.
pub trait Link {
    /// The bytes received and sent, whether the input has ended, and the count of faults.
    ghost wire: { Self → Wire };

    /// Receives the next bytes, at most as many as `out` holds, and answers how many; 0 at the end
    /// of the input.
    ///
    /// What `out` holds behind them, and after `Failed`, isn't said.
    fn receive(&mut self, out: &mut [u8]) -> Result<usize, Failed>
        requires { 0 < length out.old }
        ensures count { (wire self.old).faults ≤ (wire self.new).faults }
        ensures output { SendsNothing (wire self.old) (wire self.new) }
        ensures bound { IfOk result (λ n. n ≤ length out.new) }
        ensures received { IfOk result
            (λ n. Receives (take n out.new) (wire self.old) (wire self.new)) }
        ensures ended { IfOk result (λ n. EndsReceiving n (wire self.old) (wire self.new)) }
        ensures failed { OnErr result (ReceivesNothing (wire self.old) (wire self.new)) }
        ensures cause { OnErr result (Rose (wire self.old).faults (wire self.new).faults) };

    /// Sends a front of the bytes, and answers how many, at least 1. A peer that takes nothing is a
    /// fault.
    fn send(&mut self, bytes: &[u8]) -> Result<usize, Failed>
        requires { 0 < length bytes.now }
        ensures count { (wire self.old).faults ≤ (wire self.new).faults }
        ensures input { ReceivesNothing (wire self.old) (wire self.new) }
        ensures bound { IfOk result (λ n. (0 < n) × (n ≤ length bytes.now)) }
        ensures sent { IfOk result (λ n. Sends (take n bytes.now) (wire self.old) (wire self.new)) }
        ensures failed { OnErr result (SendsNothing (wire self.old) (wire self.new)) }
        ensures cause { OnErr result (Rose (wire self.old).faults (wire self.new).faults) };
}

/// Where connections come from, with one count of faults.
pub trait Listener {
    /// One connection.
    type Conn: Link;

    /// How far the listener is, and its count of faults.
    ghost front: { Self → Front };

    /// Begins to listen at a port of this machine. It is called before `accept`, and again only
    /// after `Failed`.
    fn listen(&mut self, port: u16) -> Result<(), Failed>
        requires { (front self.old).stage ≡ Idle }
        ensures count { (front self.old).faults ≤ (front self.new).faults }
        ensures listens { OnOk result ((front self.new).stage ≡ Listening) }
        ensures failed { OnErr result ((front self.new).stage ≡ Idle) }
        ensures cause { OnErr result (Rose (front self.old).faults (front self.new).faults) };

    /// The next connection. None ends the listening; after `Failed` it goes on.
    fn accept(&mut self) -> Result<Option<Self::Conn>, Failed>
        requires { (front self.old).stage ≡ Listening }
        ensures count { (front self.old).faults ≤ (front self.new).faults }
        ensures stage { IfOk result (λ next. (front self.new).stage ≡ stage_after next) }
        ensures failed { OnErr result ((front self.new).stage ≡ Listening) }
        ensures cause { OnErr result (Rose (front self.old).faults (front self.new).faults) };
}
