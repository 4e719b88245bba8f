//! Writing one frame.
ghost use Rattle.std.specs.Prelude.{◌≡◌, ◌^◌, ◌<◌, ◌≤◌, length, IfErr, OnOk, OnErr};
ghost use Rattle.odb_device.specs.Counts.{Rose};
ghost use Rattle.odb_device.specs.Connections.{ReceivesNothing, Sends};
ghost use Rattle.odb_frame.specs.Frames.{frame};
ghost use Rattle.odb_frame.specs.Transfers.{BreaksOff};

use crate::FrameError;
use byteorder::{BigEndian, ByteOrder};
use odb_device::{Failed, Link};

/// Sends the frame of this body: its length, and the body. It takes no memory.
///
/// After `LinkFault`, which alone it refuses with, a front of the frame was sent, shorter than the
/// whole; a frame behind it wouldn't be read as one.
pub fn write_frame<L: Link>(link: &mut L, body: &[u8]) -> Result<(), FrameError>
    requires { length body.now < 2 ^ 32 }
    ensures input { ReceivesNothing (L.wire link.old) (L.wire link.new) }
    ensures count { (L.wire link.old).faults ≤ (L.wire link.new).faults }
    ensures sent { OnOk result (Sends (frame body.now) (L.wire link.old) (L.wire link.new)) }
    ensures broken_off { OnErr result
        (BreaksOff (frame body.now) (L.wire link.old) (L.wire link.new)) }
    ensures refusal { IfErr result (λ e. e ≡ FrameError.LinkFault) }
    ensures cause { OnErr result (Rose (L.wire link.old).faults (L.wire link.new).faults) }
{
    let mut head = [0; 4];
    BigEndian::write_u32(&mut head, body.len() as u32);
    send_all(link, &head)?;
    send_all(link, body)?;
    Ok(())
}

/// Sends all of the bytes, in as few calls as the link allows: each goes on where the one before
/// ended, and none is made for an empty list.
///
/// After `Failed` a front of them was sent, shorter than the whole; the link may be used again.
pub fn send_all<L: Link>(link: &mut L, bytes: &[u8]) -> Result<(), Failed>
    ensures input { ReceivesNothing (L.wire link.old) (L.wire link.new) }
    ensures count { (L.wire link.old).faults ≤ (L.wire link.new).faults }
    ensures sent { OnOk result (Sends bytes.now (L.wire link.old) (L.wire link.new)) }
    ensures broken_off { OnErr result
        (BreaksOff bytes.now (L.wire link.old) (L.wire link.new)) }
    ensures cause { OnErr result (Rose (L.wire link.old).faults (L.wire link.new).faults) }
{
    let mut sent = 0;
    while sent < bytes.len() {
        sent += link.send(&bytes[sent..])?;
    }
    Ok(())
}
