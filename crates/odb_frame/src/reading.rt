//! Reading one frame.
ghost use Rattle.std.specs.Prelude.{◌≡◌, ◌≤◌, length, take, IfOk, OnErr, Err};
ghost use Rattle.byteorder.specs.Endian.{big_bytes};
ghost use Rattle.odb_device.specs.Counts.{Rose};
ghost use Rattle.odb_device.specs.Connections.{Receives, SendsNothing};
ghost use Rattle.odb_frame.specs.Transfers.{Answers, ended_by, ReceivesFewer, ended_at};

use crate::FrameError;
use byteorder::{BigEndian, ByteOrder};
use odb_device::{Failed, Link};
use odb_values::Bytes;
use std::alloc::Global;

/// How many bytes a frame's body has at most.
const MOST_BODY: u32 = 65_536;

/// Receives the next frame, and gives its body; None where the input ends before it.
///
/// It receives just the frame's bytes, in as few calls as the link allows. The length is judged
/// before memory is taken for the body or a byte of it is received. After an error the bytes that
/// come next are no frame's beginning, and the connection is of no more use for reading.
pub fn read_frame<L: Link>(alloc: Global, link: &mut L) -> Result<Option<Bytes>, FrameError>
    ensures frame { Answers result (L.wire link.old) (L.wire link.new) }
    ensures ended { (L.wire link.new).has_ended ≡ ended_by result (L.wire link.old).has_ended }
    ensures output { SendsNothing (L.wire link.old) (L.wire link.new) }
    ensures count { (L.wire link.old).faults ≤ (L.wire link.new).faults }
    ensures cause { result ≡ Err FrameError.LinkFault
        → Rose (L.wire link.old).faults (L.wire link.new).faults }
{
    let mut head = [0; 4];
    let received = receive_all(link, &mut head)?;
    if received == 0 {
        return Ok(None);
    }
    if received < head.len() {
        return Err(FrameError::Cut);
    }
    let length = length_in(&head);
    if length > MOST_BODY {
        return Err(FrameError::TooLong { length });
    }
    let mut body = vec![in alloc; 0u8; length as usize]?;
    if receive_all(link, &mut body)? < body.len() {
        return Err(FrameError::Cut);
    }
    Ok(Some(Bytes::from_vec(body)))
}

/// The length that stands in these four bytes.
fn length_in(head: &[u8]) -> u32
    requires { length head.now ≡ 4 }
    ensures { head.now ≡ big_bytes 4 result }
{
    BigEndian::read_u32(head)
}

/// Receives bytes until `out` is full or the input ends, and answers how many.
///
/// What `out` holds behind them, and after `Failed`, isn't said.
fn receive_all<L: Link>(link: &mut L, out: &mut [u8]) -> Result<usize, Failed>
    ensures output { SendsNothing (L.wire link.old) (L.wire link.new) }
    ensures count { (L.wire link.old).faults ≤ (L.wire link.new).faults }
    ensures bound { IfOk result (λ n. n ≤ length out.new) }
    ensures received { IfOk result
        (λ n. Receives (take n out.new) (L.wire link.old) (L.wire link.new)) }
    ensures ended { IfOk result (λ n. (L.wire link.new).has_ended
        ≡ ended_at n (length out.new) (L.wire link.old).has_ended) }
    ensures failed { OnErr result
        (ReceivesFewer (length out.new) (L.wire link.old) (L.wire link.new)) }
    ensures cause { OnErr result (Rose (L.wire link.old).faults (L.wire link.new).faults) }
{
    let mut received = 0;
    while received < out.len() {
        let n = link.receive(&mut out[received..])?;
        if n == 0 {
            return Ok(received);
        }
        received += n;
    }
    Ok(received)
}
