//! A link in memory.
ghost use Rattle.std.specs.Prelude.{◌≡◌, ◌∷◌, [], ◌++◌, ◌<◌, ◌≤◌, ◌==◌, ◌↔◌, length, take, IfOk, OnOk, OnErr, IsErr, IsTrue};
ghost use Rattle.std.specs.List.{list_any};
ghost use Rattle.odb_device.specs.Counts.{Rose};
ghost use Rattle.odb_device.specs.Connections.{Receives, ReceivesNothing, EndsReceiving, Sends, SendsNothing};
ghost use Rattle.odb_memstore.specs.Line.{new_line, wire_of, with_listed, is_next_listed, fails_to_send, ReceivesNext, after_send};

use crate::MemError;
use crate::copying::{add, copy_from};
use odb_device::{Failed, Link};
use std::alloc::Global;
use std::marker::Model;

/// A link over two lists of bytes: what is received, and what was sent.
///
/// Its calls of `receive` and `send` are numbered together from 0, those too that fail; the number
/// stands still at 2^64 - 1. `Failed` is answered just where the call's number is listed, and where
/// a whole piece that is sent doesn't fit into the room left. Then nothing is received or sent, and
/// the count of faults rises by one.
#[derive(Drop)]
pub struct MemLink {
    input: Vec<u8>,
    received: usize,
    has_ended: bool,
    sent: Vec<u8>,
    room: usize,
    failing: Vec<u32>,
    calls: u64,
    faults: u64,
}

impl Model for MemLink {
    ghost use Rattle.std.specs.Prelude.{◌≤◌, length, vec_capacity};
    ghost use Rattle.odb_memstore.specs.Line.{Line};

    ghost Value = { Line };

    ghost view = { λ l. record {
      input = l.input.items;
      received = l.received;
      has_ended = l.has_ended;
      sent = l.sent.items;
      room = l.room;
      failing = l.failing.items;
      calls = l.calls;
      faults = l.faults;
    } };

    ghost invariant = { λ l. (l.received ≤ length l.input.items) × (l.room ≤ vec_capacity l.sent) };
}

impl MemLink {
    /// A link on which these bytes are received, and up to `room` bytes may be sent. It takes
    /// memory for both.
    pub fn new(alloc: Global, input: &[u8], room: u64) -> Result<MemLink, MemError>
        ensures { IfOk result (λ link. link ≡ new_line input.now room) }
    {
        Ok(MemLink {
            input: Vec::from_slice(alloc, input)?,
            received: 0,
            has_ended: false,
            sent: Vec::with_capacity(alloc, room as usize)?,
            room: room as usize,
            failing: Vec::new(alloc),
            calls: 0,
            faults: 0,
        })
    }

    /// Lists a call that is to fail, by its number from 0.
    pub fn fail(&mut self, _alloc: Global, call: u32) -> Result<(), MemError>
        ensures ok { OnOk result (self.new ≡ with_listed call self.old) }
        ensures err { OnErr result (self.new ≡ self.old) }
    {
        self.failing.push(call).map_err(|_| MemError::NoMemory)
    }

    /// All that was sent.
    pub fn sent(&self) -> &[u8]
        ensures { result.now ≡ self.now.sent }
    {
        self.sent.as_slice()
    }
}

impl Link for MemLink {
    ghost wire = { wire_of };

    fn receive(&mut self, out: &mut [u8]) -> Result<usize, Failed>
        requires { 0 < length out.old }
        ensures count { (wire_of self.old).faults ≤ (wire_of self.new).faults }
        ensures output { SendsNothing (wire_of self.old) (wire_of self.new) }
        ensures bound { IfOk result (λ n. n ≤ length out.new) }
        ensures received { IfOk result
            (λ n. Receives (take n out.new) (wire_of self.old) (wire_of self.new)) }
        ensures ended { IfOk result (λ n. EndsReceiving n (wire_of self.old) (wire_of self.new)) }
        ensures failed { OnErr result (ReceivesNothing (wire_of self.old) (wire_of self.new)) }
        ensures cause { OnErr result (Rose (wire_of self.old).faults (wire_of self.new).faults) }
        ensures fails { IsErr result ↔ IsTrue (is_next_listed self.old) }
        ensures next { ReceivesNext (length out.old) out.new result self.old self.new }
    {
        let listed = is_listed(&self.failing, self.calls);
        self.calls = self.calls.saturating_add(1);
        if listed {
            self.faults = self.faults.saturating_add(1);
            return Err(Failed);
        }
        let n = copy_from(&self.input, self.received as u64, out);
        self.received += n;
        self.has_ended = n == 0 || self.has_ended;
        Ok(n)
    }

    fn send(&mut self, bytes: &[u8]) -> Result<usize, Failed>
        requires { 0 < length bytes.now }
        ensures count { (wire_of self.old).faults ≤ (wire_of self.new).faults }
        ensures input { ReceivesNothing (wire_of self.old) (wire_of self.new) }
        ensures bound { IfOk result (λ n. (0 < n) × (n ≤ length bytes.now)) }
        ensures sent { IfOk result
            (λ n. Sends (take n bytes.now) (wire_of self.old) (wire_of self.new)) }
        ensures failed { OnErr result (SendsNothing (wire_of self.old) (wire_of self.new)) }
        ensures cause { OnErr result (Rose (wire_of self.old).faults (wire_of self.new).faults) }
        ensures fails { IsErr result ↔ IsTrue (fails_to_send (length bytes.now) self.old) }
        ensures all { IfOk result (λ n. n ≡ length bytes.now) }
        ensures next { self.new ≡ after_send bytes.now self.old }
    {
        let listed = is_listed(&self.failing, self.calls);
        self.calls = self.calls.saturating_add(1);
        if listed || self.sent.len() + bytes.len() > self.room {
            self.faults = self.faults.saturating_add(1);
            return Err(Failed);
        }
        add(&mut self.sent, bytes);
        Ok(bytes.len())
    }
}

/// This number is listed.
fn is_listed(failing: &[u32], number: u64) -> bool
    ensures { result ≡ list_any (λ n. n == number) failing.now }
{
    failing.iter().any(|listed| *listed as u64 == number)
}
