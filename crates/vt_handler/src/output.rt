//! Replies on their way out.

ghost use Rattle.std.specs.Prelude.{◌≡◌, ◌≢◌, ◌+◌, ◌<◌, ◌≤◌, [], ◌++◌, length, take, IsTrue, IfOk, OnErr, MatchBool};
ghost use Rattle.vt_base.specs.Faults.{HasCause};
ghost use Rattle.vt_session.specs.Turns.{server_line};
ghost use Rattle.vt_wire.specs.Messages.{spelled_reply, FitsReply};
ghost use Rattle.vt_wire.specs.Views.{reply_of};
ghost use Rattle.vt_handler.specs.Writing.{WritesOut};

use crate::Client;
use std::alloc::{AllocError, Global};
use std::marker::Model;
use vt_base::fields::put;
use vt_base::{Failed, MAX_BLOCK};
use vt_wire::{Reply, encode};

/// What the server writes first.
const SERVER_LINE: &[u8; 16] = b"venti-02-rattle\n";

/// How many bytes wait at most, so that many replies go out in one put.
const ROOM: usize = 131_072;

/// The most bytes of one reply's frame, that of a block.
const MAX_REPLY: usize = 4 + MAX_BLOCK;

/// Bytes that wait to be written, which contracts see as a list.
#[derive(Drop)]
pub struct Output {
    /// It is as long as `ROOM` says, whatever waits.
    buffer: Vec<u8>,
    /// How many of the buffer's first bytes wait.
    used: usize,
}

impl Model for Output {
    ghost use Rattle.std.specs.Prelude.{◌≡◌, ◌≤◌, ℕ, List, length, take};

    ghost Value = { List ℕ };

    ghost view = { λ o. take o.used o.buffer.items };

    ghost invariant = { λ o. (length o.buffer.items ≡ 131072) × (o.used ≤ 131072) };
}

impl Output {
    /// Room for replies, with the server's line in front, which goes out first.
    pub fn new(alloc: Global) -> Result<Self, AllocError>
        ensures { IfOk result (λ output. output ≡ server_line) }
    {
        let mut buffer = vec![in alloc; 0; ROOM]?;
        let used = put(&mut buffer, 0, SERVER_LINE);
        Ok(Output { buffer, used })
    }

    /// Writes all that waits to a client, if anything does.
    pub fn flush<C: Client>(&mut self, client: &mut C) -> Result<(), Failed>
        ensures written { IsTrue C.tells →
            WritesOut result (C.written client.old) self.old (C.written client.new) self.new [] }
        ensures empty { self.new ≡ [] }
        ensures some { OnErr result (self.old ≢ []) }
        ensures none { self.old ≡ [] → client.new ≡ client.old }
        ensures kept { IsTrue C.tells → (C.sent client.new ≡ C.sent client.old)
            × (C.left client.new ≡ C.left client.old) }
        ensures cause { HasCause result (C.write_faults client.old) (C.write_faults client.new) }
        ensures read_faults { C.read_faults client.new ≡ C.read_faults client.old }
    {
        let used = self.used;
        self.used = 0;
        if used == 0 {
            return Ok(());
        }
        client.put(&self.buffer[..used])
    }

    /// Whether there may be no room for a reply.
    pub fn is_full(&self) -> bool
        ensures { MatchBool result (131072 < length self.now + 57348)
            (length self.now + 57348 ≤ 131072) }
    {
        ROOM - self.used < MAX_REPLY
    }

    /// Puts a reply behind what waits.
    pub fn push(&mut self, tag: u8, reply: &Reply)
        requires fits { FitsReply (reply_of reply.now) }
        requires room { length self.old + 57348 ≤ 131072 }
        ensures { self.new ≡ self.old ++ spelled_reply tag (reply_of reply.now) }
    {
        self.used = encode_at(&mut self.buffer, self.used, tag, reply);
    }
}

/// Writes the frame of a reply at this place, and gives the place behind it.
fn encode_at(buffer: &mut [u8], at: usize, tag: u8, reply: &Reply) -> usize
    requires fits { FitsReply (reply_of reply.now) }
    requires room { at + length (spelled_reply tag (reply_of reply.now)) ≤ length buffer.old }
    ensures end { result ≡ at + length (spelled_reply tag (reply_of reply.now)) }
    ensures written { take result buffer.new
        ≡ take at buffer.old ++ spelled_reply tag (reply_of reply.now) }
{
    at + encode(tag, reply, &mut buffer[at..])
}
