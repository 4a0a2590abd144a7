//! The messages of version 02, over the bytes of their frames.

use vt_base::Score;

/// The most bytes that a string on the wire has.
pub const MAX_STRING: usize = 1_024;

/// A message of a client (venti(6)), over the bytes of its frame. The kind of a block is as it
/// came, of a block type or not. What is not acted on is left out: uid, strength, crypto, codec and
/// pads.
#[derive(Clone, Copy, Debug, PartialEq, Eq)]
pub enum Request<'a> {
    /// Asks for nothing but an answer.
    Ping,
    /// Begins the session in this version.
    Hello { version: &'a [u8] },
    /// Ends the session. It has no reply.
    Goodbye,
    /// Asks for the block of this score and kind, if it has at most `count` bytes.
    Read { score: Score, kind: u8, count: u32 },
    /// Gives a block to be held.
    Write { kind: u8, bytes: &'a [u8] },
    /// Asks that what was accepted be on the disk.
    Sync,
}

/// A reply of a server (venti(6)): the bytes of a block, its score, or the text of an error, among
/// others.
#[derive(Clone, Copy, Debug, PartialEq, Eq)]
pub enum Reply<'a> {
    Ping,
    /// The session has begun. None of its parameters is kept.
    Hello,
    /// The bytes of the block that was asked for.
    Read(&'a [u8]),
    /// The score of the block that was given.
    Write(Score),
    /// What was accepted before is on the disk.
    Sync,
    /// Why the request wasn't done.
    Error(&'a [u8]),
}

/// Why a frame is no message: the first test that fails, in this order.
#[derive(Clone, Copy, Debug, PartialEq, Eq)]
pub enum WireBad {
    /// It is no whole frame, or has a size below 2.
    Short,
    /// No message of that side has this type.
    Unknown(u8),
    /// The first parameter that isn't spelled is this one, counted from 0. Bytes behind the last
    /// parameter have the number one past the last.
    Bad(u8),
}
