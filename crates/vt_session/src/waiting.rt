//! Bytes that came in and aren't heard yet.

ghost use Rattle.std.specs.Prelude.{◌≡◌, ◌+◌, ◌≤◌, [], ◌++◌, length, drop, IfOk};

use std::alloc::{AllocError, Global};
use std::marker::Model;
use vt_base::fields::put;

/// How many bytes the longest frame has, its size field with it.
pub const LONGEST: usize = 65_537;

/// Bytes that wait in a buffer as long as the longest frame, which contracts see as a list.
///
/// They are moved to the buffer's front only where what comes doesn't fit behind them. While only
/// the front of one frame waits when more comes, that is at most once for each byte: from there on
/// its frame fits.
#[derive(Drop)]
pub struct Waiting {
    buffer: Vec<u8>,
    /// The bytes that wait are those of the buffer from here on.
    start: usize,
    /// The place behind the last of these bytes.
    end: usize,
}

impl Model for Waiting {
    ghost use Rattle.std.specs.Prelude.{◌≡◌, ◌≤◌, ℕ, List, length, take, drop};

    ghost Value = { List ℕ };

    ghost view = { λ w. drop w.start (take w.end w.buffer.items) };

    ghost invariant = { λ w.
        (length w.buffer.items ≡ 65537) × (w.start ≤ w.end) × (w.end ≤ 65537) };
}

impl Waiting {
    /// A buffer in which no bytes wait. Its memory is taken here, and no other.
    pub fn new(alloc: Global) -> Result<Self, AllocError>
        ensures { IfOk result (λ waiting. waiting ≡ []) }
    {
        let buffer = vec![in alloc; 0; LONGEST]?;
        Ok(Waiting {
            buffer,
            start: 0,
            end: 0,
        })
    }

    /// Lends the bytes, the oldest first.
    pub fn as_slice(&self) -> &[u8]
        ensures value { result.now ≡ self.now }
        ensures fits { length self.now ≤ 65537 }
    {
        let front = &self.buffer[..self.end];
        &front[self.start..]
    }

    /// A piece comes in behind them.
    pub fn push(&mut self, piece: &[u8])
        requires { length self.old + length piece.now ≤ 65537 }
        ensures { self.new ≡ self.old ++ piece.now }
    {
        if LONGEST - self.end < piece.len() {
            self.buffer.copy_within(self.start..self.end, 0);
            self.end -= self.start;
            self.start = 0;
        }
        self.end = put(&mut self.buffer, self.end, piece);
    }

    /// The first so many bytes were heard, and wait no longer.
    pub fn skip(&mut self, n: usize)
        requires { n ≤ length self.old }
        ensures { self.new ≡ drop n self.old }
    {
        self.start += n;
    }
}
