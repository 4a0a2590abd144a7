//! What a long call tells on a terminal while it runs.

use crate::printing::put_pieces;
use itoa::Buffer;
use vt_out::{Progress, Sink};

/// What the steps of a command are.
#[derive(Clone, Copy, Debug)]
pub enum Unit {
    /// Those that `checkarenas` has tested.
    Arenas,
    /// Those that `fmtindex` has cleared, or `buildindex` has filled.
    Buckets,
    /// Those of `rehearse`.
    Rounds,
}

impl Unit {
    /// The word behind the numbers, with the space before it.
    fn text(self) -> &'static [u8] {
        match self {
            Unit::Arenas => b" arenas",
            Unit::Buckets => b" buckets",
            Unit::Rounds => b" rounds",
        }
    }
}

/// Shows on a terminal, if there is one, how far a command has come. That is no result: no clause
/// speaks of it, and a terminal that fails changes nothing.
#[derive(Drop)]
pub struct Shown<K> {
    terminal: Option<K>,
    unit: Unit,
}

impl<K: Sink> Shown<K> {
    /// On this terminal, in steps of this kind.
    pub fn new(terminal: Option<K>, unit: Unit) -> Self {
        Shown { terminal, unit }
    }

    /// Names the file of which a call failed.
    pub fn name(&mut self, file: &[u8]) {
        self.put(&[b"venti: a call failed of ", file, b"\n"]);
    }

    /// A line that is written over by the next one, unless it is the last.
    fn count(&mut self, done: u64, all: u64) {
        let end: &[u8] = if done == all { b"\n" } else { b"\r" };
        let mut done_digits = Buffer::new();
        let mut all_digits = Buffer::new();
        self.put(&[
            b"venti: ",
            done_digits.format(done).as_bytes(),
            b" of ",
            all_digits.format(all).as_bytes(),
            self.unit.text(),
            end,
        ]);
    }

    /// Writes to the terminal, if there is one. A write that fails is of no account.
    fn put(&mut self, pieces: &[&[u8]]) {
        if let Some(terminal) = &mut self.terminal {
            let _ = put_pieces(terminal, pieces);
        }
    }
}

impl<K: Sink> Progress for Shown<K> {
    /// Shows how much is done, as `count` does.
    fn report(&mut self, done: u64, all: u64) {
        self.count(done, all);
    }
}
