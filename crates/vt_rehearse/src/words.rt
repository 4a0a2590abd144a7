//! The words of a rehearsal: the 64 blocks that it writes and reads.

ghost use Rattle.std.specs.Prelude.{◌≡◌, ◌<◌};
ghost use Rattle.vt_rehearse.specs.Words.{word_of};

use std::marker::Model;

/// How many words there are.
pub const WORDS: u32 = 64;

/// The type of data.
pub const DATA: u8 = 13;

/// A word: a block of data of up to 200 bytes, all of them equal.
#[derive(Drop)]
pub struct Word {
    bytes: [u8; 200],
    /// How many of these bytes are the block's, from 1 to 200.
    len: usize,
}

impl Model for Word {
    ghost use Rattle.std.specs.Prelude.{List, ℕ, ◌≤◌, take};

    ghost Value = { List ℕ };

    ghost view = { λ w. take w.len w.bytes };

    ghost invariant = { λ w. w.len ≤ 200 };
}

impl Word {
    /// Word w, from 0 to 63: 1 + (37 · w mod 200) bytes, each of them w.
    pub fn new(w: u32) -> Self
        requires { w < WORDS }
        ensures { result ≡ word_of w }
    {
        let byte = w as u8;
        let mut bytes = [0; 200];
        bytes.fill(byte);
        let len = 1 + 37 * w as usize % 200;
        Word { bytes, len }
    }

    /// The bytes of a word.
    pub fn as_slice(&self) -> &[u8]
        ensures { result.now ≡ self.now }
    {
        &self.bytes[..self.len]
    }
}
