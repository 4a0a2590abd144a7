//! What a client says, and what it is told.

use crate::messages::{HELLO, LINE, OUR_LINE, WELCOME};
use std::alloc::{AllocError, Global};
use vt_base::{Scorer, Sha1Scorer};

/// What a client says, and what has to be replied to it.
#[derive(Drop)]
pub struct Talk {
    pub asked: Vec<u8>,
    pub replied: Vec<u8>,
}

impl Talk {
    /// Nothing is said.
    pub fn new(alloc: Global) -> Self {
        Talk {
            asked: Vec::new(alloc),
            replied: Vec::new(alloc),
        }
    }

    /// A greeting of venti(6).
    pub fn greeted(alloc: Global) -> Result<Self, AllocError> {
        let mut talk = Talk::new(alloc);
        talk.say(&[LINE, HELLO], &[OUR_LINE, WELCOME])?;
        Ok(talk)
    }

    /// A greeting, and the blocks with the numbers below this one are written.
    pub fn many(alloc: Global, count: u16) -> Result<Self, AllocError> {
        let mut talk = Talk::greeted(alloc)?;
        for number in 0..count {
            talk.write(&numbered(number))?;
        }
        Ok(talk)
    }

    /// This is asked, and this is replied.
    pub fn say(&mut self, asked: &[&[u8]], replied: &[&[u8]]) -> Result<(), AllocError> {
        put_parts(&mut self.asked, asked)?;
        put_parts(&mut self.replied, replied)
    }

    /// This block is written, as one of type 13, and its score is replied.
    pub fn write(&mut self, block: &[u8]) -> Result<(), AllocError> {
        let score = Sha1Scorer.score(block);
        self.write_told(block, &[b"\x00\x16\x0f\x01", &score.0])
    }

    /// This block is written, as one of type 13, and this is replied.
    pub fn write_told(&mut self, block: &[u8], replied: &[&[u8]]) -> Result<(), AllocError> {
        let size = u16::try_from(block.len().saturating_add(6)).unwrap_or(0);
        let size = size.to_be_bytes();
        self.say(&[&size, b"\x0e\x01\x0d\x00\x00\x00", block], replied)
    }
}

/// A block of three bytes, which has this number.
pub fn numbered(number: u16) -> [u8; 3] {
    let [high, low] = number.to_be_bytes();
    [b'n', high, low]
}

/// Puts these parts behind what is there.
fn put_parts(bytes: &mut Vec<u8>, parts: &[&[u8]]) -> Result<(), AllocError> {
    for part in parts {
        bytes.extend_from_slice(part)?;
    }
    Ok(())
}
