//! Bytes and text in memory, which contracts see as lists.

ghost use Rattle.std.specs.Prelude.{◌≡◌, ◌==◌, length, IfOk};

use std::alloc::{AllocError, Global};
use std::marker::Model;

/// Bytes in memory, as a block's or a frame's.
#[derive(Drop, Debug)]
pub struct Bytes {
    content: Vec<u8>,
}

impl Model for Bytes {
    ghost use Rattle.std.specs.Prelude.{ℕ, List};

    ghost Value = { List ℕ };

    ghost view = { λ b. b.content.items };
}

impl Bytes {
    /// These bytes, with the memory that they are in.
    pub fn from_vec(content: Vec<u8>) -> Self
        ensures { result ≡ content.items }
    {
        Bytes { content }
    }

    /// A copy of these bytes.
    pub fn copy_of(alloc: Global, content: &[u8]) -> Result<Self, AllocError>
        ensures { IfOk result (λ copy. copy ≡ content.now) }
    {
        Ok(Bytes {
            content: Vec::from_slice(alloc, content)?,
        })
    }

    /// The bytes, given back with their memory.
    pub fn into_vec(self) -> Vec<u8>
        ensures { result.items ≡ self }
    {
        self.content
    }

    /// Lends the bytes, without copying them.
    pub fn as_slice(&self) -> &[u8]
        ensures { result.now ≡ self.now }
    {
        &self.content
    }

    /// How many bytes there are.
    pub fn len(&self) -> usize
        ensures { result ≡ length self.now }
    {
        self.content.len()
    }

    /// Whether there are no bytes.
    pub fn is_empty(&self) -> bool
        ensures { result ≡ (length self.now == 0) }
    {
        self.content.is_empty()
    }
}

/// Text in memory: a name, a word or a line. It is bytes, and isn't tested for UTF-8.
#[derive(Drop, Debug)]
pub struct Text {
    content: Vec<u8>,
}

impl Model for Text {
    ghost use Rattle.std.specs.Prelude.{ℕ, List};

    ghost Value = { List ℕ };

    ghost view = { λ t. t.content.items };
}

impl Text {
    /// This text, with the memory that it is in.
    pub fn from_vec(content: Vec<u8>) -> Self
        ensures { result ≡ content.items }
    {
        Text { content }
    }

    /// A copy of this text.
    pub fn copy_of(alloc: Global, content: &[u8]) -> Result<Self, AllocError>
        ensures { IfOk result (λ copy. copy ≡ content.now) }
    {
        Ok(Text {
            content: Vec::from_slice(alloc, content)?,
        })
    }

    /// The text, given back with its memory.
    pub fn into_vec(self) -> Vec<u8>
        ensures { result.items ≡ self }
    {
        self.content
    }

    /// Lends the bytes of the text, without copying them.
    pub fn as_slice(&self) -> &[u8]
        ensures { result.now ≡ self.now }
    {
        &self.content
    }

    /// How many bytes, not characters, the text has.
    pub fn len(&self) -> usize
        ensures { result ≡ length self.now }
    {
        self.content.len()
    }

    /// Whether it has no bytes.
    pub fn is_empty(&self) -> bool
        ensures { result ≡ (length self.now == 0) }
    {
        self.content.is_empty()
    }
}
