//! Why a block or a tree could not be read or written.

use crate::EntryError;
use std::alloc::{AllocError, AllocFailed};
use vt_base::{FieldValue, Score, Text};

/// Why a store of blocks didn't do what it was asked.
#[derive(Drop)]
pub enum BlockErr {
    /// A call on what the store stands on has failed.
    Fault,
    /// The store said no, with this text.
    Refused(Text),
    /// The score of the bytes that came, or the score that was told, isn't the one wanted.
    WrongScore { want: Score, found: Score },
    /// What was read differs from what should stand there.
    Damaged { want: FieldValue, found: FieldValue },
    /// Memory ran out.
    NoMemory,
}

impl From<AllocError> for BlockErr {
    ghost use Rattle.std.specs.Prelude.{◌≡◌};
    ghost use Rattle.vt_tree.specs.declared.error.BlockErr.TheVariants.{NoMemory};

    ghost from_gives = { λ _ err. err ≡ NoMemory };

    /// Memory that wasn't there is `NoMemory`.
    fn from(_error: AllocError) -> Self {
        BlockErr::NoMemory
    }
}

/// Why a tree could not be read or written.
#[derive(Drop)]
pub enum TreeErr {
    /// What the store of blocks answered to a call.
    Block(BlockErr),
    /// A call of the source has failed, and its count of faults has risen.
    SourceFault,
    /// A field of the entry that can't stand in an active one.
    BadEntry(EntryError),
    /// A leaf (depth 0) or a pointer block (depth 1 to 7) that is longer than the entry says, or a
    /// pointer block whose length is no multiple of 20.
    BadBlock { depth: u8, len: usize },
    /// The file has more than 2^40 bytes.
    TooLong,
    /// Memory ran out.
    NoMemory,
}

impl From<AllocError> for TreeErr {
    ghost use Rattle.std.specs.Prelude.{◌≡◌};
    ghost use Rattle.vt_tree.specs.declared.error.TreeErr.TheVariants.{NoMemory};

    ghost from_gives = { λ _ err. err ≡ NoMemory };

    /// Memory that wasn't there is `NoMemory`.
    fn from(_error: AllocError) -> Self {
        TreeErr::NoMemory
    }
}

impl<T: Drop> From<AllocFailed<T>> for TreeErr {
    ghost use Rattle.std.specs.Prelude.{◌≡◌};
    ghost use Rattle.vt_tree.specs.declared.error.TreeErr.TheVariants.{NoMemory};

    ghost from_gives = { λ _ err. err ≡ NoMemory };

    /// Memory that wasn't there is `NoMemory`; what should have gone there is dropped.
    fn from(_error: AllocFailed<T>) -> Self {
        TreeErr::NoMemory
    }
}
