//! Why a section is refused, and why a call on one is not done.

use std::alloc::AllocError;
use vt_base::{Failed, FieldValue};

/// A field of a section's head that is tested.
#[derive(Clone, Copy, Debug, PartialEq, Eq)]
pub enum Field {
    /// The version of the format, which is 1.
    Version,
}

/// Why a section is refused. Lengths are of the whole disk, in bytes.
#[derive(Clone, Copy, Debug, PartialEq, Eq)]
pub enum SectBad {
    /// A call of the disk failed, and its count of faults rose.
    Fault,
    /// The disk has no room for a head and one bucket.
    TooSmall { len: u64, need: u64 },
    /// The first four bytes of the current head aren't `VSEC`.
    NotFormatted,
    /// What was found in a field of the current head can't stand there.
    Torn { field: Field, found: u64, want: u64 },
    /// Memory ran out.
    NoMemory,
}

impl From<Failed> for SectBad {
    ghost use Rattle.std.specs.Prelude.{◌≡◌};
    ghost use Rattle.vt_isect.specs.declared.error.SectBad.{SectBad};

    ghost from_gives = { λ _ bad. bad ≡ SectBad.Fault };

    /// A failed call of the disk is `Fault`.
    fn from(_failed: Failed) -> Self {
        SectBad::Fault
    }
}

impl From<AllocError> for SectBad {
    ghost use Rattle.std.specs.Prelude.{◌≡◌};
    ghost use Rattle.vt_isect.specs.declared.error.SectBad.{SectBad};

    ghost from_gives = { λ _ bad. bad ≡ SectBad.NoMemory };

    /// Memory that wasn't there is `NoMemory`.
    fn from(_error: AllocError) -> Self {
        SectBad::NoMemory
    }
}

/// Why a call on a section is not done.
#[derive(Clone, Copy, Debug, PartialEq, Eq)]
pub enum ShardErr {
    /// A call of the disk failed, and its count of faults rose.
    Fault,
    /// The current frame of a bucket has something else than is wanted, or as it was read has no
    /// room for the entries that are written to it: then 263 is wanted, and the count that it would
    /// have is found.
    Damaged {
        bucket: u32,
        want: FieldValue,
        found: FieldValue,
    },
    /// The device call of this number, a write or a sync, has failed earlier. The calls are those
    /// that `advance` made of this value, counted from 0.
    Stopped(u64),
}

impl From<Failed> for ShardErr {
    ghost use Rattle.std.specs.Prelude.{◌≡◌};
    ghost use Rattle.vt_isect.specs.declared.error.ShardErr.{ShardErr};

    ghost from_gives = { λ _ bad. bad ≡ ShardErr.Fault };

    /// A failed call of the disk is `Fault`.
    fn from(_failed: Failed) -> Self {
        ShardErr::Fault
    }
}
