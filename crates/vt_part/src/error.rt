//! Why a partition is refused.

use std::alloc::AllocFailed;
use vt_base::Failed;

/// A field of block 0 that is tested.
#[derive(Clone, Copy, Debug, PartialEq, Eq)]
pub enum Field {
    /// The version of the format, which is 1.
    Version,
    /// How many bytes each arena has.
    ArenaSize,
    /// How many arenas there are: 1 at least.
    Count,
}

/// Why a partition is refused. Lengths are of the whole disk, in bytes.
#[derive(Clone, Copy, Debug, PartialEq, Eq)]
pub enum PartBad {
    /// A call of the disk failed, and its count of faults rose.
    Fault,
    /// The disk ends before block 0 or its arenas; where it is formatted, before one arena would.
    TooSmall { len: u64, need: u64 },
    /// The first four bytes aren't `VPRT`.
    NotFormatted,
    /// What was found in a field can't stand there. What was wanted is the one value that can or,
    /// where there are several, the least.
    Torn { field: Field, found: u64, want: u64 },
    /// Two partitions of a list have one name. They are counted from 0.
    DuplicateName { first: u32, second: u32 },
    /// Memory ran out.
    NoMemory,
}

impl From<Failed> for PartBad {
    ghost use Rattle.std.specs.Prelude.{◌≡◌};
    ghost use Rattle.vt_part.specs.declared.error.PartBad.{PartBad};

    ghost from_gives = { λ _ bad. bad ≡ PartBad.Fault };

    /// A failed call of the disk is `Fault`.
    fn from(_failed: Failed) -> Self {
        PartBad::Fault
    }
}

impl<T: Drop> From<AllocFailed<T>> for PartBad {
    ghost use Rattle.std.specs.Prelude.{◌≡◌};
    ghost use Rattle.vt_part.specs.declared.error.PartBad.{PartBad};

    ghost from_gives = { λ _ bad. bad ≡ PartBad.NoMemory };

    /// Memory that wasn't there is `NoMemory`; what should have gone there is dropped.
    fn from(_failed: AllocFailed<T>) -> Self {
        PartBad::NoMemory
    }
}
