//! Why a device isn't mounted as a Bloom filter.

use std::alloc::{AllocError, AllocFailed};
use vt_base::Failed;

/// A field of a frame that is tested.
#[derive(Clone, Copy, Debug, PartialEq, Eq)]
pub enum Field {
    /// The version of the format, which is 1.
    Version,
    /// How many bits there are, as a power of two.
    M,
    /// How many of them a score has.
    K,
}

/// Why a device is refused. Lengths are of the whole device, in bytes.
#[derive(Clone, Copy, Debug, PartialEq, Eq)]
pub enum BloomError {
    /// A call of the device failed, and its count of faults rose.
    Fault,
    /// The device has no room for the smallest filter.
    TooSmall { len: u64, need: u64 },
    /// The first four bytes of the current frame aren't `VBLM`.
    NotFormatted,
    /// What was found in a field can't stand there. What was wanted is the one value that can or,
    /// where there are several, the largest.
    Torn { field: Field, found: u64, want: u64 },
    /// Memory ran out.
    NoMemory,
}

impl From<Failed> for BloomError {
    ghost use Rattle.std.specs.Prelude.{◌≡◌};
    ghost use Rattle.vt_bloom.specs.declared.error.BloomError.{BloomError};

    ghost from_gives = { λ _ bad. bad ≡ BloomError.Fault };

    /// A failed call of the device is `Fault`.
    fn from(_failed: Failed) -> Self {
        BloomError::Fault
    }
}

impl From<AllocError> for BloomError {
    ghost use Rattle.std.specs.Prelude.{◌≡◌};
    ghost use Rattle.vt_bloom.specs.declared.error.BloomError.{BloomError};

    ghost from_gives = { λ _ bad. bad ≡ BloomError.NoMemory };

    /// Memory that wasn't there is `NoMemory`.
    fn from(_error: AllocError) -> Self {
        BloomError::NoMemory
    }
}
