//! Why bytes are no folder's metadata.

use std::alloc::{AllocError, AllocFailed};

/// Why metadata was not read.
#[derive(Clone, Copy, Debug, PartialEq, Eq)]
pub enum MetaErr {
    /// What stands at this place, counted from the first byte, can't stand in a folder's metadata.
    Bad { at: usize, why: RecordCause },
    /// Memory ran out.
    NoMemory,
}

/// What is wrong with a record.
#[derive(Clone, Copy, Debug, PartialEq, Eq)]
pub enum RecordCause {
    /// The bytes end inside it.
    Cut,
    /// Its name has no byte, or more than 255.
    NameLength,
    /// Its name has a slash or a zero byte, which is what stands at the place.
    NameByte,
    /// Its name isn't above the one before it.
    Order,
    /// It is neither of a file nor of a folder.
    Kind,
    /// Its uid or its gid has more than 255 bytes.
    OwnerLength,
}

impl From<AllocError> for MetaErr {
    ghost use Rattle.std.specs.Prelude.{◌≡◌};
    ghost use Rattle.vac_meta.specs.declared.error.MetaErr.TheVariants.{NoMemory};

    ghost from_gives = { λ _ err. err ≡ NoMemory };

    /// Memory that wasn't there is `NoMemory`.
    fn from(_error: AllocError) -> Self {
        MetaErr::NoMemory
    }
}

impl<T: Drop> From<AllocFailed<T>> for MetaErr {
    ghost use Rattle.std.specs.Prelude.{◌≡◌};
    ghost use Rattle.vac_meta.specs.declared.error.MetaErr.TheVariants.{NoMemory};

    ghost from_gives = { λ _ err. err ≡ NoMemory };

    /// Memory that wasn't there is `NoMemory`; what should have gone there is dropped.
    fn from(_error: AllocFailed<T>) -> Self {
        MetaErr::NoMemory
    }
}
