//! Why an archive isn't read.

use std::alloc::{AllocError, AllocFailed};
use vt_tree::{BlockErr, EntryError, TreeErr};

/// Why a part of an archive can't be read.
#[derive(Drop)]
pub enum VacBad {
    /// What the store of blocks answered, or an entry or a block that can't stand in a tree.
    Tree(TreeErr),
    /// A field of the root that is no archive's.
    Root { field: RootField },
    /// What stands at this place of a folder's metadata can't stand there.
    Meta { at: usize },
    /// Memory ran out.
    NoMemory,
}

/// What is tested of an archive's root, in this order: how many bytes it has, its version, its
/// type, and the block size.
#[derive(Clone, Copy, Debug, PartialEq, Eq)]
pub enum RootField {
    /// 300 bytes.
    Length,
    /// Version 2.
    Version,
    /// `rvac`, filled up with zeros.
    Type,
    /// 512 to 53,248 bytes.
    BlockSize,
}

impl From<BlockErr> for VacBad {
    ghost use Rattle.std.specs.Prelude.{◌≡◌};
    ghost use Rattle.vt_tree.specs.declared.error.TreeErr.TheVariants.{Block};
    ghost use Rattle.vac_read.specs.declared.error.VacBad.TheVariants.{Tree};

    ghost from_gives = { λ refusal bad. bad ≡ Tree (Block refusal) };

    /// What the store of blocks answered is a failure of a tree.
    fn from(refusal: BlockErr) -> Self {
        VacBad::Tree(TreeErr::Block(refusal))
    }
}

impl From<TreeErr> for VacBad {
    ghost use Rattle.std.specs.Prelude.{◌≡◌};
    ghost use Rattle.vac_read.specs.declared.error.VacBad.TheVariants.{Tree};

    ghost from_gives = { λ err bad. bad ≡ Tree err };

    /// A failure of a tree, as it is; want of memory there stays one of the tree.
    fn from(err: TreeErr) -> Self {
        VacBad::Tree(err)
    }
}

impl From<EntryError> for VacBad {
    ghost use Rattle.std.specs.Prelude.{◌≡◌};
    ghost use Rattle.vt_tree.specs.declared.error.TreeErr.TheVariants as trees;
    ghost use Rattle.vac_read.specs.declared.error.VacBad.TheVariants.{Tree};

    ghost from_gives = { λ entry bad. bad ≡ Tree (trees.BadEntry entry) };

    /// An entry that can't stand in a tree is a failure of a tree.
    fn from(entry: EntryError) -> Self {
        VacBad::Tree(TreeErr::BadEntry(entry))
    }
}

impl From<vt_tree::RootError> for VacBad {
    ghost use Rattle.std.specs.Prelude.{◌≡◌};
    ghost use Rattle.vac_read.specs.declared.error.VacBad.TheVariants.{Root};
    ghost use Rattle.vac_read.specs.Broken.{field_of};

    ghost from_gives = { λ field bad. bad ≡ Root (field_of field) };

    /// The field of the root that is none: `Root`, with its own name for the field.
    fn from(field: vt_tree::RootError) -> Self {
        VacBad::Root {
            field: match field {
                vt_tree::RootError::Length => RootField::Length,
                vt_tree::RootError::Version => RootField::Version,
            },
        }
    }
}

impl From<AllocError> for VacBad {
    ghost use Rattle.std.specs.Prelude.{◌≡◌};
    ghost use Rattle.vac_read.specs.declared.error.VacBad.TheVariants.{NoMemory};

    ghost from_gives = { λ _ bad. bad ≡ NoMemory };

    /// Memory that wasn't there is `NoMemory`.
    fn from(_error: AllocError) -> Self {
        VacBad::NoMemory
    }
}

impl<T: Drop> From<AllocFailed<T>> for VacBad {
    ghost use Rattle.std.specs.Prelude.{◌≡◌};
    ghost use Rattle.vac_read.specs.declared.error.VacBad.TheVariants.{NoMemory};

    ghost from_gives = { λ _ bad. bad ≡ NoMemory };

    /// Memory that wasn't there is `NoMemory`; what should have gone there is dropped.
    fn from(_error: AllocFailed<T>) -> Self {
        VacBad::NoMemory
    }
}
