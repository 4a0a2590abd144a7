//! Why a folder isn't archived.

use std::alloc::{AllocError, AllocFailed};
use vt_base::Text;
use vt_out::OutErr;
use vt_tree::{BlockErr, TreeErr};

/// Why a folder isn't archived. Some of its blocks may have been put.
#[derive(Drop)]
pub enum VacErr {
    /// A call of the folder has failed, and its count of faults has risen. Of `archive` it is told
    /// where one has failed before anything was asked of the store: where the folder itself can't be
    /// listed. Where another call fails the archiving goes on.
    FolderFault,
    /// What the store of blocks answered; or a file has more than 2^40 bytes, or a folder's
    /// metadata more than 2^24.
    Tree(TreeErr),
    /// The item at this path has a name that is empty, of more than 255 bytes, has a slash or a
    /// zero byte, or is listed twice; or its uid or gid has more than 255 bytes.
    BadName(Text),
    /// The folder at this path lies more than 256 folders below the top.
    TooDeep(Text),
    /// Memory ran out.
    NoMemory,
}

impl From<BlockErr> for VacErr {
    ghost use Rattle.std.specs.Prelude.{◌≡◌};
    ghost use Rattle.vt_tree.specs.declared.error.TreeErr.TheVariants.{Block};
    ghost use Rattle.vac_write.specs.declared.error.VacErr.TheVariants.{Tree};

    ghost from_gives = { λ refusal err. err ≡ Tree (Block refusal) };

    /// What the store of blocks answered is a failure of a tree.
    fn from(refusal: BlockErr) -> Self {
        VacErr::Tree(TreeErr::Block(refusal))
    }
}

impl From<TreeErr> for VacErr {
    ghost use Rattle.std.specs.Prelude.{◌≡◌};
    ghost use Rattle.vac_write.specs.Archiving.{of_stream};

    ghost from_gives = { λ failure err. err ≡ of_stream failure };

    /// Why a stream was given up: a failed read of its source, which is a file of the folder, is
    /// `FolderFault`, want of memory `NoMemory`, and all else a failure of a tree.
    fn from(failure: TreeErr) -> Self {
        match failure {
            TreeErr::SourceFault => VacErr::FolderFault,
            TreeErr::NoMemory => VacErr::NoMemory,
            other => VacErr::Tree(other),
        }
    }
}

impl From<OutErr> for VacErr {
    ghost use Rattle.std.specs.Prelude.{◌≡◌};
    ghost use Rattle.vac_write.specs.Archiving.{of_call};

    ghost from_gives = { λ failure err. err ≡ of_call failure };

    /// A failed call of the folder is `FolderFault`, and want of memory `NoMemory`.
    fn from(failure: OutErr) -> Self {
        match failure {
            OutErr::Failed => VacErr::FolderFault,
            OutErr::NoMemory => VacErr::NoMemory,
        }
    }
}

impl From<AllocError> for VacErr {
    ghost use Rattle.std.specs.Prelude.{◌≡◌};
    ghost use Rattle.vac_write.specs.declared.error.VacErr.TheVariants.{NoMemory};

    ghost from_gives = { λ _ err. err ≡ NoMemory };

    /// Memory that wasn't there is `NoMemory`.
    fn from(_error: AllocError) -> Self {
        VacErr::NoMemory
    }
}

impl<T: Drop> From<AllocFailed<T>> for VacErr {
    ghost use Rattle.std.specs.Prelude.{◌≡◌};
    ghost use Rattle.vac_write.specs.declared.error.VacErr.TheVariants.{NoMemory};

    ghost from_gives = { λ _ err. err ≡ NoMemory };

    /// Memory that wasn't there is `NoMemory`; what should have gone there is dropped.
    fn from(_error: AllocFailed<T>) -> Self {
        VacErr::NoMemory
    }
}
