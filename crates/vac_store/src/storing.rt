//! Archiving into a store of blocks.

ghost use Rattle.std.specs.Prelude.{◌≡◌, ◌≤◌, IsTrue};
ghost use Rattle.vac_model.specs.declared.TheConstants.{MIN_BLOCK_SIZE, MAX_BLOCK_SIZE};
ghost use Rattle.vac_store.specs.Storing.{archived_at, came_to, told};

use crate::{ArchiveError, ArchivedAt};
use std::alloc::Global;
use vac_write::{Archived, VacErr, archive};
use vt_out::Folder;
use vt_tree::{Blocks, TreeErr};
use vt_use::{BlockJob, StoreError, UsedAt};

/// A folder is archived (vac(1)) in blocks of at most so many bytes, 512 to 53,248.
#[derive(Drop)]
pub struct ArchiveFolder {
    pub bsize: u16,
}

impl<F: Folder> BlockJob<F> for ArchiveFolder {
    ghost use Rattle.std.specs.Prelude.{true};
    ghost use Rattle.vac_store.specs.Storing.{ArchivesOrGivesUp};
    ghost use Rattle.vac_write.specs.Archiving.{CountsFailures, folder_read};

    type Output = Result<Archived, VacErr>;

    ghost fits = { λ it folder. (MIN_BLOCK_SIZE ≤ it.bsize) × (it.bsize ≤ MAX_BLOCK_SIZE) };

    ghost does = { λ S act holds score_of it output before after calls old new.
        ArchivesOrGivesUp act holds score_of it.bsize (folder_read F.Folder before after) output
        calls old new
        × CountsFailures output (F.faults before) (F.faults after)
        × (IsTrue F.tells → (F.holds after ≡ F.holds before)
        × (F.may_fail after ≡ F.may_fail before)) };

    ghost writes = { λ it. true };

    /// It writes.
    fn writes(&self) -> bool {
        true
    }

    /// Archives the folder in blocks of its size.
    fn run<B: Blocks>(
        &self,
        alloc: Global,
        blocks: &mut B,
        folder: &mut F,
    ) -> Result<Archived, VacErr> {
        archive(alloc, folder, blocks, self.bsize)
    }
}

/// What an archiving comes to: what failed first is told.
pub fn archived_at(
    used: Result<UsedAt<Result<Archived, VacErr>>, StoreError>,
) -> Result<ArchivedAt, ArchiveError>
    ensures { result ≡ archived_at used }
{
    match used {
        Ok(
            UsedAt {
                output,
                refusal,
                blocks,
                closed,
            },
        ) => came_to(output, refusal, blocks, closed),
        Err(bad) => Err(ArchiveError::Store(bad)),
    }
}

/// The same, of a store that was used.
fn came_to(
    answer: Result<Archived, VacErr>,
    refusal: Option<StoreError>,
    blocks: u64,
    closed: Result<(), StoreError>,
) -> Result<ArchivedAt, ArchiveError>
    ensures { result ≡ came_to answer refusal blocks closed }
{
    match answer {
        Ok(archived) => match closed {
            Ok(()) => Ok(ArchivedAt { archived, blocks }),
            Err(bad) => Err(ArchiveError::Store(bad)),
        },
        Err(err) => Err(told(err, refusal)),
    }
}

/// Why no folder was archived, of a store that said no for this reason, if it did.
fn told(err: VacErr, refusal: Option<StoreError>) -> ArchiveError
    ensures { result ≡ told err refusal }
{
    match (err, refusal) {
        (VacErr::Tree(TreeErr::Block(_)), Some(bad)) => ArchiveError::Store(bad),
        (err, _) => ArchiveError::Folder(err),
    }
}
