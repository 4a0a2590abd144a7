//! What comes of archiving a folder into a store.

use vac_write::{Archived, VacErr};
use vt_use::StoreError;

/// What was archived in a store.
#[derive(Drop)]
pub struct ArchivedAt {
    pub archived: Archived,
    /// How many of the blocks that were put for it are new in the store of a configuration; or how
    /// many were sent to a server, each of which it took in.
    pub blocks: u64,
}

/// Why a folder isn't archived in a store.
#[derive(Drop)]
pub enum ArchiveError {
    /// The store wasn't opened, or not reached, or it said no, or failed.
    Store(StoreError),
    /// The folder itself couldn't be listed, it has something that can't be archived, or memory ran
    /// out.
    Folder(VacErr),
}
