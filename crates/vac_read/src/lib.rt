//! Reading archives (vacfs(4)).
// Tests: crates/vt_tree_tests/src/reading.rt, crates/vac_tests/src/round_trip.rt.
#![tactic(auto)]

mod archive;
mod directory;
mod error;
mod folders;
mod items;
mod kept;
mod last_way;
pub mod laws;
mod node;
mod records;

pub use archive::Archive;
pub use error::{RootField, VacBad};
pub use folders::{find_item, list, read, read_on_way, walk};
pub use kept::Kept;
pub use last_way::{LastWay, WayBlock};
pub use node::{Node, Nodes, Stored};
use vac_model::MAX_METADATA;

/// What a folder that is kept counts beside its metadata, in bytes, so that at most 514 are kept.
pub const KEPT_FOLDER: u64 = 65_536;

const _: () = prove!(KEPT_FOLDER == 65_536);

/// What all folders that are kept may count together, in bytes: as much as two of the largest do.
pub const MAX_KEPT: u64 = 2 * (MAX_METADATA as u64 + KEPT_FOLDER);

const _: () = prove!(MAX_KEPT == 33_685_504);

/// How many blocks are kept of the way of the last reading at most: a leaf, and seven pointer blocks above it.
pub const MAX_WAY: usize = 8;

const _: () = prove!(MAX_WAY == 8);
