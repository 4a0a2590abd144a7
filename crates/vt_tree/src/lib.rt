//! Files and directories as trees of blocks (venti(6)): entries and roots, stores of blocks, and
//! streams that are written to them and read back.
// Tests: crates/vt_tree_tests/src/tree.rt, crates/vt_tree_tests/src/streams.rt.
#![tactic(auto)]

mod blocks;
mod entry;
mod error;
pub mod laws;
mod mem_blocks;
mod plain;
mod reading;
mod root;
mod writing;

pub use blocks::Blocks;
pub use entry::{ENTRY_LEN, Entry, EntryError, EntryField};
pub use error::{BlockErr, TreeErr};
pub use mem_blocks::{MemBlocks, Stored};
pub use plain::{ContentError, byte_at, content};
pub use reading::read_range;
pub use root::{ROOT_LEN, Root, RootError};
pub use writing::write_stream;
