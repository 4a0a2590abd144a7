//! What stands outside the store: byte streams, links, files by name, the clock, folders of files
//! and folders by name, as traits, with fakes in memory; and what is told of a long call's progress.
// Tests: crates/vt_base_tests/src/out.rt, folder.rt and folders.rt.
#![tactic(auto)]

mod clock;
mod files;
mod finding_items;
mod folder;
mod folder_item;
mod folder_place;
mod folders;
mod link;
mod mem_files;
mod mem_folder;
mod mem_folders;
mod mem_link;
mod mem_path;
mod mem_sink;
mod mem_source;
mod plan;
mod progress;
mod sink;
mod source;

pub use clock::{Clock, MemClock};
pub use files::{Files, OutErr};
pub use folder::Folder;
pub use folder_item::{Facts, Item, ItemKind, Listing};
pub use folders::Folders;
pub use link::Link;
pub use mem_files::{MemFile, MemFiles};
pub use mem_folder::{MemContent, MemFolder, MemItem};
pub use mem_folders::MemFolders;
pub use mem_link::MemLink;
pub use mem_path::MemPath;
pub use mem_sink::MemSink;
pub use mem_source::MemSource;
pub use progress::{Progress, Silent};
pub use sink::Sink;
pub use source::Source;
