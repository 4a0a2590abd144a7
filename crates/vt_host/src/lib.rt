//! The outside as it is: standard streams, connections over TCP, the system's clock, files, and files
//! as disks.
//!
//! Each failed call is counted. Streams, files, disks, dialers and clocks tell just what the calls of the
//! system below them tell: which were made, in which order and with which answers, and what is held;
//! folders and partitions say it in clauses of their own, and what a terminal is shown in none. The
//! system's own calls, in `system.rt` and `paths.rt`, are trusted and tell nothing. Between them and
//! the adapters may stand what tells of each call that fails (`vt_told`).
// Tests: crates/vt_host_tests/src/streams.rt (source, sink), named.rt (files, parts), disk.rt,
// folder.rt and owners.rt (folders), dialer.rt (links), clock.rt, terminal.rt.
#![tactic(auto)]

mod clock;
mod dialer;
mod disk;
mod faults;
mod files;
mod folder;
mod folders;
mod link;
mod owners;
mod parts;
mod paths;
mod sink;
mod source;
mod system;
mod terminal;

pub use clock::StdClock;
pub use dialer::StdDialer;
pub use disk::FileDisk;
pub use files::StdFiles;
pub use folder::StdFolder;
pub use folders::StdFolders;
pub use link::StdLink;
pub use parts::FileParts;
pub use paths::{FolderCalls, Look, PieceCalls};
pub use sink::StdSink;
pub use source::StdSource;
pub use system::{ClockCalls, Connector, FileCalls, Opener, ReadCalls, System, WriteCalls};
pub use terminal::{Erasing, Terminal};
