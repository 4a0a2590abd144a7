//! Archiving a folder into a store at a place, which is that of a configuration or a server's (vac(1)).
// Tests: crates/vac_tests/src/stored.rt, crates/vt_wire_tests/src/sent.rt.
#![tactic(auto)]

mod laws;
mod outcome;
mod storing;

pub use laws::{
    archives_are_kept, folders_are_unfit, sent_archives_are_exchanged, stores_keep_archives,
    truthful_servers_keep_archives,
};
pub use outcome::{ArchiveError, ArchivedAt};
pub use storing::{ArchiveFolder, archived_at};
