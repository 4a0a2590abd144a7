//! Archiving folders (vac(1)).
// Tests: crates/vac_tests/src/archives.rt, crates/vac_tests/src/round_trip.rt.
#![tactic(auto)]

mod archived;
mod archiving;
mod error;
mod laws;
mod listing;
mod sources;
mod streams;

pub use archived::{Archived, Paths};
pub use archiving::archive;
pub use error::VacErr;
pub use laws::whole_folders_are_archived;
