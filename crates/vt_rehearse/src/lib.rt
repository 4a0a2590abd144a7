//! A rehearsal of a store: rounds that are drawn from a number, crashes among them, each answer of
//! which is compared with a plain list.
// Tests: crates/vt_store_tests/src/rehearse.rt.
#![tactic(auto)]

mod crashing;
mod draws;
pub mod laws;
mod opening;
mod reading;
mod rehearsal;
mod rounds;
mod stage;
mod summary;
mod verdicts;
mod words;
mod working;
mod writing;

pub use rehearsal::rehearse;
pub use rounds::Round;
pub use summary::Summary;

/// How many sessions ask the store.
pub const SESSIONS: u32 = 3;

/// How many shards it has.
pub const SHARDS: u32 = 2;
