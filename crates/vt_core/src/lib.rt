//! The store: a log, a shard for each index section and a Bloom filter, as one machine that takes
//! one event at a time (Quinlan and Dorward, "Venti: a new approach to archival storage", FAST
//! 2002). After a crash at any moment it is found again with a prefix of its history that has every
//! block that a sync covered.
// Tests: crates/vt_core_tests/src/asking.rt (answers), drawn.rt (events beside a plain list),
// crashing.rt, mounting.rt and refusals.rt (mounting).
#![tactic(auto)]

mod advancing;
mod asking;
mod event;
mod filing;
mod laws;
mod mounting;
mod outs;
mod store;
mod waiting;

pub use event::{Event, Out};
pub use laws::{
    crash_gives_a_prefix, devices_have_a_log, lives_are_lives_of_the_machine, marks_are_read,
    recovery_is_a_crash, refusals_name_two, runs_are_runs_of_the_machine, runs_keep_the_store,
    stores_can_be_mounted, what_is_read_is_a_prefix,
};
pub use mounting::{test_arenas, test_buckets, test_heads};
pub use outs::Outs;
pub use store::Core;

/// How many arenas all partitions may have.
pub const MOST_ARENAS: u32 = 4_096;

/// How many buckets all sections may have.
pub const MOST_BUCKETS: u32 = 1_048_576;
