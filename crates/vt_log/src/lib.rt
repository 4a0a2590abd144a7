//! A log: the arenas of all partitions, filled and committed one after another (Quinlan and
//! Dorward, "Venti: a new approach to archival storage", FAST 2002), and before them a queue of
//! blocks that are accepted and not yet committed.
// Tests: crates/vt_log_tests/src/log.rt.
#![tactic(auto)]

mod back;
mod committing;
mod error;
mod filling;
mod laws;
mod log;
mod mounting;
mod queue;
mod reading;

pub use back::Tail;
pub use error::{Full, LogBad, LogErr, Progress};
pub use laws::{crash_gives_a_prefix, logs_are_told_apart};
pub use log::Log;
pub use mounting::{format, mount};
use vt_arena::STAGED_MAX;

/// How many blocks may be queued: as many as one commit takes.
pub const QUEUE_MAX: usize = STAGED_MAX;

const _: () = prove!(QUEUE_MAX == 64);
