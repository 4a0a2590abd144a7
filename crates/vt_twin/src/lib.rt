//! A double-buffered frame: two frames and a selector, whose first byte names the current one by
//! its parity. A change writes the idle frame, syncs, writes the selector and syncs, one device
//! call at a time, so that whatever a crash leaves gives the old frame or the new one.
// Tests: crates/vt_disk_tests/src/twin.rt.
#![tactic(auto)]

mod calls;
mod laws;
mod mounting;
mod step;
mod twin;

pub use laws::{crash_gives_old_or_new, soundness_is_kept};
pub use mounting::{format, mount};
pub use step::Step;
pub use twin::{Twin, TwinErr};
