//! Finding a store again on what its devices hold: its sections and its filter are opened, and its
//! log is read back for what these lack (Quinlan and Dorward, "Venti: a new approach to archival
//! storage", FAST 2002).
// Tests: crates/vt_core_tests/src/mounting.rt, crates/vt_core_tests/src/crashing.rt.
#![tactic(auto)]

mod devices;
mod opening;
mod recalling;

pub use devices::{Devices, close_shards, device_of};
pub use opening::{close_sections, open_filter, open_memory, open_sections};
pub use recalling::{least_mark, read_back};
