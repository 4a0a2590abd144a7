//! Keeping the store that a configuration names: rebuilding its index from its log, and checking
//! its arenas (venti(8), buildindex and checkarenas).
// Tests: crates/vt_store_tests/src/upkeep.rt.
#![tactic(auto)]

mod checking;
mod error;
mod laws;
mod opened;
mod rebuilding;

pub use checking::check_store;
pub use error::MaintainError;
pub use laws::{rebuilt_stores_can_be_opened, refusals_name_two};
pub use rebuilding::rebuild_store;
