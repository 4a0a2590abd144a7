//! Stores without blocks: what formatting leaves on the devices of a store, that it can be opened,
//! and such stores in memory.
// Tests: crates/vt_store_tests/src/fresh.rt.
#![tactic(auto)]

mod devices;
pub mod laws;
mod sections;
mod shape;
mod store;

pub use devices::fresh_devices;
pub use shape::Shape;
pub use store::fresh_store;
