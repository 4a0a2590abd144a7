//! What drives a store: it takes one event at a time, and here requests are driven to their answers
//! and a store's use to its end. Commands call these by themselves, and a session asks a store by
//! way of them.
// Tests: crates/vt_core_tests/src/driving.rt.
#![tactic(auto)]

mod driven;
mod ending;
mod laws;
mod requests;
mod working;

pub use driven::Driven;
pub use ending::end;
pub use laws::{core_as_store, requests_are_runs};
pub use requests::{ask, sync};
