//! A Venti server at an address: meeting it, and parting from it; what went over the link between, and
//! why a server didn't answer.
// Tests: crates/vt_wire_tests/src/remote.rt.
#![tactic(auto)]

mod laws;
mod talk;

pub use laws::{calls_are_exchanged, refusals_have_causes};
pub use talk::{RemoteError, meet, part};
