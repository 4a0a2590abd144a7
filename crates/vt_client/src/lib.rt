//! A client of a Venti server over a link (venti(6), version 02), which is a store of blocks too.
// Tests: crates/vt_wire_tests/src/client.rt.
#![tactic(auto)]

mod blocks;
mod client;
mod error;
mod exchange;
mod greeting;
pub mod laws;

pub use client::Client;
pub use error::{ClientErr, LinkError};
