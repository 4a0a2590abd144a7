//! Answering what a session hears, over any store of blocks (venti(6)).
//!
//! A session hears, asks the store, and replies, one request at a time, as its input comes in: no
//! reply waits for more of it.
// Tests: crates/vt_wire_tests/src/answer.rt.
#![tactic(auto)]

mod answering;
mod asking;
mod calls;
mod client;
mod link_client;
mod output;
mod serving;
mod store;
mod streams;

pub use answering::Answering;
pub use asking::reply;
pub use calls::{read, sync, write};
pub use client::Client;
pub use link_client::LinkClient;
pub use output::Output;
pub use serving::Served;
pub use store::Store;
pub use streams::Streams;
