//! The messages of 9P2000 (manual section 5): what a client sends, read, and what a server sends,
//! written. Nothing here takes memory.
// Tests: crates/nine_tests/src/wire.rt.
#![tactic(auto)]

mod decoder;
mod encoder;
mod fields;
pub mod laws;
mod message;
mod names;
mod stat;

pub use decoder::decode;
pub use encoder::{encode, put_stat};
pub use message::{NineError, Reply, Request};
pub use names::Names;
pub use stat::{Qid, Stat};

/// The fid that names no file (attach(5)).
pub const NO_FID: u32 = 0xffff_ffff;

const _: () = prove!(NO_FID == 0xffff_ffff);
