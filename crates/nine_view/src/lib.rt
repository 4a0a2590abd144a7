//! An archive as a read-only tree of files, for a client that speaks 9P2000 (manual section 5;
//! vacfs(4)).
// Tests: crates/nine_tests/src/view.rt, crates/nine_tests/src/ends.rt.
#![tactic(auto)]

mod answering;
mod error;
mod fid;
mod fids;
mod place;
mod reading;
mod request_error;
mod serving;
mod stats;
mod view;
mod walking;
mod way;

pub use answering::Answered;
pub use fid::{Fid, Reading};
pub use place::Place;
pub use request_error::RequestError;
pub use serving::{Ended, Served, serve_nine};
pub use view::View;
pub use way::Way;

/// The least bytes that a message may be agreed to have (version(5)).
pub const MIN_MESSAGE: u32 = 256;

const _: () = prove!(MIN_MESSAGE == 256);

/// The most, and as many as the buffers have.
pub const MAX_MESSAGE: usize = 65_536;

const _: () = prove!(MAX_MESSAGE == 65_536);

/// The most fids that a client may have set at a time.
pub const MAX_FIDS: usize = 1024;

const _: () = prove!(MAX_FIDS == 1024);

/// The most names of a walk (walk(5)).
pub const MAX_NAMES: u16 = 16;

const _: () = prove!(MAX_NAMES == 16);
