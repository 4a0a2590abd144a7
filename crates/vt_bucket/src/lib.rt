//! A bucket of the index: up to 263 entries in the order of their keys, and the frame of 8,192
//! bytes that it has on a disk. Nothing here takes memory.
// Tests: crates/vt_disk_tests/src/bucket.rt.
#![tactic(auto)]

ghost use Rattle.std.specs.Prelude.{◌≤◌, take};
ghost use Rattle.vt_model.specs.declared.TheConstants.{BUCKET_ROOM};
ghost use Rattle.vt_bucket.specs.Order.{IsAscending};

use vt_base::Entry;
use vt_model::BUCKET_ROOM;

mod decoding;
mod encoding;
mod holding;
mod laws;

pub use decoding::{BucketBad, decode};
pub use holding::Full;
pub use laws::frames_are_told_apart;

/// How many bytes a frame has.
pub const FRAME_LEN: usize = 8192;

const _: () = prove!(FRAME_LEN == 8192);

/// How many bytes stand before the first entry: magic, number and count.
pub const FIELDS_LEN: usize = 4 + 4 + 2;

const _: () = prove!(FIELDS_LEN == 10);

/// How many bytes an entry has: score, type, size, arena and offset.
pub const CELL_LEN: usize = 20 + 1 + 2 + 4 + 4;

const _: () = prove!(CELL_LEN == 31);

// A frame has room for as many entries as a bucket.
const _: () = prove!(BUCKET_ROOM == (FRAME_LEN - FIELDS_LEN) / CELL_LEN);

/// A bucket's number over all sections, and its entries in the order of their keys.
#[derive(Drop)]
pub struct Bucket {
    number: u32,
    /// How many entries it has.
    len: usize,
    /// The entries, and behind them what isn't read.
    table: [Entry; BUCKET_ROOM],
    ghost within: { len ≤ BUCKET_ROOM },
    ghost ascending: { IsAscending (take len table) },
}
