//! A Bloom filter over scores, and its saved form on a device: a pair of frames that changes whole,
//! with the filter's bits and a mark.
// Tests: crates/vt_disk_tests/src/bloom.rt.
#![tactic(auto)]

mod bits;
mod bloom;
mod error;
mod formatting;
mod frame;
mod laws;
mod mounting;
mod size;

pub use bits::{Bits, positions};
pub use bloom::Bloom;
pub use error::{BloomError, Field};
pub use formatting::format;
pub use laws::{
    crash_gives_old_or_new, marked_scores_stay, saved_filters_are_told_apart, true_marks_stay,
};
pub use mounting::mount;
pub use size::exponent;
use vt_disk::BLOCK_LEN;

/// The least device: two frames of the smallest filter, which has 8,192 bytes, and a block for the
/// selector.
pub const LEAST_LEN: u64 = 2 * (BLOCK_LEN as u64 + 8192) + BLOCK_LEN as u64;

const _: () = prove!(LEAST_LEN == 40_960);
