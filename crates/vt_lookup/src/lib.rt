//! Looking a block up in the log and in the shard of its score, testing one that is to be written,
//! and adding it: the steps of a read and of a write, over the parts that are handed in.
// Tests: crates/vt_core_tests/src/steps.rt.
#![tactic(auto)]

mod finding;
mod writing;

pub use finding::{find_block, why_of_shard};
pub use writing::{Verdict, add_block, test_write};
