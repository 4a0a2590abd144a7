//! Why a store can't be mounted, by the words in which its parts refuse: each part's own refusal as
//! the store's, under the number of the part.
// Tests: crates/vt_core_tests/src/refusals.rt.
#![tactic(auto)]

mod laws;
mod mount_errors;

pub use laws::refusals_name_two;
pub use mount_errors::{of_arena, of_filter, of_log, of_part, of_section, of_shard};
