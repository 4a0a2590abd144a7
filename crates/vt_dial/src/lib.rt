//! Links that are made to an address, as a trait, with their fake in memory.
// Tests: crates/vt_base_tests/src/dial.rt.
#![tactic(auto)]

mod dialer;
mod mem_dialer;
mod place;

pub use dialer::Dialer;
pub use mem_dialer::MemDialer;
