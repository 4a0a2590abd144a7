//! The log and the shards of a store, which many threads take in turns, under one rule over the
//! words that they share, the parts at home and what each thread's pass has seen, added and learnt.
// Tests: crates/vt_turns_example/src/tests.rt.
#![tactic(auto)]

mod bits;
mod held;
mod making;
mod passes;
mod shared;
mod steps;
mod turns;
mod view;

pub use held::Held;
pub use shared::{Fixed, Law, Turns};
pub use steps::Opened;
pub use view::{Opening, Pass, View};
