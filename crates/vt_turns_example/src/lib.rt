//! A plain store of keys and values in memory that many threads share, over the turns of
//! `vt_turns`: the form in which a server serves its links, without disks.
//!
//! A key has one value for ever. The log is a list of blocks, and a shard is a map from the keys of
//! a range to the numbers of their blocks.
// Tests: crates/vt_turns_example/src/tests.rt.
#![tactic(auto)]

mod link;
mod opening;
mod part;
mod running;
mod script;
mod serving;
mod store;
mod workers;
mod writing;

pub use link::{Ask, Line, Link, Listener, Said};
pub use opening::open;
pub use part::{Block, Log, Part, Shard};
pub use running::run;
pub use script::{Script, Scripts};
pub use serving::serve;
pub use store::Store;
pub use workers::{End, Served, Serves, Started, meet, serve_all, serve_two};

#[cfg(test)]
mod tests;
