//! The program over streams, files, partitions, folders and servers in memory, for tests of the whole
//! program: runs of it and what they leave, stores that tests make, and tables of runs.
#![tactic(auto)]

mod acts;
mod bits;
mod call_order;
mod host;
pub mod messages;
mod partitions;
mod patient;
mod ran;
mod running;
mod stores;
mod talk;

pub use acts::{Act, Row, Told, do_act, do_acts, see_row, see_rows, see_talk};
pub use bits::{Bits, are_joined, joined};
pub use call_order::CallOrder;
pub use host::{Runtime, folder_named};
pub use partitions::{Partitions, Twin};
pub use patient::{Part, run_patient};
pub use ran::{Ran, Wanted};
pub use running::{Given, Server, run, run_noted, run_scored, run_with_folders};
pub use stores::{
    Commands, FILTERED, INDEX, NAMES, ONE_ARENA, ONE_BUCKET, PARTITIONS, SMALL_ARENA, SMALL_STORE,
    THIRD_BYTE, TWO_ARENAS, all_but, failing_store, made, make, noted, store, store_failing,
};
pub use talk::{Talk, numbered};
