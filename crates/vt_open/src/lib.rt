//! Opening the store that a configuration names, and handing its partitions back.
// Tests: crates/vt_store_tests/src/opening.rt.
#![tactic(auto)]

mod closing;
mod error;
mod files;
mod laws;
mod opening;
mod taking;

pub use closing::{close_store, give_all};
pub use error::OpenError;
pub use files::file_of;
pub use laws::{
    configurations_can_be_opened, devices_have_names, opened_stores_recall, refused_stores_stand,
    shapes_are_kept,
};
pub use opening::open_store;
pub use taking::take_all;
