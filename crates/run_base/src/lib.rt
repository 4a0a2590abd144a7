//! What all commands of the program share: what they are lent, how one may fail and what is then told,
//! its configuration and its words, and what it prints and shows.
// Tests: crates/run_tests_sessions/src, crates/run_tests_stores/src, crates/run_tests_archives/src.
#![tactic(auto)]

mod block;
mod complaint;
mod configuration;
mod error;
mod host;
mod memory;
mod place;
mod printing;
mod served;
mod shown;
mod unopened;

pub use block::{refusal_for, score_in, told_at, type_in};
pub use complaint::{complain_of, hexadecimal, put_line};
pub use configuration::read_conf;
pub use error::{CommandError, status};
pub use host::Outside;
pub use memory::{memory_store, read_made, write_made};
pub use place::{Place, find_store, is_in_memory, store_at};
pub use printing::{print, put_pieces};
pub use served::outcome_of;
pub use shown::{Shown, Unit};
pub use unopened::{name_at, refusal_among, told, told_on};
