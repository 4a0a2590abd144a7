//! The configuration of a store (venti.conf(6)), numbers, sizes and addresses as text, and how much
//! memory each shard of the index gets.
// Tests: crates/vt_base_tests/src/conf.rt.
#![tactic(auto)]

mod address;
mod conf;
mod error;
mod keyword;
pub mod laws;
mod line;
mod number;
mod parsing;
mod room;
mod said;
mod setting;
mod size;

pub use address::{Address, VENTI_PORT, parse_address};
pub use conf::{Conf, PartFile};
pub use error::{ConfBad, ConfCause, ConfErr, conf_text};
pub use keyword::Keyword;
pub use number::{NumberError, parse_number};
pub use parsing::parse_conf;
pub use room::{cached_blocks, entry_room};
pub use setting::Setting;
pub use size::parse_size;

/// The most bytes that a configuration has.
pub const MAX_CONF: usize = 65_536;

/// The most files of arenas, and the most files of index sections.
pub const MAX_FILES: usize = 64;
