//! Formatting partitions, which are taken by name: what the commands of venti(8) do that make them,
//! and the words of these commands.
// Tests: crates/vt_store_tests/src/format.rt.
#![tactic(auto)]

mod arenas;
mod filter;
mod index;
pub mod laws;
mod opening;
mod section;
mod usage;
mod words;

pub use arenas::{format_arenas, make_arenas};
pub use filter::{format_filter, make_filter};
pub use index::{Index, IndexError, format_index};
pub use section::{format_section, make_section};
pub use usage::put_all_to_use;
pub use words::{
    NameError, parse_arena_size, parse_filter_size, parse_len, parse_name, parse_positions,
};

/// The most bytes that a device has, 1 TiB.
pub const MAX_LEN: u64 = 1 << 40;

/// How many bytes a Bloom filter has at least and at most.
pub const LEAST_FILTER: u64 = 8192;

/// 1 MiB.
pub const MOST_FILTER: u64 = 1 << 20;

/// How many bits of a Bloom filter a score has at most.
pub const MOST_POSITIONS: u64 = 32;

/// How many arenas and how many buckets a store has at most.
pub const MAX_ARENAS: u64 = 4096;

/// 1,048,576, so that two bytes for each bucket are 2 MiB.
pub const MAX_BUCKETS: u64 = 1 << 20;
