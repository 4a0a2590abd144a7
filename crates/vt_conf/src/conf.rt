//! What a configuration says.

use crate::Address;
use vt_base::Text;

/// How many bytes the cache of blocks has where a configuration doesn't say it: room for 1,170 of
/// the largest, so that reading a folder of some thousand files finds the blocks above them here.
pub const DEFAULT_MEM: u64 = 64 << 20;
/// How many bytes the cache of index entries has where a configuration doesn't say it.
pub const DEFAULT_ICMEM: u64 = 1 << 20;

/// A file that a configuration names, and the line that names it, counted from 1.
#[derive(Drop)]
pub struct PartFile {
    pub name: Text,
    pub line: usize,
}

/// What a configuration says (venti.conf(6)).
#[derive(Drop)]
pub struct Conf {
    /// The index's name, `main` where no line says it.
    pub index: Text,
    /// The files with partitions of arenas, in order: from 1 to 64.
    pub arenas: Vec<PartFile>,
    /// The files with index sections, in order: from 1 to 64.
    pub sections: Vec<PartFile>,
    /// The file with the Bloom filter, if there is one.
    pub filter: Option<PartFile>,
    /// How many bytes of blocks are kept in memory.
    pub mem: u64,
    /// How many bytes of index entries are kept in memory.
    pub icmem: u64,
    /// Where a server listens.
    pub addr: Address,
}
