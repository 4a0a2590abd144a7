//! Archives of folders (vac(1), vacfs(4)): which blocks a folder's archive has, and which folder a
//! root stands for.
// Tests: crates/vac_tests/src/archives.rt.
#![tactic(auto)]

pub mod laws;

/// The least block size of an archive.
pub const MIN_BLOCK_SIZE: u16 = 512;

/// The greatest block size of an archive, 52 KiB.
pub const MAX_BLOCK_SIZE: u16 = 53_248;

/// The most bytes of a file, 1 TiB.
pub const MAX_FILE: u64 = 1 << 40;

/// The most bytes of a folder's metadata, 16 MiB.
pub const MAX_METADATA: usize = 16_777_216;

/// How deep folders are nested at most; the top folder isn't counted.
pub const MAX_NESTING: usize = 256;
