//! A clump in memory, on its way to an arena.

ghost use Rattle.std.specs.Prelude.{◌≡◌, ◌<◌, ◌≤◌, length};
ghost use Rattle.vt_base.specs.declared.TheConstants.{MAX_BLOCK};
ghost use Rattle.vt_clump.specs.Spelling.{clump_len};

use vt_base::{Bytes, Kind, Score};

/// A clump to be stored.
#[derive(Drop)]
pub struct Packed {
    pub kind: Kind,
    pub score: Score,
    /// How many bytes the block has.
    pub len: u32,
    /// The whole clump.
    pub bytes: Bytes,
    ghost whole: { length bytes ≡ clump_len len },
    ghost some: { 0 < len },
    ghost most: { len ≤ MAX_BLOCK },
}
