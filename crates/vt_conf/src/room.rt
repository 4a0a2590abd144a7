//! How much memory each shard of the index gets.

ghost use Rattle.std.specs.Prelude.{◌≡◌, ◌<◌};
ghost use Rattle.vt_conf.specs.Room.{cached_blocks, entry_room};

use vt_base::MAX_BLOCK;

/// How many bytes of `icmem` one index entry counts for.
const ENTRY_LEN: u64 = 64;

/// How many blocks the cache of one shard keeps: what `mem` bytes have room for, over the count of
/// index sections, but from 4 to 65,536.
pub fn cached_blocks(mem: u64, sections: u32) -> u32
    requires { 0 < sections }
    ensures { result ≡ cached_blocks mem sections }
{
    (mem / MAX_BLOCK as u64 / u64::from(sections))
        .max(4)
        .min(65_536) as u32
}

/// How many entries that are on the disk the cache of one shard keeps: what `icmem` bytes have room
/// for, over the count of index sections, but from 64 to 1,048,576.
pub fn entry_room(icmem: u64, sections: u32) -> u32
    requires { 0 < sections }
    ensures { result ≡ entry_room icmem sections }
{
    (icmem / ENTRY_LEN / u64::from(sections))
        .max(64)
        .min(1 << 20) as u32
}
