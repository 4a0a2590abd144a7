//! Making a disk a partition.

ghost use Rattle.std.specs.Prelude.{◌≡◌, ◌↔◌, ◌⊎◌, ◌+◌, ◌-◌, ◌<◌, ◌≤◌, ◌++◌, ℕ, List, codes, length, IsTrue, IfOk, IfErr, OnOk, Err};
ghost use Rattle.byteorder.specs.Endian.{big_bytes};
ghost use Rattle.vt_base.specs.Faults.{CountsFault};
ghost use Rattle.vt_disk.specs.Calls.{WritesAt, MadeCalls, IsSynced};
ghost use Rattle.vt_disk.specs.Disk.{Touches, with_bytes};
ghost use Rattle.vt_part.specs.Faults.{RefusesPartFormat, is_part_fault};
ghost use Rattle.vt_part.specs.Table.{IsPartName, IsArenaSize, IsPartition, table_block, count_for, table_for};

use crate::TABLE_LEN;
use crate::error::PartBad;
use vt_base::Text;
use vt_base::fields::{filled, put, put_u16, put_u32, put_u64};
use vt_disk::{BLOCK_LEN, Disk, LEAST_ARENA, MOST_ARENA, NAME_LEN};

/// Whether a partition may be given this name. It has 1 to 64 bytes, each a letter or a digit of
/// ASCII, a dot, a dash or an underscore.
pub fn is_name(name: &[u8]) -> bool
    ensures { IsTrue result ↔ IsPartName name.now }
{
    !name.is_empty()
        && name.len() <= NAME_LEN
        && name.iter().all(|b| b.is_ascii_alphanumeric() || *b == b'.' || *b == b'-' || *b == b'_')
}

/// Whether an arena may have this many bytes: whole blocks, from 32 KiB to 1 GiB.
pub fn is_arena_size(size: u64) -> bool
    ensures { IsTrue result ↔ IsArenaSize size }
{
    size % BLOCK_LEN as u64 == 0 && LEAST_ARENA <= size && size <= MOST_ARENA
}

/// Makes the disk a partition of as many arenas as it has room for: writes block 0 and syncs it.
/// Gives the count of arenas, which are still to be formatted.
pub fn format<D: Disk>(disk: &mut D, name: &Text, arena_size: u64) -> Result<u32, PartBad>
    requires name { IsPartName name.now }
    requires arena_size { IsArenaSize arena_size }

    ensures count { IfOk result (λ n. n ≡ count_for (D.size disk.old) arena_size) }
    ensures written { OnOk result (IsTrue D.tells → D.bytes disk.new ≡ with_bytes 0
        (table_block (table_for name.now (D.size disk.old) arena_size)) (D.bytes disk.old)) }

    // Whatever a crash leaves from then on, it leaves the partition.
    ensures partition { OnOk result (IsTrue D.tells → (c : List ℕ) → D.images disk.new c
        → IsPartition (table_for name.now (D.size disk.old) arena_size) c) }
    ensures settled { OnOk result (IsSynced D.Disk disk.new) }

    ensures room { OnOk result (BLOCK_LEN + arena_size ≤ D.size disk.old) }
    ensures refused { IfErr result (RefusesPartFormat (D.size disk.old) arena_size) }
    ensures untouched { D.size disk.old < BLOCK_LEN + arena_size → disk.new ≡ disk.old }

    // Nothing behind the block changes, and nothing is done behind a call that fails: that is the
    // block's write or, with the block written, the sync.
    ensures writes { WritesAt D.Disk (Touches 0 BLOCK_LEN) 2 disk.old disk.new }
    ensures calls { OnOk result (MadeCalls D.Disk 2 disk.old disk.new) }
    ensures failed { result ≡ Err PartBad.Fault → MadeCalls D.Disk 1 disk.old disk.new
        ⊎ (MadeCalls D.Disk 2 disk.old disk.new
        × (IsTrue D.tells → D.bytes disk.new ≡ with_bytes 0
        (table_block (table_for name.now (D.size disk.old) arena_size)) (D.bytes disk.old))) }
    ensures cause { CountsFault is_part_fault result (D.faults disk.old) (D.faults disk.new) }
{
    let len = disk.len();
    let need = BLOCK_LEN as u64 + arena_size;
    if len < need {
        return Err(PartBad::TooSmall { len, need });
    }
    let count = ((len - BLOCK_LEN as u64) / arena_size).min(u64::from(u32::MAX)) as u32;
    disk.write_at(0, &encode(name.as_slice(), arena_size, count))?;
    disk.sync()?;
    Ok(count)
}

/// The bytes of block 0: the table, which `Head::decode` reads back, and zeros behind it.
fn encode(name: &[u8], arena_size: u64, count: u32) -> [u8; BLOCK_LEN]
    requires { length name.now ≤ NAME_LEN }
    ensures { result
        ≡ table_block (record { name = name.now; arena_size = arena_size; count = count }) }
{
    let head = encode_head(&filled(name), arena_size, count);
    filled(&head)
}

/// The bytes of a table with this field of a name.
fn encode_head(name: &[u8; NAME_LEN], arena_size: u64, count: u32) -> [u8; TABLE_LEN]
    requires { length name.now ≡ NAME_LEN }
    ensures { result ≡ codes "VPRT" ++ (big_bytes 2 1
        ++ (name.now ++ (big_bytes 8 arena_size ++ big_bytes 4 count))) }
{
    let mut head = [0; TABLE_LEN];
    let at = put(&mut head, 0, b"VPRT");
    let at = put_u16(&mut head, at, 1);
    let at = put(&mut head, at, name);
    let at = put_u64(&mut head, at, arena_size);
    put_u32(&mut head, at, count);
    head
}
