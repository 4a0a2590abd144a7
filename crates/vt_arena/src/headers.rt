//! The headers of an arena's clumps, from the last one to the first.

ghost use Rattle.std.specs.Prelude.{◌≡◌, ◌+◌, ◌<◌, ◌≤◌, ◌^◌, ℕ, List, IsTrue, IfErr, IfSome, None};
ghost use Rattle.vt_base.specs.Faults.{CountsFault};
ghost use Rattle.vt_disk.specs.Calls.{OnlyReads, MadeCalls};
ghost use Rattle.vt_disk.specs.Region.{FitsDisk};
ghost use Rattle.vt_arena.specs.Directory.{walks_headers, last_header, first_bad_header, bad_magic, bad_sectors, bad_before, sectors_before, entry_in_header, WalksBy, NamesDamage, is_back_fault};
ghost use Rattle.vt_arena.specs.Places.{IsArenaLen, block_room, directory_room, arena_room, bad_last};

use crate::directory::{At, bad_sizes, bad_sum, damaged, give};
use crate::error::BackBad;
use crate::head::ArenaHead;
use crate::{bad_last, block_room, sectors_of};
use vt_base::fields::{u16_at, u32_at};
use vt_base::{FieldValue, Info};
use vt_disk::{Disk, Region};
use vt_model::{ARENA_HEAD_LEN, CLUMP_HEADER_LEN, CLUMP_UNIT, DIRECTORY_ENTRY_LEN};

/// What its header says of the clump at which the walk stands. It makes one read.
pub(crate) fn info_by_header<D: Disk>(
    disk: &mut D,
    region: Region,
    head: &ArenaHead,
    at: &mut At,
) -> Result<Info, BackBad>
    requires region { FitsDisk region (D.size disk.old) }
    requires len { IsArenaLen region.len }
    requires walks { IsTrue (walks_headers head.now) }
    requires some { 0 < at.old.index }
    requires end { at.old.end ≤ head.now.used }
    requires clump { bad_last at.old.index at.old.end at.old.sectors ≡ None }
    requires fit { head.now.used + directory_room head.now.version head.now.clumps
        ≤ arena_room region.len }
    ensures answer { (header : List ℕ)
        × (IsTrue D.tells → header ≡ last_header region at.old (D.bytes disk.old))
        × WalksBy head.now (first_bad_header head.now at.old header) (entry_in_header header)
        (sectors_before header) at.old at.new result }
    ensures differs { IfErr result NamesDamage }
    ensures reads { OnlyReads D.Disk 1 disk.old disk.new }
    ensures calls { MadeCalls D.Disk 1 disk.old disk.new }
    ensures cause { CountsFault is_back_fault result (D.faults disk.old) (D.faults disk.new) }
{
    let mut header = [0; CLUMP_HEADER_LEN];
    let place = ARENA_HEAD_LEN as u64 + at.end - CLUMP_UNIT as u64 * u64::from(at.sectors);
    let Ok(()) = region.read_at(disk, place, &mut header) else {
        return Err(BackBad::Fault);
    };
    if let Some(bad) = first_bad_header(&header, head, *at) {
        return Err(bad);
    }
    Ok(give(head, at, &entry_of(&header), u32_at(&header, 30)))
}

/// The directory entry in a header: its fields stand behind the magic number, in the entry's order.
fn entry_of(header: &[u8; CLUMP_HEADER_LEN]) -> [u8; DIRECTORY_ENTRY_LEN]
    ensures { result ≡ entry_in_header header.now }
{
    let mut entry = [0; DIRECTORY_ENTRY_LEN];
    entry.copy_from_slice(&header[4..29]);
    entry
}

/// The first test of a header that fails, where the walk stands at it.
fn first_bad_header(header: &[u8; CLUMP_HEADER_LEN], head: &ArenaHead, at: At) -> Option<BackBad>
    requires end { at.end ≤ head.now.used }
    requires small { head.now.used ≤ 2 ^ 30 }
    ensures first { result ≡ first_bad_header head.now at header.now }
    ensures differs { IfSome result NamesDamage }
{
    let entry = entry_of(header);
    let size = u16_at(&entry, 1);
    bad_magic(header)
        .or(bad_sizes(&entry))
        .or(bad_sectors(at, size))
        .or(bad_sum(head, at, size))
        .or(bad_before(head, at, size, u32_at(header, 30)))
}

/// Why it is no clump that begins there.
fn bad_magic(header: &[u8; CLUMP_HEADER_LEN]) -> Option<BackBad>
    ensures first { result ≡ bad_magic header.now }
    ensures differs { IfSome result NamesDamage }
{
    let mut magic = [0; 4];
    magic.copy_from_slice(&header[..4]);
    if magic == *b"VCLP" {
        return None;
    }
    Some(BackBad::Damaged {
        want: FieldValue::Magic(*b"VCLP"),
        found: FieldValue::Magic(magic),
    })
}

/// Why the clump of a block of `size` bytes isn't the one of which the clump behind it tells the
/// sectors, or the head.
fn bad_sectors(at: At, size: u16) -> Option<BackBad>
    ensures first { result ≡ bad_sectors at size }
    ensures differs { IfSome result NamesDamage }
{
    let sectors = sectors_of(size);
    if sectors == at.sectors {
        return None;
    }
    Some(damaged(u64::from(at.sectors), u64::from(sectors)))
}

/// Why before a clump whose block has `size` bytes there can't be one of `before` sectors.
fn bad_before(head: &ArenaHead, at: At, size: u16, before: u32) -> Option<BackBad>
    ensures first { result ≡ bad_before at (block_room head.now.version size) before }
    ensures differs { IfSome result NamesDamage }
{
    let rest = at
        .end
        .saturating_sub(block_room(head.version, u32::from(size)));
    match bad_last(at.index.saturating_sub(1), rest, before) {
        Some(want) => Some(damaged(want, u64::from(before))),
        None => None,
    }
}
