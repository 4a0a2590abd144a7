//! An arena from its last block to the first: by its directory, or by the headers of its clumps.

ghost use Rattle.std.specs.Prelude.{◌≡◌, ◌+◌, ◌<◌, ◌≤◌, ◌^◌, ℕ, List, [], IsTrue, IfOk, IfErr, IfSome, MatchResult, None, ◌++◌, ◌∷◌};
ghost use Rattle.vt_base.specs.Faults.{CountsFault};
ghost use Rattle.vt_disk.specs.Calls.{OnlyReads, MadeCalls};
ghost use Rattle.vt_disk.specs.Region.{FitsDisk};
ghost use Rattle.vt_clump.specs.Spelling.{Stored};
ghost use Rattle.vt_arena.specs.Directory.{what_is_walked, walks_headers, first_bad_entry, last_entry, bad_sizes, bad_sum, moved_before, IsInfoOf, WalksBy, WalksOn, IsAtBlock, IsInfoOfBlock, IsOnClump, NamesDamage, is_back_fault};
ghost use Rattle.vt_arena.specs.Layout.{Content, IsArenaContent, HasBlocks, arena_head};
ghost use Rattle.vt_arena.specs.Places.{IsArenaLen, block_room, directory_room, arena_room};

use crate::error::BackBad;
use crate::head::ArenaHead;
use crate::headers::info_by_header;
use crate::{block_room, entries_len};
use vt_base::fields::u16_at;
use vt_base::{FieldValue, Info, Key, Kind, MAX_BLOCK, Place, Score};
use vt_disk::{Disk, Region};
use vt_model::{ARENA_HEAD_LEN, DIRECTORY_ENTRY_LEN, SECTOR_VERSION};

/// Where a walk of an arena stands. It starts at the head's `clumps`, `used` and `last`, and only
/// `info` moves it. All blocks were given when `index` is 0.
#[derive(Clone, Copy, Debug, PartialEq, Eq)]
pub struct At {
    /// How many blocks are left.
    pub index: u32,
    /// How many bytes their clumps take.
    pub end: u64,
    /// How many sectors the last of these takes, where the walk goes by headers.
    pub sectors: u32,
}

impl At {
    /// The last block of an arena with this head.
    pub fn start(head: &ArenaHead) -> At
        ensures { result ≡ record {
          index = head.now.clumps;
          end = head.now.used;
          sectors = head.now.last;
        } }
    {
        At {
            index: head.clumps,
            end: head.used,
            sectors: head.last,
        }
    }
}

/// Whether a walk of an arena with this head goes by the headers of its clumps: it is of version 2
/// and isn't sealed, so that it has no directory yet.
fn walks_headers(head: &ArenaHead) -> bool
    ensures { result ≡ walks_headers head.now }
{
    head.version == SECTOR_VERSION && !head.sealed
}

/// What is said of the block at which the walk stands, by its directory entry or, in an arena of
/// version 2 that isn't sealed, by its header: its key and size, its place, with the arena's number
/// in its partition, and its number in the arena, from 0. The walk moves to the block before. The
/// head is the arena's, as committed.
///
/// It makes one read, of that entry or header.
pub fn info<D: Disk>(
    disk: &mut D,
    region: Region,
    head: &ArenaHead,
    at: &mut At,
) -> Result<Info, BackBad>
    requires region { FitsDisk region (D.size disk.old) }
    requires len { IsArenaLen region.len }
    requires some { 0 < at.old.index }
    requires index { at.old.index ≤ head.now.clumps }
    requires end { at.old.end ≤ head.now.used }
    requires clump { IsOnClump head.now at.old }
    requires fit { head.now.used + directory_room head.now.version head.now.clumps
        ≤ arena_room region.len }

    // What stands there is given, and refused exactly where it can't stand there.
    ensures answer { (bytes : List ℕ)
        × (IsTrue D.tells → bytes ≡ what_is_walked head.now region at.old (D.bytes disk.old))
        × WalksOn head.now at.old at.new bytes result }
    ensures moved { IfOk result (λ info. (at.new.index + 1 ≡ at.old.index)
        × (at.new.end + block_room head.now.version info.size ≡ at.old.end)) }
    ensures clump { IsOnClump head.now at.new }
    ensures stays { IfErr result (λ _. at.new ≡ at.old) }

    // The block that stands there is given, and the walk stands at the one before it.
    ensures committed { (score_of : List ℕ → List ℕ) (number : ℕ) (old : Content)
        (before behind : List Stored) (s : Stored) → IsTrue D.tells
        → IsArenaContent score_of region.len old → HasBlocks region old (D.bytes disk.old)
        → old.stored ≡ before ++ s ∷ behind → head.now ≡ arena_head score_of number old
        → IsAtBlock head.now before s at.old
        → MatchResult result (λ info. IsInfoOfBlock head.now before s info
        × ((first : List Stored) (t : Stored) → before ≡ first ++ t ∷ []
        → IsAtBlock head.now first t at.new)) (λ bad. bad ≡ BackBad.Fault) }

    // What a damage names differs, on any disk.
    ensures differs { IfErr result NamesDamage }

    // It writes nothing.
    ensures reads { OnlyReads D.Disk 1 disk.old disk.new }
    ensures calls { MadeCalls D.Disk 1 disk.old disk.new }
    ensures cause { CountsFault is_back_fault result (D.faults disk.old) (D.faults disk.new) }
{
    if walks_headers(head) {
        return info_by_header(disk, region, head, at);
    }
    info_by_entry(disk, region, head, at)
}

/// What the directory entry says of the block at which the walk stands. It makes one read.
fn info_by_entry<D: Disk>(
    disk: &mut D,
    region: Region,
    head: &ArenaHead,
    at: &mut At,
) -> Result<Info, BackBad>
    requires region { FitsDisk region (D.size disk.old) }
    requires len { IsArenaLen region.len }
    requires some { 0 < at.old.index }
    requires index { at.old.index ≤ head.now.clumps }
    requires end { at.old.end ≤ head.now.used }
    requires fit { head.now.used + directory_room head.now.version head.now.clumps
        ≤ arena_room region.len }
    ensures answer { (entry : List ℕ)
        × (IsTrue D.tells → entry ≡ last_entry region at.old.index (D.bytes disk.old))
        × WalksBy head.now (first_bad_entry head.now at.old entry) entry 0 at.old at.new result }
    ensures differs { IfErr result NamesDamage }
    ensures reads { OnlyReads D.Disk 1 disk.old disk.new }
    ensures calls { MadeCalls D.Disk 1 disk.old disk.new }
    ensures cause { CountsFault is_back_fault result (D.faults disk.old) (D.faults disk.new) }
{
    let mut entry = [0; DIRECTORY_ENTRY_LEN];
    let place = region.len - entries_len(u64::from(at.index));
    let Ok(()) = region.read_at(disk, place, &mut entry) else {
        return Err(BackBad::Fault);
    };
    if let Some(bad) = first_bad_entry(&entry, head, *at) {
        return Err(bad);
    }
    Ok(give(head, at, &entry, 0))
}

/// The first test of an entry that fails, where the walk stands at it.
fn first_bad_entry(entry: &[u8; DIRECTORY_ENTRY_LEN], head: &ArenaHead, at: At) -> Option<BackBad>
    requires end { at.end ≤ head.now.used }
    requires small { head.now.used ≤ 2 ^ 30 }
    ensures first { result ≡ first_bad_entry head.now at entry.now }
    ensures differs { IfSome result NamesDamage }
{
    bad_sizes(entry).or(bad_sum(head, at, u16_at(entry, 1)))
}

/// Why an entry's type and sizes can't be those of a block.
pub(crate) fn bad_sizes(entry: &[u8; DIRECTORY_ENTRY_LEN]) -> Option<BackBad>
    ensures first { result ≡ bad_sizes entry.now }
    ensures differs { IfSome result NamesDamage }
{
    // (the places of the fields: docs/FORMATS.md, Arenas; of a type, 13 is told as wanted)
    if Kind::from_wire(entry[0]).is_none() {
        return Some(damaged(13, u64::from(entry[0])));
    }
    let size = u16_at(entry, 1);
    if size == 0 || size as usize > MAX_BLOCK {
        return Some(damaged(1, u64::from(size)));
    }
    let uncsize = u16_at(entry, 3);
    if uncsize != size {
        return Some(damaged(u64::from(size), u64::from(uncsize)));
    }
    None
}

/// Why the clumps can't make up what comes before the end of one whose block has `size` bytes.
pub(crate) fn bad_sum(head: &ArenaHead, at: At, size: u16) -> Option<BackBad>
    requires end { at.end ≤ head.now.used }
    requires small { head.now.used ≤ 2 ^ 30 }
    ensures first { result ≡ bad_sum head.now.used at (block_room head.now.version size) }
    ensures differs { IfSome result NamesDamage }
{
    let room = block_room(head.version, u32::from(size));
    // (the first clump stands at the front: its size uses up what is left of the sum)
    if at.end < room || at.index == 1 && at.end != room {
        return Some(damaged(head.used, head.used - at.end + room));
    }
    None
}

/// What is told of the block at which the walk stands, by an entry of which no test fails. The walk
/// moves to the block before, whose clump takes `before` sectors.
pub(crate) fn give(
    head: &ArenaHead,
    at: &mut At,
    entry: &[u8; DIRECTORY_ENTRY_LEN],
    before: u32,
) -> Info
    requires some { 0 < at.old.index }
    requires end { at.old.end ≤ 2 ^ 30 }
    requires good { first_bad_entry head.now at.old entry.now ≡ None }
    ensures info { IsInfoOf head.now at.old entry.now result }
    ensures moved { at.new ≡ moved_before head.now at.old entry.now before }
{
    let Some(kind) = Kind::from_wire(entry[0]) else {
        unreachable!()
    };
    let mut score = [0; 20];
    score.copy_from_slice(&entry[5..]);
    let size = u16_at(entry, 1);
    at.index -= 1;
    at.end -= block_room(head.version, u32::from(size));
    at.sectors = before;
    Info {
        key: Key {
            score: Score(score),
            kind,
        },
        size,
        place: Place {
            arena: head.number,
            offset: (ARENA_HEAD_LEN as u64 + at.end) as u32,
        },
        number: u64::from(at.index),
    }
}

/// An entry that has one number where another had to stand.
pub(crate) fn damaged(want: u64, found: u64) -> BackBad
    ensures { result ≡ BackBad.Damaged (FieldValue.Number want) (FieldValue.Number found) }
{
    BackBad::Damaged {
        want: FieldValue::Number(u128::from(want)),
        found: FieldValue::Number(u128::from(found)),
    }
}
