//! Making a region an arena, and finding the arena of a region.

ghost use Rattle.std.specs.Prelude.{◌≡◌, ◌⊎◌, ◌+◌, ◌-◌, ◌*◌, ◌%◌, ◌≤◌, [], ℕ, Bool, List, IsTrue, IsFalse, IfOk, OnOk, OnErr, MatchResult, None, Err};
ghost use Rattle.vt_base.specs.Faults.{HasCause, CountsFault};
ghost use Rattle.vt_disk.specs.Calls.{OnlyReads, WritesWithin, MadeCalls, IsSynced};
ghost use Rattle.vt_twin.specs.Formatting.{EndsFormat};
ghost use Rattle.vt_twin.specs.Frames.{frame_of as frame_at, named_number, selector_start, selector_bytes};
ghost use Rattle.vt_arena.specs.Arena.{fresh_arena};
ghost use Rattle.vt_arena.specs.Faults.{FindsArena, FindsHead, MountsArena, ChecksLast, CanStand, has_last, last_offset, read_at, reads_to_find, is_arena_fault};
ghost use Rattle.vt_arena.specs.Heads.{head_frame};
ghost use Rattle.vt_arena.specs.Layout.{Content, IsArena, BytesStandAt, fields_at, head_place, arena_head, empty};
ghost use Rattle.vt_arena.specs.Places.{arena_room, bad_last, directory_room};
ghost use Rattle.vt_arena.specs.Reading.{header_at};
ghost use Rattle.vt_arena.specs.Sound.{IsRegion, IsSoundArena};

use crate::arena::Arena;
use crate::error::{ArenaBad, Field};
use crate::head::{ArenaHead, Found};
use crate::{FIELDS_LEN, FRAME_LEN, sectors_of};
use std::alloc::{AllocError, Global};
use vt_base::{Failed, Score};
use vt_clump::block_len;
use vt_disk::{Disk, Region};
use vt_model::{ARENA_HEAD_LEN, CLUMP_HEADER_LEN, CLUMP_UNIT, SECTOR_VERSION};

/// Writes the head of an arena without blocks, and syncs. The head's other frame and what lies
/// behind the head stay as they are.
pub fn format<D: Disk>(disk: &mut D, region: Region, number: u32) -> Result<(), Failed>
    requires { IsRegion region (D.size disk.old) }

    // Every image is the empty arena.
    ensures empty { (score_of : List ℕ → List ℕ) → IsTrue D.tells → OnOk result
        ((c : List ℕ) → D.images disk.new c → IsArena score_of region number empty c) }
    ensures settled { OnOk result (IsSynced D.Disk disk.new) }

    // Byte for byte, frame 0 is its head and zeros, and the selector is zeros.
    ensures frame { (score_of : List ℕ → List ℕ) → IsTrue D.tells → OnOk result
        (frame_at region FRAME_LEN 0 (D.bytes disk.new)
        ≡ head_frame (arena_head score_of number empty)) }
    ensures selector { IsTrue D.tells → OnOk result (BytesStandAt (selector_start region FRAME_LEN)
        (selector_bytes 0 (ARENA_HEAD_LEN - 2 * FRAME_LEN)) (D.bytes disk.new)) }
    ensures idle { IsTrue D.tells → OnOk result (frame_at region FRAME_LEN 1 (D.bytes disk.new)
        ≡ frame_at region FRAME_LEN 1 (D.bytes disk.old)) }

    // Nothing outside the head changes, and nothing is written behind a call that fails.
    ensures writes { WritesWithin D.Disk (head_place region) 3 disk.old disk.new }
    ensures calls { OnOk result (MadeCalls D.Disk 3 disk.old disk.new) }
    ensures failed { (score_of : List ℕ → List ℕ) → OnErr result ((made : ℕ)
        × EndsFormat D.Disk (head_place region) (head_frame (arena_head score_of number empty)) made
        disk.old disk.new) }
    ensures cause { HasCause result (D.faults disk.old) (D.faults disk.new) }
{
    let head = ArenaHead {
        version: 1,
        number,
        sealed: false,
        clumps: 0,
        used: 0,
        chain: Score([0; 20]),
        last: 0,
    };
    let mut frame = [0; FRAME_LEN];
    head.encode(&mut frame);
    let place = Region {
        start: region.start,
        len: ARENA_HEAD_LEN as u64,
    };
    vt_twin::format(disk, place, &frame)
}

/// Finds the arena of this number in a region, as it is read. What is read names the current head
/// for good only where it was synced.
pub fn find<D: Disk>(disk: &mut D, region: Region, number: u32) -> Result<Found, ArenaBad>
    requires { IsRegion region (D.size disk.old) }

    // Each refusal comes exactly where its test is the first to fail. Where no call fails it makes
    // two reads and, if the head is of version 2 and counts a clump, a third: that of the last
    // clump's header.
    ensures answer { (read : List ℕ)
        × (IsTrue D.tells → read ≡ read_at region number (D.bytes disk.old))
        × FindsArena number region.len read result
        × ((result ≡ Err ArenaBad.Fault)
        ⊎ MadeCalls D.Disk (reads_to_find number region.len read) disk.old disk.new) }

    // The arena is the one that is there.
    ensures found { (score_of : List ℕ → List ℕ) (old : Content) → IsTrue D.tells
        → IsArena score_of region number old (D.bytes disk.old)
        → MatchResult result (λ it. it.head ≡ arena_head score_of number old)
        (λ bad. bad ≡ ArenaBad.Fault) }
    ensures selector { IfOk result (λ it. IsTrue D.tells
        → it.selector % 2 ≡ named_number region FRAME_LEN (D.bytes disk.old)) }
    ensures checked { IfOk result (λ it. CanStand number region.len it.head) }

    // None stands behind one that fails, and it writes nothing.
    ensures reads { OnlyReads D.Disk 3 disk.old disk.new }
    ensures calls { ((result ≡ Err ArenaBad.Fault) × MadeCalls D.Disk 1 disk.old disk.new)
        ⊎ MadeCalls D.Disk 2 disk.old disk.new ⊎ MadeCalls D.Disk 3 disk.old disk.new }
    ensures cause { CountsFault is_arena_fault result (D.faults disk.old) (D.faults disk.new) }
{
    let found = match find_head(disk, region, number) {
        Ok(found) => found,
        Err(bad) => return Err(bad),
    };
    if !has_last(&found.head) {
        return Ok(found);
    }
    match check_last_header(disk, region, &found.head) {
        Ok(()) => Ok(found),
        Err(bad) => Err(bad),
    }
}

/// Finds the head that is current, for an arena of this number. It makes two reads.
fn find_head<D: Disk>(disk: &mut D, region: Region, number: u32) -> Result<Found, ArenaBad>
    requires { IsRegion region (D.size disk.old) }
    ensures answer { (fields : List ℕ)
        × (IsTrue D.tells → fields ≡ fields_at region (D.bytes disk.old))
        × FindsHead number region.len fields result }
    ensures selector { IfOk result (λ it. IsTrue D.tells
        → it.selector % 2 ≡ named_number region FRAME_LEN (D.bytes disk.old)) }
    ensures checked { IfOk result (λ it. CanStand number region.len it.head) }
    ensures reads { OnlyReads D.Disk 2 disk.old disk.new }
    ensures calls { ((result ≡ Err ArenaBad.Fault) × MadeCalls D.Disk 1 disk.old disk.new)
        ⊎ MadeCalls D.Disk 2 disk.old disk.new }
    ensures second { OnOk result (MadeCalls D.Disk 2 disk.old disk.new) }
    ensures cause { CountsFault is_arena_fault result (D.faults disk.old) (D.faults disk.new) }
{
    let mut selector = [0];
    // (the selector stands behind both frames; its first byte names the current one)
    let Ok(()) = region.read_at(disk, 2 * FRAME_LEN as u64, &mut selector) else {
        return Err(ArenaBad::Fault);
    };
    let mut fields = [0; FIELDS_LEN];
    let frame = FRAME_LEN as u64 * u64::from(selector[0] % 2);
    let Ok(()) = region.read_at(disk, frame, &mut fields) else {
        return Err(ArenaBad::Fault);
    };
    match ArenaHead::decode(&fields, number, region.len) {
        Ok(head) => Ok(Found {
            head,
            selector: selector[0],
        }),
        Err(bad) => Err(bad),
    }
}

/// Whether the head says where the last clump is: it is of version 2 and counts a clump.
fn has_last(head: &ArenaHead) -> bool
    ensures { result ≡ has_last head.now }
{
    head.version == SECTOR_VERSION && head.clumps != 0
}

/// Tests that the last clump takes as many sectors as the head says. It makes one read, of that
/// clump's header.
fn check_last_header<D: Disk>(
    disk: &mut D,
    region: Region,
    head: &ArenaHead,
) -> Result<(), ArenaBad>
    requires region { IsRegion region (D.size disk.old) }
    requires some { IsTrue (has_last head.now) }
    requires last { bad_last head.now.clumps head.now.used head.now.last ≡ None }
    requires fit { head.now.used + directory_room head.now.version head.now.clumps
        ≤ arena_room region.len }
    ensures answer { (header : List ℕ)
        × (IsTrue D.tells → header ≡ header_at region (last_offset head.now.used head.now.last)
        (D.bytes disk.old))
        × ChecksLast head.now.last header result }
    ensures reads { OnlyReads D.Disk 1 disk.old disk.new }
    ensures calls { MadeCalls D.Disk 1 disk.old disk.new }
    ensures cause { CountsFault is_arena_fault result (D.faults disk.old) (D.faults disk.new) }
{
    let mut header = [0; CLUMP_HEADER_LEN];
    let place = ARENA_HEAD_LEN as u64 + head.used - CLUMP_UNIT as u64 * u64::from(head.last);
    let Ok(()) = region.read_at(disk, place, &mut header) else {
        return Err(ArenaBad::Fault);
    };
    let sectors = sectors_of(block_len(&header));
    if head.last == sectors {
        return Ok(());
    }
    Err(ArenaBad::Torn {
        field: Field::Last,
        found: u128::from(head.last),
        want: u128::from(sectors),
    })
}

/// Finds the arena of this number in a region, and makes room for commits. It syncs first: only
/// what was synced names the current head for good.
pub fn mount<D: Disk>(
    alloc: Global,
    disk: &mut D,
    region: Region,
    number: u32,
) -> Result<Arena, ArenaBad>
    requires { IsRegion region (D.size disk.old) }

    // It is mounted, and each refusal comes, exactly as what was read says. Where no call fails it
    // makes a sync and two reads or, as `find` does, three.
    ensures answer { (read : List ℕ)
        × (IsTrue D.tells → read ≡ read_at region number (D.bytes disk.old))
        × MountsArena number region.len read result
        × ((result ≡ Err ArenaBad.Fault)
        ⊎ MadeCalls D.Disk (1 + reads_to_find number region.len read) disk.old disk.new) }

    // The arena is the one that is there.
    ensures fresh { IfOk result (λ a. a ≡ fresh_arena region.len a.twin.current a.head) }
    ensures sound { (score_of : List ℕ → List ℕ) (old : Content) → IsTrue D.tells
        → IsArena score_of region number old (D.bytes disk.old)
        → MatchResult result
        (λ a. IsSoundArena score_of a region old (D.bytes disk.new) (D.images disk.new))
        (λ bad. (bad ≡ ArenaBad.Fault) ⊎ (bad ≡ ArenaBad.NoMemory)) }
    ensures checked { IfOk result (λ a. CanStand number region.len a.head) }

    // Nothing is read behind a sync that fails, so that what is told is told of a settled disk.
    ensures settled { ((result ≡ Err ArenaBad.Fault) × MadeCalls D.Disk 1 disk.old disk.new)
        ⊎ IsSynced D.Disk disk.new }

    // It writes nothing.
    ensures reads { OnlyReads D.Disk 4 disk.old disk.new }
    ensures cause { CountsFault is_arena_fault result (D.faults disk.old) (D.faults disk.new) }
{
    let Ok(()) = disk.sync() else {
        return Err(ArenaBad::Fault);
    };
    let found = match find(disk, region, number) {
        Ok(found) => found,
        Err(bad) => return Err(bad),
    };
    match Arena::resume(alloc, region.len, found) {
        Ok(arena) => Ok(arena),
        Err(AllocError) => Err(ArenaBad::NoMemory),
    }
}
