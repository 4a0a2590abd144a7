//! Arenas of version 2 that were spelled by hand: found, walked by the headers of their clumps, read
//! and refused.

ghost use Rattle.std.specs.Prelude.{◌+◌, ◌≤◌};
ghost use Rattle.vt_arena.specs.Directory.{IsOnClump};
ghost use Rattle.vt_arena.specs.Places.{arena_room, directory_room};

use crate::disks::TestPlan;
use std::alloc::Global;
use std::test::Fail;
use vt_arena::{ArenaBad, ArenaHead, At, BackBad, Field, find, has_room, info, mount, read};
use vt_base::{Failed, FieldValue, Info, Key, Kind, Place, Score, Sha1Scorer};
use vt_disk::{Disk, Region};
use vt_memdisk::{Listed, MemDisk};
use vt_rows::Rows;

const LEN: u64 = 33_792;

const REGION: Region = Region {
    start: 512,
    len: 32_768,
};

const NUMBER: u32 = 3;

/// The scores of `abc` (FIPS 180-4) and `abd`.
const ABC: Score = Score(
    *b"\xa9\x99\x3e\x36\x47\x06\x81\x6a\xba\x3e\x25\x71\x78\x50\xc2\x6c\x9c\xd0\xd8\x9d",
);

const ABD: Score = Score(
    *b"\xcb\x4c\xc2\x8d\xf0\xfd\xbe\x0e\xcf\x9d\x96\x62\xe2\x94\xb1\x18\x09\x2a\x57\x35",
);

/// The clump of `abc`, of type 13, at time 0: the first, so that no clump stands before it.
pub const FIRST: [u8; 41] = *b"VCLP\x0d\x00\x03\x00\x03\
    \xa9\x99\x3e\x36\x47\x06\x81\x6a\xba\x3e\x25\x71\x78\x50\xc2\x6c\x9c\xd0\xd8\x9d\
    \x01\x00\x00\x00\x00\x00\x00\x00\x00abc";

/// That of `abd`, a sector further on: the clump before it takes one sector.
pub const SECOND: [u8; 41] = *b"VCLP\x0d\x00\x03\x00\x03\
    \xcb\x4c\xc2\x8d\xf0\xfd\xbe\x0e\xcf\x9d\x96\x62\xe2\x94\xb1\x18\x09\x2a\x57\x35\
    \x01\x00\x00\x00\x01\x00\x00\x00\x00abd";

/// The head of arena 3 in version 2 with the two, which take 1,024 bytes. It isn't sealed.
pub const HEAD: [u8; 47] = *b"VARN\x00\x02\x00\x00\x00\x03\x00\x00\x00\x00\x02\
    \x00\x00\x00\x00\x00\x00\x04\x00\
    \xe5\xa4\x74\x09\x00\xa0\x3a\x26\x25\xaa\x16\x03\x07\xa5\x80\x90\x38\x65\xf8\x3b\
    \x00\x00\x00\x01";

/// Their directory, the last entry first, which the arena has once it is sealed.
pub const DIRECTORY: [u8; 50] = *b"\x0d\x00\x03\x00\x03\
    \xcb\x4c\xc2\x8d\xf0\xfd\xbe\x0e\xcf\x9d\x96\x62\xe2\x94\xb1\x18\x09\x2a\x57\x35\
    \x0d\x00\x03\x00\x03\
    \xa9\x99\x3e\x36\x47\x06\x81\x6a\xba\x3e\x25\x71\x78\x50\xc2\x6c\x9c\xd0\xd8\x9d";

/// What is written over an arena's bytes, from a place of its region on.
#[derive(Clone, Copy)]
struct Change<'a> {
    at: u64,
    bytes: &'a [u8],
}

/// Bytes that are changed where the head stands, the first clump, and the second.
const fn in_head(at: u64, bytes: &[u8]) -> Change<'_> {
    Change { at, bytes }
}

const fn in_first(at: u16, bytes: &[u8]) -> Change<'_> {
    Change {
        at: 24_576 + at as u64,
        bytes,
    }
}

const fn in_second(at: u16, bytes: &[u8]) -> Change<'_> {
    Change {
        at: 25_088 + at as u64,
        bytes,
    }
}

/// Writes over the disk, from a place of the region on.
fn write<D: Disk>(disk: &mut D, change: Change) -> Result<(), Failed> {
    let Change { at, bytes } = change;
    let inside = at <= REGION.len && bytes.len() as u64 <= REGION.len - at;
    if disk.len() != LEN || !inside {
        return Err(Failed);
    }
    disk.write_at(REGION.start + at, bytes)
}

/// Makes a disk the arena with the two blocks, and then changes it. What no clump fills of a
/// sector has any bytes.
fn spell<D: Disk>(disk: &mut D, changes: &[Change]) -> Result<(), Failed> {
    write(disk, in_first(0, &[0xa5; 1_024]))?;
    write(disk, in_first(0, &FIRST))?;
    write(disk, in_second(0, &SECOND))?;
    write(disk, in_head(0, &HEAD))?;
    for change in changes {
        write(disk, *change)?;
    }
    Ok(())
}

/// What is told of one of the blocks.
fn info_of(score: Score, number: u64, offset: u32) -> Info {
    Info {
        key: Key {
            score,
            kind: Kind::DATA,
        },
        size: 3,
        place: Place {
            arena: NUMBER,
            offset,
        },
        number,
    }
}

/// What a walk gives until its end or its first refusal.
#[derive(Clone, Copy)]
enum Walk {
    /// Both blocks, the last one first.
    Both,
    /// The last one, and then this.
    Last(BackBad),
    /// This at once.
    None(BackBad),
    /// The arena isn't found.
    Unfound(ArenaBad),
}

/// What a walk of the arena says of the block at which it stands, while one is left.
fn step<D: Disk>(disk: &mut D, head: &ArenaHead, at: &mut At) -> Option<Result<Info, BackBad>>
    requires clump { IsOnClump head.now at.old }
    requires fit { head.now.used + directory_room head.now.version head.now.clumps
        ≤ arena_room 32768 }
    ensures clump { IsOnClump head.now at.new }
{
    if disk.len() != LEN || at.index == 0 || at.index > head.clumps || at.end > head.used {
        return None;
    }
    Some(info(disk, REGION, head, at))
}

/// Whether a walk of the arena that is there gives this.
fn walks<D: Disk>(disk: &mut D, wanted: &Walk) -> bool {
    if disk.len() != LEN {
        return false;
    }
    let head = match find(disk, REGION, NUMBER) {
        Ok(found) => found.head,
        Err(bad) => return matches!(wanted, Walk::Unfound(why) if *why == bad),
    };
    let mut at = At::start(&head);
    if at.index != 2 {
        return false;
    }
    let last = step(disk, &head, &mut at);
    match wanted {
        Walk::Unfound(_) => false,
        Walk::None(bad) => last == Some(Err(*bad)) && at == At::start(&head),
        Walk::Last(bad) => {
            last == Some(Ok(info_of(ABD, 1, 25_088)))
                && at.index == 1
                && step(disk, &head, &mut at) == Some(Err(*bad))
        }
        Walk::Both => {
            last == Some(Ok(info_of(ABD, 1, 25_088)))
                && at.index == 1
                && step(disk, &head, &mut at) == Some(Ok(info_of(ABC, 0, 24_576)))
                && at.index == 0
                && at.end == 0
                && at.sectors == 0
        }
    }
}

/// Whether the arena with these changes is walked so.
fn is_walked(alloc: Global, changes: &[Change], wanted: &Walk) -> Result<bool, Fail> {
    let mut disk = MemDisk::new(alloc, LEN)?;
    Ok(spell(&mut disk, changes) == Ok(()) && walks(&mut disk, wanted))
}

const fn torn(field: Field, found: u128, want: u128) -> Walk {
    Walk::Unfound(ArenaBad::Torn { field, found, want })
}

const fn damaged(want: u128, found: u128) -> BackBad {
    BackBad::Damaged {
        want: FieldValue::Number(want),
        found: FieldValue::Number(found),
    }
}

const fn no_clump(found: [u8; 4]) -> BackBad {
    BackBad::Damaged {
        want: FieldValue::Magic(*b"VCLP"),
        found: FieldValue::Magic(found),
    }
}

/// A row is what the head, a header or an entry has in place of what it should, and what is told.
fn changes() -> [(Change<'static>, Walk); 28] {
    [
        (in_head(43, b"\x00\x00\x00\x01"), Walk::Both),
        // the fields of the head, in the order of their tests
        (in_head(4, b"\x00\x00"), torn(Field::Version, 0, 2)),
        (in_head(4, b"\x00\x03"), torn(Field::Version, 3, 2)),
        (in_head(9, b"\x04"), torn(Field::Number, 4, 3)),
        (in_head(10, b"\x02"), torn(Field::Sealed, 2, 1)),
        (
            in_head(15, b"\x00\x00\x00\x00\x00\x00\x20\x00"),
            torn(Field::Used, 8_704, 8_192),
        ),
        (in_head(43, b"\x00\x00\x00\x00"), torn(Field::Last, 0, 1)),
        (in_head(43, b"\x00\x00\x00\x03"), torn(Field::Last, 3, 2)),
        (
            in_head(43, b"\xff\xff\xff\xff"),
            torn(Field::Last, 4_294_967_295, 2),
        ),
        (in_head(43, b"\x00\x00\x00\x02"), torn(Field::Last, 2, 1)),
        // no clump, and clumps that take no whole sector
        (in_head(11, b"\x00\x00\x00\x00"), torn(Field::Last, 1, 0)),
        (
            in_head(15, b"\x00\x00\x00\x00\x00\x00\x01\xff"),
            torn(Field::Last, 1, 0),
        ),
        // the size in the last header, which tells how many sectors its clump takes
        (in_second(5, b"\xff\xff"), torn(Field::Last, 1, 129)),
        (in_second(5, b"\x01\xdb"), torn(Field::Last, 1, 2)),
        // a head of version 1 has no such field, and is refused by nothing that stands there
        (in_head(4, b"\x00\x01"), Walk::None(damaged(13, 0))),
        // the header of the second clump
        (in_second(0, b"VCLQ"), Walk::None(no_clump(*b"VCLQ"))),
        (in_second(4, b"\x0c"), Walk::None(damaged(13, 12))),
        (in_second(5, b"\x00\x00"), Walk::None(damaged(1, 0))),
        (in_second(7, b"\x00\x04"), Walk::None(damaged(3, 4))),
        (
            in_second(30, b"\x00\x00\x00\x00"),
            Walk::None(damaged(1, 0)),
        ),
        (
            in_second(30, b"\x00\x00\x00\x02"),
            Walk::None(damaged(1, 2)),
        ),
        (
            in_second(30, b"\xff\xff\xff\xff"),
            Walk::None(damaged(1, 4_294_967_295)),
        ),
        // that of the first
        (in_first(0, b"\x00CLP"), Walk::Last(no_clump(*b"\x00CLP"))),
        (in_first(4, b"\x00"), Walk::Last(damaged(13, 0))),
        (in_first(5, b"\x01\xdb\x01\xdb"), Walk::Last(damaged(1, 2))),
        (in_first(30, b"\x00\x00\x00\x01"), Walk::Last(damaged(0, 1))),
        // what no test of a walk looks at: a score, an encoding, a time, and what follows a clump
        (in_first(29, b"\x02"), Walk::Both),
        (in_first(41, b"\x00\x00\x00\x00"), Walk::Both),
    ]
}

#[test]
fn arenas_are_walked_by_their_headers(rt: HostRuntime) -> Result<(), Fail> {
    let mut rows = Rows::new();
    for (row, (change, wanted)) in changes().iter().enumerate() {
        let holds = is_walked(rt.alloc(), &[*change], wanted)?;
        rows.nth(row, "what a walk gives", holds);
    }
    rows.all()?;
    Ok(())
}

/// A sealed one is walked by its directory, and its headers may say what they will.
#[test]
fn sealed_arenas_are_walked_by_their_directory(rt: HostRuntime) -> Result<(), Fail> {
    let mut rows = Rows::new();
    let sealed = [
        in_head(10, b"\x01"),
        in_head(32_718, &DIRECTORY),
        in_first(30, b"\xff\xff\xff\xff"),
    ];
    rows.is(
        "both entries are given",
        is_walked(rt.alloc(), &sealed, &Walk::Both)?,
    );
    let bad = [
        in_head(10, b"\x01"),
        in_head(32_718, &DIRECTORY),
        in_head(32_743, b"\x0c"),
    ];
    rows.is(
        "a type that is none",
        is_walked(rt.alloc(), &bad, &Walk::Last(damaged(13, 12)))?,
    );
    rows.all()?;
    Ok(())
}

/// Whether the block at this offset, which is thought to have so many bytes, is read as this one.
fn is_read<D: Disk>(alloc: Global, disk: &mut D, offset: u64, size: u16, block: &[u8]) -> bool {
    if disk.len() != LEN {
        return false;
    }
    match read(alloc, disk, REGION, offset, size, &Sha1Scorer) {
        Ok(clump) => clump.bytes.as_slice() == block,
        Err(_) => false,
    }
}

#[test]
fn blocks_of_version_2_are_read(rt: HostRuntime) -> Result<(), Fail> {
    let mut rows = Rows::new();
    let mut disk = MemDisk::new(rt.alloc(), LEN)?;
    rows.is("the arena is spelled", spell(&mut disk, &[]) == Ok(()));
    rows.is(
        "the first",
        is_read(rt.alloc(), &mut disk, 24_576, 3, b"abc"),
    );
    rows.is(
        "the second",
        is_read(rt.alloc(), &mut disk, 25_088, 3, b"abd"),
    );
    rows.all()?;
    Ok(())
}

// ---- a clump of two sectors

/// A block of 500 bytes, and its score.
const LONG: [u8; 500] = [b'a'; 500];

const LONG_SCORE: Score = Score(
    *b"\xe6\x2c\xa5\x60\x9e\x96\x07\x3f\xfd\xc8\x0a\xd4\x80\x51\x0d\x6d\xe0\xa1\x3f\x3e",
);

/// The header of its clump where that is the first. The clump has 538 bytes.
const LONG_HEADER: [u8; 38] = *b"VCLP\x0d\x01\xf4\x01\xf4\
    \xe6\x2c\xa5\x60\x9e\x96\x07\x3f\xfd\xc8\x0a\xd4\x80\x51\x0d\x6d\xe0\xa1\x3f\x3e\
    \x01\x00\x00\x00\x00\x00\x00\x00\x00";

/// What makes the first of the arena's clumps that one, and the second the one of `abd` behind it: the
/// two take 1,536 bytes.
fn long_first() -> [Change<'static>; 5] {
    [
        in_first(0, &LONG_HEADER),
        in_first(38, &LONG),
        in_first(1_024, &SECOND),
        in_first(1_054, b"\x00\x00\x00\x02"),
        in_head(15, b"\x00\x00\x00\x00\x00\x00\x06\x00"),
    ]
}

/// What makes the second of them that one, so that the last clump takes two sectors.
fn long_last() -> [Change<'static>; 5] {
    [
        in_second(0, &LONG_HEADER),
        in_second(38, &LONG),
        in_second(30, b"\x00\x00\x00\x01"),
        in_head(15, b"\x00\x00\x00\x00\x00\x00\x06\x00"),
        in_head(43, b"\x00\x00\x00\x02"),
    ]
}

/// A block of an arena: its score, how many bytes it has, and where its clump begins.
#[derive(Clone, Copy)]
struct Block {
    score: Score,
    size: u16,
    offset: u32,
}

/// Whether a walk of the arena that is there gives these two, the last one first, and ends.
fn gives<D: Disk>(disk: &mut D, last: Block, first: Block) -> bool {
    if disk.len() != LEN {
        return false;
    }
    let Ok(found) = find(disk, REGION, NUMBER) else {
        return false;
    };
    let head = found.head;
    let mut at = At::start(&head);
    if at.index != 2 {
        return false;
    }
    let behind = step(disk, &head, &mut at);
    if at.index != 1 {
        return false;
    }
    let before = step(disk, &head, &mut at);
    behind == Some(Ok(told(last, 1)))
        && before == Some(Ok(told(first, 0)))
        && at.index == 0
        && at.end == 0
        && at.sectors == 0
}

/// What is told of a block of this number.
fn told(block: Block, number: u64) -> Info {
    Info {
        size: block.size,
        ..info_of(block.score, number, block.offset)
    }
}

#[test]
fn clumps_take_whole_sectors(rt: HostRuntime) -> Result<(), Fail> {
    let long = Block {
        score: LONG_SCORE,
        size: 500,
        offset: 24_576,
    };
    let behind = Block {
        score: ABD,
        size: 3,
        offset: 25_600,
    };
    let mut rows = Rows::new();
    let mut disk = MemDisk::new(rt.alloc(), LEN)?;
    rows.is(
        "the long one first",
        spell(&mut disk, &long_first()) == Ok(()),
    );
    rows.is("both are given", gives(&mut disk, behind, long));
    rows.is(
        "the long one is read",
        is_read(rt.alloc(), &mut disk, 24_576, 500, &LONG),
    );
    rows.is(
        "the one behind it",
        is_read(rt.alloc(), &mut disk, 25_600, 3, b"abd"),
    );
    let before = Block {
        score: ABC,
        size: 3,
        offset: 24_576,
    };
    let last = Block {
        offset: 25_088,
        ..long
    };
    let mut disk = MemDisk::new(rt.alloc(), LEN)?;
    rows.is(
        "the long one last",
        spell(&mut disk, &long_last()) == Ok(()),
    );
    rows.is("both are given too", gives(&mut disk, last, before));
    rows.is(
        "it is read",
        is_read(rt.alloc(), &mut disk, 25_088, 500, &LONG),
    );
    rows.all()?;
    Ok(())
}

// ---- mounting

/// How many calls `spell` makes without changes.
const SPELLED: u64 = 4;

/// Whether mounting the arena fails where its call of this number does, of so many, and else finds the
/// head that was spelled.
fn is_mounted(alloc: Global, changes: &[Change], call: u64, calls: u64) -> bool {
    let before = SPELLED + changes.len() as u64;
    let Some(mut disk) = Listed::disk(alloc, LEN, &[before.saturating_add(call)]) else {
        return false;
    };
    if spell(&mut disk, changes) != Ok(()) || disk.len() != LEN {
        return false;
    }
    match mount(alloc, &mut disk, REGION, NUMBER) {
        Ok(arena) => call == calls && arena.head().version == 2 && arena.head().last <= 1,
        Err(bad) => call < calls && bad == ArenaBad::Fault,
    }
}

/// Mounting syncs, reads the selector and the fields, and in version 2 the header of the last clump,
/// if there is one.
#[test]
fn mounting_reads_the_last_header(rt: HostRuntime) -> Result<(), Fail> {
    let mut rows = Rows::new();
    let empty = [in_head(11, &[0; 12]), in_head(43, &[0; 4])];
    for call in 0..5 {
        rows.nth(
            call as usize,
            "two clumps",
            is_mounted(rt.alloc(), &[], call, 4),
        );
    }
    for call in 0..4 {
        rows.nth(
            call as usize,
            "no clump",
            is_mounted(rt.alloc(), &empty, call, 3),
        );
    }
    rows.all()?;
    Ok(())
}

// ---- room

/// What an arena of 32,768 bytes has in version 2, a block, and whether that has room.
const ROOMS: [(u64, u32, u32, bool); 6] = [
    (0, 0, 7_642, true),
    (0, 0, 7_643, false),
    (7_168, 14, 3, true),
    (7_680, 15, 3, false),
    (7_168, 20, 3, false),
    (u64::MAX, u32::MAX, u32::MAX, false),
];

#[test]
fn room_is_counted_in_sectors(_rt: HostRuntime) -> Result<(), Fail> {
    let mut rows = Rows::new();
    for (row, (used, clumps, n, has)) in ROOMS.iter().enumerate() {
        let found = has_room(2, REGION.len, *used, *clumps, *n);
        rows.nth(row, "whether a block has room", found == *has);
    }
    rows.all()?;
    Ok(())
}
