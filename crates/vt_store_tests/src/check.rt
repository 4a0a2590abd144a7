//! Logs of three arenas on disks in memory, of which some bytes are other ones, and what is told; also
//! of an arena of version 2 that was spelled by hand.

ghost use Rattle.std.specs.Prelude.{◌≡◌, ◌≤◌, [], ◌∷◌, IfSome};
ghost use Rattle.vt_part.specs.Parts.{disk_of, table_of};
ghost use Rattle.vt_part.specs.Table.{arenas_end};

use std::alloc::Global;
use std::test::Fail;
use std::thread::Threads;
use vt_base::{FieldValue, Kind, Scorer, Sha1Scorer, Text};
use vt_check::{ArenaReport, Damage, Report, check};
use vt_clump::pack;
use vt_disk::Disk;
use vt_log::{Log, Progress as Advanced};
use vt_memdisk::{Listed, MemDisk};
use vt_out::Silent;
use vt_part::Part;
use vt_rows::Rows;

/// The bytes of a partition of three arenas of 32,768 bytes, which have room for 124 blocks of three
/// bytes each.
const PARTITION: u64 = 106_496;

/// Where the first arena begins, and where it ends.
const BEGIN: u64 = 8_192;

const END: u64 = 40_960;

// ---- logs

/// A log on a disk, which a test writes to and checks. What it does is proved for any such log, which
/// is much less work than for the real one, and runs on that.
trait TestLog: Drop {
    type Disk: Disk + Drop;

    /// The log of a disk.
    fn open(alloc: Global, disk: Self::Disk) -> Option<Self>;

    /// Its disk.
    fn close(self) -> Option<Self::Disk>;

    /// Appends a block, and says whether it is taken. It isn't where the queue is full.
    fn append(&mut self, alloc: Global, block: &[u8; 3]) -> bool;

    /// Whether the queue takes no block before a commit.
    fn is_full(&self) -> bool;

    /// Commits what is queued, and says whether no call fails.
    fn commit(&mut self) -> bool;
}

impl<D: Disk + Drop> TestLog for Log<D, Sha1Scorer> {
    type Disk = D;

    fn open(alloc: Global, disk: D) -> Option<Self> {
        match vt_log::mount(alloc, only(alloc, mounted_part(disk)?)?, Sha1Scorer) {
            Ok(log) => Some(log),
            Err(_) => None,
        }
    }

    fn close(self) -> Option<D> {
        let part = self.into_devices().pop()?;
        Some(part.into_devices())
    }

    fn append(&mut self, alloc: Global, block: &[u8; 3]) -> bool {
        if self.queue_full() {
            return false;
        }
        match pack(alloc, Kind::DATA, block, Sha1Scorer.score(block), 0) {
            Ok(packed) => self.append(packed).is_ok(),
            Err(_) => false,
        }
    }

    fn is_full(&self) -> bool {
        self.queue_full()
    }

    fn commit(&mut self) -> bool {
        for _ in 0..self.owed() {
            match self.advance() {
                Ok(Advanced::Idle) => return true,
                Ok(_) => {}
                Err(_) => return false,
            }
        }
        true
    }
}

/// The partition of a disk, if it can be mounted and has 100 arenas at most.
fn mounted_part<D: Disk + Drop>(disk: D) -> Option<Part<D>>
    ensures { IfSome result (λ part. (arenas_end (table_of part) ≤ D.size (disk_of part))
        × ((table_of part).count ≤ 100)) }
{
    let Ok(part) = vt_part::mount(disk) else {
        return None;
    };
    if part.count() > 100 {
        return None;
    }
    Some(part)
}

/// A list of one partition.
fn only<D: Disk + Drop>(alloc: Global, part: Part<D>) -> Option<Vec<Part<D>>>
    ensures { IfSome result (λ parts. parts.items ≡ part ∷ []) }
{
    let mut parts = Vec::new(alloc);
    parts.push(part).ok()?;
    Some(parts)
}

/// Makes a disk a partition of arenas.
fn is_formatted<D: Disk>(alloc: Global, disk: &mut D) -> bool {
    let Ok(name) = Text::copy_of(alloc, b"a0") else {
        return false;
    };
    vt_part::is_name(name.as_slice()) && vt_part::format(disk, &name, 32_768).is_ok()
}

/// Makes its arenas ones without blocks, and gives it back.
fn emptied<D: Disk + Drop>(alloc: Global, disk: D) -> Option<D> {
    let mut parts = only(alloc, mounted_part(disk)?)?;
    if vt_log::format(&mut parts).is_err() {
        return None;
    }
    let part = parts.pop()?;
    Some(part.into_devices())
}

/// Makes a disk a log without blocks.
fn fresh<T: TestLog>(alloc: Global, mut disk: T::Disk) -> Option<T> {
    if is_formatted(alloc, &mut disk) {
        T::open(alloc, emptied(alloc, disk)?)
    } else {
        None
    }
}

/// Block i: the last three bytes of its number.
fn block_of(i: u32) -> [u8; 3] {
    let [_, a, b, c] = i.to_be_bytes();
    [a, b, c]
}

/// Commits so many blocks, as many at a time as are queued.
fn are_written<T: TestLog>(alloc: Global, log: &mut T, blocks: u32) -> bool {
    for i in 0..blocks {
        if log.is_full() && !log.commit() || !log.append(alloc, &block_of(i)) {
            return false;
        }
    }
    log.commit()
}

/// Writes these bytes over those at their places.
fn are_changed<D: Disk>(disk: &mut D, changes: &[(u64, u8)]) -> bool {
    for (at, byte) in changes {
        if disk.len() <= *at || disk.write_at(*at, &[*byte]).is_err() {
            return false;
        }
    }
    true
}

// ---- what is told

/// The disk of a log of so many blocks, of which these bytes are other ones.
fn changed<T: TestLog>(
    alloc: Global,
    disk: T::Disk,
    blocks: u32,
    changes: &[(u64, u8)],
) -> Option<T::Disk> {
    let mut log: T = fresh(alloc, disk)?;
    if !are_written(alloc, &mut log, blocks) {
        return None;
    }
    let mut disk = log.close()?;
    if are_changed(&mut disk, changes) {
        Some(disk)
    } else {
        None
    }
}

type DiskLog<D> = Log<D, Sha1Scorer>;

/// What is told of the arenas of a log.
fn checked<D: Disk>(
    rt: &(impl Threads + Sync),
    alloc: Global,
    log: &mut DiskLog<D>,
) -> Option<Report> {
    check(rt, alloc, log, &Sha1Scorer, &mut Silent).ok()
}

/// The same, of the log of a disk.
fn report<D: Disk + Drop>(rt: &(impl Threads + Sync), alloc: Global, disk: D) -> Option<Report> {
    let mut log: DiskLog<D> = TestLog::open(alloc, disk)?;
    checked(rt, alloc, &mut log)
}

/// Of an arena that has so many of the blocks, and maybe this damage, the right is told.
fn see_arena(rows: &mut Rows, row: usize, arena: &ArenaReport, left: u32, damage: Option<Damage>) {
    let used = damage.is_some() || arena.used == 41 * u64::from(arena.clumps);
    rows.nth(row, "the clumps of an arena", arena.clumps == left.min(124));
    rows.nth(row, "an arena is sealed", arena.sealed == (left > 124));
    rows.nth(row, "the damage of an arena", arena.damage == damage);
    rows.nth(row, "what is used of an arena", used);
}

/// What is told is right: this damage of the first of three arenas, and how many of the blocks each
/// has.
fn see_report(
    rows: &mut Rows,
    row: usize,
    arenas: &[ArenaReport],
    blocks: u32,
    damage: Option<Damage>,
) {
    rows.nth(row, "how many arenas there are", arenas.len() == 3);
    let (mut left, mut damage) = (blocks, damage);
    for arena in arenas {
        see_arena(rows, row, arena, left, damage);
        left = left.saturating_sub(124);
        damage = None;
    }
}

/// A disk for a partition.
fn disk(alloc: Global) -> Option<MemDisk<Listed>> {
    let calls = vec![in alloc; u64::MAX].ok()?;
    MemDisk::failing(alloc, PARTITION, calls).ok()
}

/// The damage of the first arena.
#[derive(Clone, Copy)]
enum First {
    /// There is none.
    Sound,
    /// One number is wanted, and another found.
    Numbers(u64, u64),
    /// The score of one block is wanted, and that of another found.
    Scores([u8; 3], [u8; 3]),
}

/// The same, as a report tells it.
fn damage_of(first: First) -> Option<Damage> {
    match first {
        First::Sound => None,
        First::Numbers(want, found) => Some(Damage {
            want: FieldValue::Number(u128::from(want)),
            found: FieldValue::Number(u128::from(found)),
        }),
        First::Scores(want, found) => Some(Damage {
            want: FieldValue::Score(Sha1Scorer.score(&want)),
            found: FieldValue::Score(Sha1Scorer.score(&found)),
        }),
    }
}

/// The first clump, the fourth, and their entries. Each head's two frames have its count of bytes
/// from place 15 on, and its chain from place 23 on.
const CLUMP: u64 = BEGIN + 24_576;

const FOURTH: u64 = CLUMP + 3 * 41;

const ENTRY: u64 = END - 25;

const FOURTH_ENTRY: u64 = END - 4 * 25;

const FIRST_FRAME: u64 = BEGIN;

const SECOND_FRAME: u64 = BEGIN + 8_192;

/// A log of so many blocks, bytes that are put at places of its partition, and the damage.
type Case = (u32, &'static [(u64, u8)], First);

const CASES: [Case; 12] = [
    (300, &[], First::Sound),
    (0, &[], First::Sound),
    // A byte of a block, and two that its header is.
    (
        300,
        &[(CLUMP + 40, 64)],
        First::Scores([0, 0, 0], [0, 0, 64]),
    ),
    (300, &[(CLUMP + 4, 14)], First::Numbers(13, 14)),
    (300, &[(CLUMP + 29, 2)], First::Numbers(1, 2)),
    // The fields of an entry, of which the score's first byte stands behind five others.
    (3, &[(ENTRY, 14)], First::Numbers(13, 14)),
    (3, &[(ENTRY + 2, 4)], First::Numbers(3, 4)),
    (3, &[(ENTRY + 4, 5)], First::Numbers(3, 5)),
    // A clump behind a bad entry is told, and a wrong count of bytes is, but the first of two
    // entries.
    (
        300,
        &[(ENTRY, 14), (FOURTH + 4, 15)],
        First::Numbers(13, 15),
    ),
    (
        9,
        &[
            (ENTRY, 14),
            (FIRST_FRAME + 22, 114),
            (SECOND_FRAME + 22, 114),
        ],
        First::Numbers(370, 369),
    ),
    (
        300,
        &[(FOURTH_ENTRY, 15), (ENTRY, 14)],
        First::Numbers(13, 14),
    ),
    // Sizes by which the fourth clump would end behind its arena.
    (
        300,
        &[(FOURTH + 5, 100), (FOURTH + 7, 100)],
        First::Numbers(8_192 - 38 - 123, 25_603),
    ),
];

/// What is told of the arenas of a log of so many blocks, of which bytes are other ones, is right.
fn see<D: Disk + Drop>(
    rt: &(impl Threads + Sync),
    alloc: Global,
    disk: D,
    case: &Case,
    rows: &mut Rows,
    row: usize,
) {
    let (blocks, changes, first) = *case;
    let Some(disk) = changed::<DiskLog<D>>(alloc, disk, blocks, changes) else {
        rows.nth(row, "a log that is written", false);
        return;
    };
    match report(rt, alloc, disk) {
        Some(report) => see_report(rows, row, &report.arenas, blocks, damage_of(first)),
        None => rows.nth(row, "a log that is checked", false),
    }
}

#[test]
fn the_first_damage_is_told(rt: HostRuntime) -> Result<(), Fail> {
    let mut rows = Rows::new();
    for (row, case) in CASES.iter().enumerate() {
        match disk(rt.alloc()) {
            Some(disk) => see(&rt, rt.alloc(), disk, case, &mut rows, row),
            None => rows.nth(row, "memory for the disk", false),
        }
    }
    rows.passes()
}

// ---- an arena of version 2

/// Bytes, and where in the first arena they stand.
type Over = (u64, &'static [u8]);

/// The clumps of `abc` and `abd`, each of which takes a sector.
const ABC_CLUMP: [u8; 41] = *b"VCLP\x0d\x00\x03\x00\x03\
    \xa9\x99\x3e\x36\x47\x06\x81\x6a\xba\x3e\x25\x71\x78\x50\xc2\x6c\x9c\xd0\xd8\x9d\
    \x01\x00\x00\x00\x00\x00\x00\x00\x00abc";

const ABD_CLUMP: [u8; 41] = *b"VCLP\x0d\x00\x03\x00\x03\
    \xcb\x4c\xc2\x8d\xf0\xfd\xbe\x0e\xcf\x9d\x96\x62\xe2\x94\xb1\x18\x09\x2a\x57\x35\
    \x01\x00\x00\x00\x01\x00\x00\x00\x00abd";

/// Their entries, as they stand in the directory of a sealed arena.
const DIRECTORY: [u8; 50] = *b"\x0d\x00\x03\x00\x03\
    \xcb\x4c\xc2\x8d\xf0\xfd\xbe\x0e\xcf\x9d\x96\x62\xe2\x94\xb1\x18\x09\x2a\x57\x35\
    \x0d\x00\x03\x00\x03\
    \xa9\x99\x3e\x36\x47\x06\x81\x6a\xba\x3e\x25\x71\x78\x50\xc2\x6c\x9c\xd0\xd8\x9d";

/// The head of arena 0 that has the two. It isn't sealed.
const HEAD: [u8; 47] = *b"VARN\x00\x02\x00\x00\x00\x00\x00\x00\x00\x00\x02\
    \x00\x00\x00\x00\x00\x00\x04\x00\
    \xe5\xa4\x74\x09\x00\xa0\x3a\x26\x25\xaa\x16\x03\x07\xa5\x80\x90\x38\x65\xf8\x3b\
    \x00\x00\x00\x01";

/// A block of 500 bytes, whose clump takes two sectors, but for the two bytes by which what stands where
/// its second one begins is read as the header of a clump of two sectors.
const LONG: [u8; 500] = [b'a'; 500];

/// Its clump's header.
const LONG_HEADER: [u8; 38] = *b"VCLP\x0d\x01\xf4\x01\xf4\
    \x13\xf6\x4e\x58\x99\x99\x9e\xda\x09\xf6\xcd\x24\x78\x4f\x7a\xed\xb5\xd3\x83\x9f\
    \x01\x00\x00\x00\x00\x00\x00\x00\x00";

/// The head that has this block and `abd`, and says that the last clump takes two sectors.
const LONG_HEAD: [u8; 47] = *b"VARN\x00\x02\x00\x00\x00\x00\x00\x00\x00\x00\x02\
    \x00\x00\x00\x00\x00\x00\x06\x00\
    \xb7\xcc\x3a\x28\x11\xa9\x8b\xdf\x1e\xc6\x8d\xe1\x0c\x75\x9a\x2a\xc6\x60\xcd\x14\
    \x00\x00\x00\x02";

/// What is put into the arena, whether it is sealed then, and its damage.
type Second = (&'static [Over], bool, First);

const SECONDS: [Second; 11] = [
    (&[], false, First::Sound),
    // Where it isn't sealed, it has no directory.
    (&[(32_718, &[0xa5; 50])], false, First::Sound),
    (
        &[(10, &[1]), (8_202, &[1]), (32_718, &DIRECTORY)],
        true,
        First::Sound,
    ),
    (&[(25_128, b"@")], false, First::Scores(*b"abd", *b"ab@")),
    // What a clump says of the sectors of the one before it, behind each clump and before the sum.
    (&[(25_121, &[2])], false, First::Numbers(1, 2)),
    (&[(24_609, &[1])], false, First::Numbers(0, 1)),
    (
        &[(24_609, &[1]), (25_092, &[14])],
        false,
        First::Numbers(13, 14),
    ),
    (
        &[(25_121, &[2]), (21, &[6]), (8_213, &[6])],
        false,
        First::Numbers(1, 2),
    ),
    // The sum, the sectors of the last clump, and an entry of a sealed one.
    (
        &[(21, &[6]), (8_213, &[6])],
        false,
        First::Numbers(1_536, 1_024),
    ),
    (
        &[
            (24_576, &LONG_HEADER),
            (24_614, &LONG),
            (25_093, b"\x01\xf4"),
            (25_600, &ABD_CLUMP),
            (25_633, &[2]),
            (0, &LONG_HEAD),
            (8_192, &LONG_HEAD),
        ],
        false,
        First::Numbers(1, 2),
    ),
    (
        &[
            (10, &[1]),
            (8_202, &[1]),
            (32_718, &DIRECTORY),
            (32_743, &[14]),
        ],
        true,
        First::Numbers(13, 14),
    ),
];

/// Puts bytes into the first arena.
fn are_over<D: Disk>(disk: &mut D, overs: &[Over]) -> bool {
    for (at, bytes) in overs {
        let place = BEGIN.saturating_add(*at);
        let len = disk.len();
        let inside = place <= len && bytes.len() as u64 <= len - place;
        if !inside || disk.write_at(place, bytes).is_err() {
            return false;
        }
    }
    true
}

/// The disk of a log whose first arena is of version 2, with these bytes in it.
fn second<T: TestLog>(alloc: Global, disk: T::Disk, overs: &[Over]) -> Option<T::Disk> {
    let log: T = fresh(alloc, disk)?;
    let mut disk = log.close()?;
    let spelled: [Over; 4] = [
        (24_576, &ABC_CLUMP),
        (25_088, &ABD_CLUMP),
        (0, &HEAD),
        (8_192, &HEAD),
    ];
    if are_over(&mut disk, &spelled) && are_over(&mut disk, overs) {
        Some(disk)
    } else {
        None
    }
}

/// What is told of the arenas of such a log is right.
fn see_second<D: Disk + Drop>(
    rt: &(impl Threads + Sync),
    alloc: Global,
    disk: D,
    case: &Second,
    rows: &mut Rows,
    row: usize,
) {
    let (overs, sealed, first) = *case;
    let Some(disk) = second::<DiskLog<D>>(alloc, disk, overs) else {
        rows.nth(row, "a log that is written", false);
        return;
    };
    let Some(report) = report(rt, alloc, disk) else {
        rows.nth(row, "a log that is checked", false);
        return;
    };
    let arenas = report.arenas.as_slice();
    rows.nth(row, "how many arenas there are", arenas.len() == 3);
    for (number, arena) in arenas.iter().enumerate() {
        let (clumps, damage) = if number == 0 {
            (2, damage_of(first))
        } else {
            (0, None)
        };
        rows.nth(row, "the clumps of an arena", arena.clumps == clumps);
        rows.nth(
            row,
            "an arena is sealed",
            arena.sealed == (number == 0 && sealed),
        );
        rows.nth(row, "the damage of an arena", arena.damage == damage);
    }
}

#[test]
fn the_first_damage_of_version_2_is_told(rt: HostRuntime) -> Result<(), Fail> {
    let mut rows = Rows::new();
    for (row, case) in SECONDS.iter().enumerate() {
        match disk(rt.alloc()) {
            Some(disk) => see_second(&rt, rt.alloc(), disk, case, &mut rows, row),
            None => rows.nth(row, "memory for the disk", false),
        }
    }
    rows.passes()
}
