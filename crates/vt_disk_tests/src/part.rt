//! Partitions on disks in memory: formatted, mounted, listed and refused.
//!
//! All is said of any disk, which is much less work to prove than for one in memory.

use crate::disks::{FailingDisk, Made, read, write};
use std::alloc::Global;
use std::test::Fail;
use vt_base::Text;
use vt_disk::{Disk, Region};
use vt_part::{
    ArenaRegion, Field, Layout, Part, PartBad, format, is_arena_size, is_name, list, mount,
};
use vt_rows::Rows;

/// Makes a disk a partition of this name, with arenas of 32,768 bytes. None where it is no name.
fn format_named<D: Disk>(alloc: Global, disk: &mut D, name: &[u8]) -> Option<Result<u32, PartBad>> {
    let name = Text::copy_of(alloc, name).ok()?;
    if !is_name(name.as_slice()) {
        return None;
    }
    Some(format(disk, &name, 32_768))
}

/// The partition of this name that a disk is made.
fn part<D: Disk + Drop>(alloc: Global, mut disk: D, name: &[u8]) -> Option<Part<D>> {
    format_named(alloc, &mut disk, name)?.ok()?;
    mount(disk).ok()
}

/// The first block of a partition, by hand, and the byte behind it.
fn spelled() -> [u8; 8193] {
    let mut bytes = [0; 8193];
    bytes[..14].copy_from_slice(b"VPRT\x00\x01arenas.0");
    bytes[70..82].copy_from_slice(b"\x00\x00\x00\x00\x00\x00\x80\x00\x00\x00\x00\x02");
    bytes[8192] = 0xee;
    bytes
}

/// Makes a disk a partition where other bytes stood. None where the disk isn't made.
fn spell<D: FailingDisk>(rows: &mut Rows, alloc: Global) -> Option<()> {
    let mut disk = D::failing_at(alloc, 73_728, &[])?;
    let before = write(&mut disk, 0, &[0xee; 8193]);
    rows.is("other bytes are written", before == Some(Ok(())));
    let count = format_named(alloc, &mut disk, b"arenas.0");
    rows.is("the count of arenas", count == Some(Ok(2)));
    let found = read(&mut disk, 0);
    rows.is(
        "the first block, and the byte behind it",
        found == Some(spelled()),
    );
    Some(())
}

#[test]
fn a_block_is_spelled(rt: HostRuntime) -> Result<(), Fail> {
    let mut rows = Rows::new();
    let is_done = spell::<Made>(&mut rows, rt.alloc()).is_some();
    rows.is("a disk is made", is_done);
    rows.passes()
}

/// Whether a disk of this length gets so many arenas, or none for this cause.
fn counts<D: FailingDisk>(alloc: Global, len: u64, wanted: Result<u32, PartBad>) -> bool {
    match D::failing_at(alloc, len, &[]) {
        Some(mut disk) => format_named(alloc, &mut disk, b"a") == Some(wanted),
        None => false,
    }
}

fn small(len: u64, need: u64) -> PartBad {
    PartBad::TooSmall { len, need }
}

#[test]
fn a_disk_has_as_many_arenas_as_fit(rt: HostRuntime) -> Result<(), Fail> {
    let mut rows = Rows::new();
    let table = [
        (40_960, Ok(1)),
        (73_727, Ok(1)),
        (73_728, Ok(2)),
        (40_959, Err(small(40_959, 40_960))),
        (0, Err(small(0, 40_960))),
    ];
    for (row, (len, wanted)) in table.iter().enumerate() {
        let is_it = counts::<Made>(rt.alloc(), *len, *wanted);
        rows.nth(row, "the count of arenas, or the refusal", is_it);
    }
    rows.passes()
}

/// What a partition tells of itself: its name, the size of an arena, their count, and the last one.
fn tell<D: Disk>(rows: &mut Rows, part: &Part<D>) {
    let wanted = Region {
        start: 40_960,
        len: 32_768,
    };
    rows.is("the name", part.name() == b"arenas.0".as_slice());
    rows.is("the size of an arena", part.arena_size() == 32_768);
    rows.is("the count of arenas", part.count() == 2);
    let is_last = part.count() == 2 && part.region(1) == wanted;
    rows.is("the last arena", is_last);
}

/// Makes a disk a partition, and gives it back.
fn give_back<D: FailingDisk>(rows: &mut Rows, alloc: Global) -> Option<()> {
    let disk = D::failing_at(alloc, 73_728, &[])?;
    let part = part(alloc, disk, b"arenas.0")?;
    tell(rows, &part);
    let len = part.into_devices().len();
    rows.is("the disk that is given back", len == 73_728);
    Some(())
}

#[test]
fn a_partition_is_mounted(rt: HostRuntime) -> Result<(), Fail> {
    let mut rows = Rows::new();
    let is_done = give_back::<Made>(&mut rows, rt.alloc()).is_some();
    rows.is("a partition is mounted", is_done);
    rows.passes()
}

/// Mounts a disk: why it is no partition.
fn mounted<D: Disk + Drop>(disk: D) -> Result<(), PartBad> {
    match mount(disk) {
        Ok(_part) => Ok(()),
        Err((bad, _disk)) => Err(bad),
    }
}

/// Whether a disk of this length that begins with these bytes is a partition, or none for this
/// cause.
fn mounts<D: FailingDisk>(
    alloc: Global,
    len: u64,
    start: &[u8; 82],
    wanted: Result<(), PartBad>,
) -> bool {
    let Some(mut disk) = D::failing_at(alloc, len, &[]) else {
        return false;
    };
    let written = write(&mut disk, 0, start);
    written == Some(Ok(())) && disk.sync() == Ok(()) && mounted(disk) == wanted
}

fn torn(field: Field, found: u64, want: u64) -> PartBad {
    PartBad::Torn { field, found, want }
}

/// The tests of a mount, one after the other.
#[test]
fn the_first_fault_is_told(rt: HostRuntime) -> Result<(), Fail> {
    let mut head = [0; 82];
    let mut rows = Rows::new();
    // Each row puts a byte into the head, and leaves there what those before it put.
    let table = [
        (0, 0, 8191, Err(small(8191, 8192))),
        (0, b'V', 8192, Err(PartBad::NotFormatted)),
        (1, b'P', 8192, Err(PartBad::NotFormatted)),
        (2, b'R', 8192, Err(PartBad::NotFormatted)),
        (3, b'T', 8192, Err(torn(Field::Version, 0, 1))),
        (5, 1, 8192, Err(torn(Field::ArenaSize, 0, 32_768))),
        (76, 0x81, 8192, Err(torn(Field::ArenaSize, 0x8100, 32_768))),
        (76, 0x80, 8192, Err(torn(Field::Count, 0, 1))),
        (81, 2, 73_727, Err(small(73_727, 73_728))),
        (6, 0xff, 73_728, Ok(())),
    ];
    for (row, (at, byte, len, wanted)) in table.iter().enumerate() {
        if let Some(found) = head.get_mut(*at) {
            *found = *byte;
        }
        let is_it = mounts::<Made>(rt.alloc(), *len, &head, *wanted);
        rows.nth(row, "the refusal", is_it);
    }
    rows.passes()
}

/// Makes a disk of this length a partition of this name, one more of these. Whether it is made.
fn add<D: FailingDisk>(alloc: Global, parts: &mut Vec<Part<D>>, len: u64, name: u8) -> bool {
    let Some(disk) = D::failing_at(alloc, len, &[]) else {
        return false;
    };
    match part(alloc, disk, &[name]) {
        Some(part) => parts.push(part).is_ok(),
        None => false,
    }
}

/// The arenas of partitions on disks of these lengths, with these names. None where they aren't
/// made.
fn listed<D: FailingDisk>(alloc: Global, disks: &[(u64, u8)]) -> Option<Result<Layout, PartBad>> {
    let mut parts = Vec::<Part<D>>::new(alloc);
    let mut are_made = true;
    for (len, name) in disks {
        are_made &= add(alloc, &mut parts, *len, *name);
    }
    if !are_made || parts.len() > 4 {
        return None;
    }
    Some(list(alloc, &parts))
}

/// Notes whether the list of partitions on such disks has these arenas.
fn see_listed<D: FailingDisk>(
    rows: &mut Rows,
    alloc: Global,
    disks: &[(u64, u8)],
    wanted: &[ArenaRegion],
) {
    let Some(Ok(layout)) = listed::<D>(alloc, disks) else {
        rows.is("the arenas are listed", false);
        return;
    };
    rows.is("the arenas", layout.as_slice() == wanted);
    rows.is("the count of arenas", layout.into_vec().len() == 3);
}

/// Whether the list of partitions on such disks is refused for this cause.
fn is_refused<D: FailingDisk>(alloc: Global, disks: &[(u64, u8)], bad: PartBad) -> bool {
    match listed::<D>(alloc, disks) {
        Some(Err(found)) => found == bad,
        _ => false,
    }
}

/// The arena of 32,768 bytes with this number, which begins there on the disk of this part.
fn arena(part: u32, number: u32, start: u64) -> ArenaRegion {
    let region = Region { start, len: 32_768 };
    ArenaRegion {
        part,
        number,
        region,
    }
}

#[test]
fn arenas_are_listed(rt: HostRuntime) -> Result<(), Fail> {
    let disks = [(73_728, b'a'), (40_960, b'b')];
    let wanted = [arena(0, 0, 8192), arena(0, 1, 40_960), arena(1, 0, 8192)];
    let mut rows = Rows::new();
    see_listed::<Made>(&mut rows, rt.alloc(), &disks, &wanted);
    rows.passes()
}

#[test]
fn two_of_one_name_are_refused(rt: HostRuntime) -> Result<(), Fail> {
    let disks = [
        (40_960, b'a'),
        (40_960, b'b'),
        (40_960, b'b'),
        (40_960, b'a'),
    ];
    let bad = PartBad::DuplicateName {
        first: 0,
        second: 3,
    };
    let mut rows = Rows::new();
    let is_it = is_refused::<Made>(rt.alloc(), &disks, bad);
    rows.is("the refusal", is_it);
    rows.passes()
}

/// Formats a disk of which calls 0, 2 and 5 fail, and mounts it. None where it isn't made.
fn go_on<D: FailingDisk>(rows: &mut Rows, alloc: Global) -> Option<()> {
    let mut disk = D::failing_at(alloc, 40_960, &[0, 2, 5])?;
    let table = [Err(PartBad::Fault), Err(PartBad::Fault), Ok(1)];
    for (row, wanted) in table.iter().enumerate() {
        let found = format_named(alloc, &mut disk, b"a");
        rows.nth(row, "the answer to formatting", found == Some(*wanted));
    }
    match mount(disk) {
        Ok(_part) => rows.is("the first mount fails", false),
        Err((bad, disk)) => {
            rows.is("the first mount's refusal", bad == PartBad::Fault);
            rows.is("the second mount", mount(disk).is_ok());
        }
    }
    Some(())
}

/// A call that fails is told, and the next one goes on.
#[test]
fn a_fault_hands_the_disk_back(rt: HostRuntime) -> Result<(), Fail> {
    let mut rows = Rows::new();
    let is_done = go_on::<Made>(&mut rows, rt.alloc()).is_some();
    rows.is("a disk is made", is_done);
    rows.passes()
}

/// Notes of each row whether it says if it is a name.
fn see_names(rows: &mut Rows, table: &[(&[u8], bool)]) {
    for (row, (name, wanted)) in table.iter().enumerate() {
        rows.nth(row, "whether it is a name", is_name(name) == *wanted);
    }
}

/// The bytes of an arena, and whether it may have so many.
const SIZES: [(u64, bool); 5] = [
    (32_768, true),
    (1 << 30, true),
    (24_576, false),
    (40_000, false),
    (1_073_750_016, false),
];

#[test]
fn names_and_sizes_are_tested(rt: HostRuntime) -> Result<(), Fail> {
    let long = [b'a'; 65];
    let mut rows = Rows::new();
    let table = [
        (b"Z-9_a.".as_slice(), true),
        (&long[..64], true),
        (b"".as_slice(), false),
        (long.as_slice(), false),
        (b"a b".as_slice(), false),
        (b"a\x00".as_slice(), false),
    ];
    see_names(&mut rows, &table);
    for (row, (size, wanted)) in SIZES.iter().enumerate() {
        let is_it = is_arena_size(*size) == *wanted;
        rows.nth(row, "whether an arena may have that size", is_it);
    }
    rows.passes()
}
