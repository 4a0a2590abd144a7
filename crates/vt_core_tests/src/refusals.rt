//! Each test of mounting fails once, on disks in memory. That there are too many arenas or buckets
//! is left out: the disks would have 128 MiB and 17 GiB.

use crate::disks::{Fails, SMALL, Shape, TestDisks};
use crate::running::{Case, passes_short};
use crate::stores::{TestStore, there};
use std::alloc::Global;
use std::test::Fail;
use vt_base::{MountBad, MountField};
use vt_rows::Rows;

/// Bytes that are written over those of a disk at a place, and the field that the store is refused
/// for then, with what is found there and what is wanted; none says that the part isn't formatted.
/// Disk 0 is the partition, disks 1 and 2 are the sections, and disk 3 is the filter's: they are
/// counted as parts.
type Patch = (u32, u64, &'static [u8], Option<(MountField, u128, u128)>);

/// Where the heads of the first two arenas stand.
const FIRST: u64 = 8_192;

const SECOND: u64 = 8_192 + 32_768;

/// A head of version 2 without blocks, behind its magic number, by which the last clump takes a sector.
const SECTOR_HEAD: [u8; 43] = *b"\x00\x02\x00\x00\x00\x00\x00\x00\x00\x00\x00\
    \x00\x00\x00\x00\x00\x00\x00\x00\
    \x00\x00\x00\x00\x00\x00\x00\x00\x00\x00\x00\x00\x00\x00\x00\x00\x00\x00\x00\x00\
    \x00\x00\x00\x01";

/// In the order in which mounting tests what they make wrong: the arenas, the sections, the filter,
/// the heads of the sections, and the marks.
const PATCHES: [Patch; 21] = [
    (0, FIRST, b"none", None),
    (0, FIRST + 4, &[0, 3], Some((MountField::Version, 3, 2))),
    (0, FIRST + 10, &[2], Some((MountField::Sealed, 2, 1))),
    (
        0,
        FIRST + 15,
        &[0, 0, 0, 0, 0, 0, 32, 1],
        Some((MountField::Used, 8_193, 8_192)),
    ),
    (0, FIRST + 4, &SECTOR_HEAD, Some((MountField::Last, 1, 0))),
    (
        0,
        SECOND + 6,
        &[0, 0, 0, 7],
        Some((MountField::Number, 7, 1)),
    ),
    (
        0,
        SECOND + 11,
        &[0, 0, 0, 3],
        Some((MountField::Clumps, 3, 0)),
    ),
    (1, 0, b"none", None),
    (2, 4, &[1, 0], Some((MountField::Version, 256, 1))),
    (3, 0, b"none", None),
    (3, 4, &[0, 2], Some((MountField::Version, 2, 1))),
    (3, 6, &[17], Some((MountField::M, 17, 16))),
    (3, 7, &[33], Some((MountField::K, 33, 32))),
    (1, 6, &[2], Some((MountField::State, 2, 1))),
    (1, 71, &[0, 0, 0, 1], Some((MountField::First, 1, 0))),
    (1, 79, &[0, 0, 0, 3], Some((MountField::Total, 3, 2))),
    (2, 71, &[0, 0, 0, 0], Some((MountField::First, 0, 1))),
    (2, 75, &[0, 0, 0, 2], Some((MountField::Count, 2, 1))),
    (
        1,
        83,
        &[0, 0, 0, 0, 0, 0, 0, 1],
        Some((MountField::Mark, 1, 0)),
    ),
    (
        2,
        83,
        &[0, 0, 0, 0, 0, 0, 1, 0],
        Some((MountField::Mark, 256, 0)),
    ),
    (
        3,
        8,
        &[0, 0, 0, 0, 0, 0, 0, 1],
        Some((MountField::Mark, 1, 0)),
    ),
];

/// What the store is refused for.
fn bad_of(part: u32, torn: Option<(MountField, u128, u128)>) -> MountBad {
    match torn {
        None => MountBad::NotFormatted { part },
        Some((field, found, want)) => MountBad::Disagree {
            part,
            field,
            found,
            want,
        },
    }
}

/// What the store of these disks is refused for, and the disks, which are handed back.
fn refused<T: TestStore>(
    alloc: Global,
    disks: T::Disks,
) -> Result<(MountBad, T::Disks), &'static str> {
    match T::open(alloc, disks) {
        Some(Err(refusal)) => Ok(refusal),
        Some(Ok(_)) => Err("the store is refused"),
        None => Err("disks of a store"),
    }
}

/// Writes the bytes of a patch, and sees that the store is refused for it. It gives the disks back.
fn spoil<T: TestStore>(
    alloc: Global,
    mut disks: T::Disks,
    patch: &Patch,
    rows: &mut Rows,
    row: usize,
) -> Option<T::Disks> {
    let is_spoilt = disks.spoil(patch.0, patch.1, patch.2);
    rows.nth(row, "the patch is written", is_spoilt);
    let (bad, disks) = there(rows, row, refused::<T>(alloc, disks))?;
    rows.nth(
        row,
        "the refusal of a patch",
        bad == bad_of(patch.0, patch.3),
    );
    Some(disks)
}

/// The disks of a small store with two arenas.
fn two_arenas<T: TestStore>(alloc: Global) -> Option<T::Disks> {
    T::Disks::made(alloc, Shape { arenas: 2, ..SMALL }, 0, Fails::Never)
}

/// More and more is wrong, and each time what is tested first is told.
fn order<T: TestStore>(alloc: Global, rows: &mut Rows) {
    let mut disks = two_arenas::<T>(alloc);
    for (row, patch) in PATCHES.iter().enumerate().rev() {
        disks = match disks {
            Some(disks) => spoil::<T>(alloc, disks, patch, rows, row),
            None => None,
        };
    }
    rows.is("the disks are handed back", disks.is_some());
}

/// The disks of a store, one of which ends too early.
fn shortened<T: TestStore>(alloc: Global, part: u32, len: u64) -> Option<T::Disks> {
    let mut disks = two_arenas::<T>(alloc)?;
    if disks.shorten(alloc, part, len) {
        Some(disks)
    } else {
        None
    }
}

/// A disk that ends too early, in the place of a section or of the filter's.
fn short<T: TestStore>(alloc: Global, part: u32, len: u64, need: u64, rows: &mut Rows) {
    let row = part as usize;
    let disks = shortened::<T>(alloc, part, len).ok_or("memory for the disks");
    let Some(disks) = there(rows, row, disks) else {
        return;
    };
    if let Some((bad, _)) = there(rows, row, refused::<T>(alloc, disks)) {
        let wanted = MountBad::TooSmall { part, len, need };
        rows.nth(row, "the refusal of a short disk", bad == wanted);
    }
}

pub fn see<T: TestStore>(alloc: Global, rows: &mut Rows) {
    order::<T>(alloc, rows);
    short::<T>(alloc, 2, 41_471, 41_472, rows);
    short::<T>(alloc, 3, 40_959, 40_960, rows);
}

/// Each test fails once, and tells what was found and what was wanted.
#[test]
fn stores_are_refused(rt: HostRuntime) -> Result<(), Fail> {
    passes_short(rt.alloc(), Case::Refusals)
}
