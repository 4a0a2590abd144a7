//! Partitions are made, grown, handed out once and taken back, and calls of them fail.

use crate::disks::{FailingDisk, Made, read, write};
use std::alloc::Global;
use std::test::Fail;
use vt_base::Text;
use vt_disk::Disk;
use vt_partitions::{Failing, MakesDisks, MemParts, Parts};
use vt_rows::Rows;

/// Whether the partition of this name isn't handed out.
fn refuses<P: Parts>(alloc: Global, parts: &mut P, name: &Text, grow_to: Option<u64>) -> bool {
    parts.part(alloc, name, grow_to).is_err()
}

/// Takes a partition of 10 bytes that isn't there, writes it, and gives it back.
fn make<P: Parts>(rows: &mut Rows, alloc: Global, parts: &mut P, name: &Text) {
    let Ok(mut disk) = parts.part(alloc, name, Some(10)) else {
        rows.is("one is made", false);
        return;
    };
    rows.is("the length of the one that is made", disk.len() == 10);
    let written = write(&mut disk, 3, b"ab");
    rows.is("it is written", written == Some(Ok(())));
    let is_once = refuses(alloc, parts, name, Some(10));
    rows.is("it isn't handed out twice", is_once);
    parts.done(name, disk);
}

/// The length of a partition that is handed out and taken back.
fn len<P: Parts>(alloc: Global, parts: &mut P, name: &Text, grow_to: u64) -> Option<u64> {
    match parts.part(alloc, name, Some(grow_to)) {
        Ok(disk) => {
            let len = disk.len();
            parts.done(name, disk);
            Some(len)
        }
        Err(_) => None,
    }
}

/// The bytes from 2 to 5 of a partition that is handed out.
fn bytes<P: Parts>(alloc: Global, parts: &mut P, name: &Text, grow_to: u64) -> Option<[u8; 4]> {
    match parts.part(alloc, name, Some(grow_to)) {
        Ok(mut disk) => read(&mut disk, 2),
        Err(_) => None,
    }
}

/// A partition is made, written, handed out once, taken back and grown.
fn lend<P: Parts>(rows: &mut Rows, alloc: Global, parts: &mut P, name: &Text) {
    let is_absent = refuses(alloc, parts, name, None);
    rows.is("none is handed out where none is made", is_absent);
    make(rows, alloc, parts, name);
    let found = len(alloc, parts, name, 4);
    rows.is("the length of one that is long enough", found == Some(10));
    let found = len(alloc, parts, name, 12);
    rows.is("the length of one that is grown", found == Some(12));
    let found = bytes(alloc, parts, name, 12);
    rows.is("the bytes of one that is grown", found == Some(*b"\0ab\0"));
}

/// Lends partitions that are made by this, and counts the refusals. None where there is no memory.
fn lend_made<D: Disk + Drop, M: MakesDisks<D> + Drop>(
    rows: &mut Rows,
    alloc: Global,
    maker: M,
) -> Option<()> {
    let name = Text::copy_of(alloc, b"a.part").ok()?;
    let mut parts = MemParts::<D, M>::new(alloc, maker);
    lend(rows, alloc, &mut parts, &name);
    rows.is("the count of refusals", parts.faults() == 2);
    Some(())
}

#[test]
fn partitions_are_handed_out_and_taken_back(rt: HostRuntime) -> Result<(), Fail> {
    let maker = Failing::new(Vec::new(rt.alloc()));
    let mut rows = Rows::new();
    let is_done = lend_made::<Made, Failing<Global>>(&mut rows, rt.alloc(), maker).is_some();
    rows.is("there is memory", is_done);
    rows.passes()
}

/// Whether the first two syncs of a partition are done.
fn syncs<P: Parts>(alloc: Global, parts: &mut P, name: &Text) -> Option<(bool, bool)> {
    match parts.part(alloc, name, Some(8)) {
        Ok(mut disk) => Some((disk.sync().is_ok(), disk.sync().is_ok())),
        Err(_) => None,
    }
}

/// Partitions with one of this name, of which call 0 fails. The others are made by this.
fn with_kept<D: FailingDisk, M: Drop>(
    alloc: Global,
    maker: M,
    name: Text,
) -> Option<MemParts<D, M>> {
    let kept = D::failing_at(alloc, 8, &[0])?;
    MemParts::new(alloc, maker).with(name, kept).ok()
}

/// Syncs a partition that is made by this, and one that was there. None where there is no memory.
fn sync_both<D: FailingDisk, M: MakesDisks<D> + Drop>(
    rows: &mut Rows,
    alloc: Global,
    maker: M,
) -> Option<()> {
    let made = Text::copy_of(alloc, b"made").ok()?;
    let kept = Text::copy_of(alloc, b"kept").ok()?;
    let mut parts = with_kept::<D, M>(alloc, maker, Text::copy_of(alloc, b"kept").ok()?)?;
    let made = syncs(alloc, &mut parts, &made);
    let kept = syncs(alloc, &mut parts, &kept);
    rows.is("the syncs of one that is made", made == Some((true, false)));
    rows.is(
        "the syncs of one that was there",
        kept == Some((false, true)),
    );
    Some(())
}

#[test]
fn calls_of_partitions_fail(rt: HostRuntime) -> Result<(), Fail> {
    let maker = Failing::new(vec![in rt.alloc(); 1u64; 1]?);
    let mut rows = Rows::new();
    let is_done = sync_both::<Made, Failing<Global>>(&mut rows, rt.alloc(), maker).is_some();
    rows.is("there is memory", is_done);
    rows.passes()
}
