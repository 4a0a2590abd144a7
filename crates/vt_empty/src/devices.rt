//! The devices of a store without blocks, in memory.

ghost use Rattle.std.specs.Prelude.{◌≡◌, ◌+◌, ◌*◌, ◌≤◌, ℕ, List, [], ◌∷◌, IfOk, IsTrue, Some, map, replicate};
ghost use Rattle.vt_bloom.specs.Bits.{AreCounts};
ghost use Rattle.vt_bloom.specs.Frame.{HasSaved, empty_of};
ghost use Rattle.vt_bloom.specs.Size.{IsLargest, IsFilterSize};
ghost use Rattle.vt_disk.specs.declared.TheConstants.{BLOCK_LEN};
ghost use Rattle.vt_recover.specs.declared.devices.Devices.{Devices};
ghost use Rattle.vt_empty.specs.Formatted.{AreUnfilled};
ghost use Rattle.vt_empty.specs.Partition.{IsFreshPart};
ghost use Rattle.vt_empty.specs.Shape.{IsShape};
ghost use Rattle.vt_empty.specs.Store.{AreFresh, IsFilterFor};
ghost use Rattle.vt_empty.specs.declared.shape.Shape.{Shape};
ghost use Rattle.vt_isect.specs.Layout.{buckets_in};
ghost use Rattle.vt_part.specs.declared.part.Part.{Part};
ghost use Rattle.vt_part.specs.Table.{IsArenaSize};

use crate::laws::formatted_devices_hold_nothing;
use crate::sections::fresh_sections;
use crate::shape::Shape;
use std::alloc::{AllocError, Global};
use vt_base::{MountBad, Text};
use vt_disk::{BLOCK_LEN, Disk};
use vt_format::{make_arenas, make_filter};
use vt_memdisk::MemDisk;
use vt_part::Part;
use vt_recover::Devices;

/// The devices of a store of this shape without blocks, on disks in memory, of which no call fails.
pub fn fresh_devices(alloc: Global, shape: &Shape) -> Result<Devices<MemDisk>, AllocError>
    requires { IsShape shape.now }
    ensures { IfOk result (AreFresh ⟦<MemDisk as Disk>⟧ shape.now) }
{
    parts_make_devices::<MemDisk>();
    let len = BLOCK_LEN as u64 + u64::from(shape.arenas) * shape.arena_len;
    let disk = MemDisk::new(alloc, len)?;
    let part = fresh_part(alloc, disk, shape.arena_len)?;
    let mut parts = Vec::with_capacity(alloc, 1)?;
    parts.push(part)?;
    let sections = fresh_sections(alloc, shape.sections, shape.buckets)?;
    // (two frames, each a block and the filter's bytes, and a block for the selector)
    let len = 2 * (BLOCK_LEN as u64 + shape.filter) + BLOCK_LEN as u64;
    let disk = MemDisk::new(alloc, len)?;
    let filter = fresh_filter(alloc, disk, shape.filter, shape.positions)?;
    Ok(Devices {
        parts,
        sections,
        filter: Some(filter),
    })
}

/// A partition, sections and a filter of one shape are the devices of a store of that shape.
fn parts_make_devices<D: Disk>()
    ensures { (shape : Shape) (devices : Devices D) (part : Part D) (filter : D) → IsTrue D.tells
        → IsShape shape → devices.parts.items ≡ part ∷ [] → devices.filter ≡ Some filter
        → IsFreshPart D.Disk (BLOCK_LEN + shape.arenas * shape.arena_len) shape.arena_len part
        → AreUnfilled D.Disk 0 (shape.sections * shape.buckets) devices.sections.items
        → map (λ d. buckets_in (D.size d)) devices.sections.items
        ≡ replicate shape.sections shape.buckets
        → IsFilterFor D.Disk shape filter → AreFresh D.Disk shape devices }
{
    formatted_devices_hold_nothing::<D>();
}

/// The disk as a partition of arenas of one size, which have no blocks.
fn fresh_part<D: Disk + Drop>(alloc: Global, disk: D, arena_len: u64) -> Result<Part<D>, AllocError>
    requires tells { IsTrue D.tells }
    requires never { (disk : D) → D.faults disk ≡ 0 }
    requires arena_len { IsArenaSize arena_len }
    requires room { BLOCK_LEN + arena_len ≤ D.size disk }
    ensures { IfOk result (IsFreshPart D.Disk (D.size disk) arena_len) }
{
    let name = Text::copy_of(alloc, b"arenas")?;
    let (disk, done) = make_arenas(alloc, disk, &name, arena_len);
    match done {
        Ok(_) => {}
        Err(MountBad::NoMemory) => return Err(AllocError),
        Err(_) => unreachable!(),
    }
    let Ok(part) = vt_part::mount(disk) else {
        unreachable!()
    };
    Ok(part)
}

/// The disk as a filter of this many bytes, of which no bit is set.
fn fresh_filter<D: Disk + Drop>(
    alloc: Global,
    mut disk: D,
    size: u64,
    positions: u8,
) -> Result<D, AllocError>
    requires tells { IsTrue D.tells }
    requires never { (disk : D) → D.faults disk ≡ 0 }
    requires size { (m : ℕ) × IsFilterSize m size × IsLargest (D.size disk) m
        × AreCounts m positions }
    ensures { IfOk result (λ it. (m : ℕ) → IsFilterSize m size → (c : List ℕ) → D.images it c
        → HasSaved (empty_of m positions) c) }
{
    match make_filter(alloc, &mut disk, size, positions) {
        Ok(()) => Ok(disk),
        Err(MountBad::NoMemory) => Err(AllocError),
        Err(_) => unreachable!(),
    }
}
