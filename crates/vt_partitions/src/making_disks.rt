//! What makes the disks of partitions that weren't there.

ghost use Rattle.std.specs.Prelude.{◌≡◌, [], IfOk};
ghost use Rattle.vt_partitions.specs.Parts.{IsMade};

use std::alloc::{AllocError, Allocator, Global};
use vt_disk::Disk;
use vt_memdisk::{Listed, MemDisk, Plan};

/// Makes disks.
pub trait MakesDisks<D: Disk> {
    /// A disk of so many zero bytes, of which a crash leaves nothing else.
    fn make(&self, alloc: Global, len: u64) -> Result<D, AllocError>
        ensures { IfOk result (IsMade D.Disk [] len) };
}

/// Makes disks in memory, of each of which the calls with these numbers fail.
#[derive(Drop)]
pub struct Failing<A: Allocator> {
    /// Their numbers on each disk, on which reads, writes and syncs are numbered together, from 0.
    calls: Vec<u64, A>,
}

impl<A: Allocator> Failing<A> {
    ghost use Rattle.vt_memdisk.specs.Memory.{memory_plan};
    ghost use Rattle.vt_partitions.specs.NamedInMemory.{failing_calls};

    /// Disks of which these calls fail. Reads, writes and syncs are numbered together, from 0.
    pub fn new(calls: Vec<u64, A>) -> Self
        ensures { failing_calls result ≡ calls.items }
    {
        Failing { calls }
    }

    /// A disk of so many zero bytes.
    pub fn disk(&self, alloc: Global, len: u64) -> Result<MemDisk<Listed>, AllocError>
        // (⟦X as T⟧: X's ghost members of the trait T, as one record; the words: specs/NamedInMemory.antt)
        ensures made { IfOk result (IsMade ⟦<MemDisk<Listed> as Disk>⟧ [] len) }
        ensures listed { IfOk result (λ disk.
            ⟦<Listed as Plan>⟧.listed (memory_plan disk) ≡ failing_calls self.now) }
        ensures calls { IfOk result (λ disk. ⟦<Listed as Plan>⟧.calls (memory_plan disk) ≡ 0) }
    {
        MemDisk::failing(alloc, len, Vec::from_slice(alloc, self.calls.as_slice())?)
    }
}

impl<A: Allocator> MakesDisks<MemDisk<Listed>> for Failing<A> {
    /// A disk of zeros in memory, of whose calls the listed ones fail.
    fn make(&self, alloc: Global, len: u64) -> Result<MemDisk<Listed>, AllocError> {
        self.disk(alloc, len)
    }
}
