//! A disk in memory.

use crate::cells::Cells;
use crate::crash::CrashMode;
use crate::plan::{Listed, Never, Plan};
use std::alloc::{AllocError, Global};
use vt_base::Failed;
use vt_disk::Disk;

/// A disk in memory, of which a crash can be tried: it leaves any combination of the bytes that
/// writes touched since the last sync. It is of zero bytes at first.
// The plan stands in the type, so that the type alone says that a disk that `new` made never fails:
// what is generic over disks promises of its disk no more than the trait does.
#[derive(Drop)]
pub struct MemDisk<P = Never> {
    /// Its bytes, and what a crash may leave of them.
    cells: Cells,
    /// Which of its calls fail, and how many were made.
    plan: P,
}

impl MemDisk<Never> {
    ghost use Rattle.std.specs.Prelude.{◌≡◌, ℕ, [], length, slice_index, IfOk};
    ghost use Rattle.vt_disk.specs.Disk.{Only};
    ghost use Rattle.vt_memdisk.specs.Cells.{NonePending};
    ghost use Rattle.vt_memdisk.specs.Memory.{memory_bytes, memory_pending, memory_plan};

    /// A disk of so many zero bytes, of which no call fails.
    pub fn new(alloc: Global, len: u64) -> Result<Self, AllocError>
        ensures length { IfOk result (λ disk. length (memory_bytes disk) ≡ len) }
        ensures zero { IfOk result (λ disk. (i : ℕ) → slice_index (memory_bytes disk) i ≡ 0) }
        ensures pending { IfOk result (λ disk. NonePending (memory_pending disk)) }
        ensures settled { IfOk result (λ disk.
            Only (memory_bytes disk) (⟦<MemDisk<Never> as Disk>⟧.images disk)) }
        ensures listed { IfOk result (λ disk. ⟦<Never as Plan>⟧.listed (memory_plan disk) ≡ []) }
        ensures calls { IfOk result (λ disk. ⟦<Never as Plan>⟧.calls (memory_plan disk) ≡ 0) }
    {
        MemDisk::with_plan(alloc, len, Never::new())
    }
}

impl MemDisk<Listed> {
    ghost use Rattle.std.specs.Prelude.{◌≡◌, ℕ, length, slice_index, IfOk};
    ghost use Rattle.vt_disk.specs.Disk.{Only};
    ghost use Rattle.vt_memdisk.specs.Cells.{NonePending};
    ghost use Rattle.vt_memdisk.specs.Memory.{memory_bytes, memory_pending, memory_plan};

    /// A disk of so many zero bytes, of which the calls with these numbers fail. Reads, writes and
    /// syncs are numbered together, from 0.
    pub fn failing(alloc: Global, len: u64, calls: Vec<u64>) -> Result<Self, AllocError>
        ensures length { IfOk result (λ disk. length (memory_bytes disk) ≡ len) }
        ensures zero { IfOk result (λ disk. (i : ℕ) → slice_index (memory_bytes disk) i ≡ 0) }
        ensures pending { IfOk result (λ disk. NonePending (memory_pending disk)) }
        ensures settled { IfOk result (λ disk.
            Only (memory_bytes disk) (⟦<MemDisk<Listed> as Disk>⟧.images disk)) }
        ensures listed { IfOk result (λ disk.
            ⟦<Listed as Plan>⟧.listed (memory_plan disk) ≡ calls.items) }
        ensures calls { IfOk result (λ disk. ⟦<Listed as Plan>⟧.calls (memory_plan disk) ≡ 0) }
        ensures faults { IfOk result (λ disk. ⟦<Listed as Plan>⟧.faults (memory_plan disk) ≡ 0) }
    {
        MemDisk::with_plan(alloc, len, Listed::new(calls))
    }
}

impl<P: Plan> MemDisk<P> {
    ghost use Rattle.std.specs.Prelude.{◌≡◌, ◌<◌, ℕ, [], length, slice_index, IfOk};
    ghost use Rattle.vt_disk.specs.Disk.{Only};
    ghost use Rattle.vt_memdisk.specs.Cells.{is_pending, NonePending, chosen};
    ghost use Rattle.vt_memdisk.specs.Crashes.{IsLeftBy};
    ghost use Rattle.vt_memdisk.specs.Memory.{memory_bytes, memory_synced, memory_pending, memory_plan};

    /// A disk of so many zero bytes with nothing pending, whose calls fail by this plan.
    fn with_plan(alloc: Global, len: u64, plan: P) -> Result<Self, AllocError>
        ensures length { IfOk result (λ disk. length (memory_bytes disk) ≡ len) }
        ensures zero { IfOk result (λ disk. (i : ℕ) → slice_index (memory_bytes disk) i ≡ 0) }
        ensures pending { IfOk result (λ disk. NonePending (memory_pending disk)) }
        ensures settled { IfOk result (λ disk.
            Only (memory_bytes disk) (⟦<MemDisk<P> as Disk>⟧.images disk)) }
        ensures plan { IfOk result (λ disk. memory_plan disk ≡ plan) }
    {
        Ok(MemDisk {
            cells: Cells::new(alloc, len as usize)?,
            plan,
        })
    }

    /// Whether a crash may leave anything at this place.
    pub fn pending(&self, at: u64) -> bool
        requires { at < length (memory_bytes self.now) }
        ensures { result ≡ is_pending (memory_pending self.now) at }
    {
        self.cells.pending[at as usize]
    }

    /// The disk after a crash: the pending bytes, in ascending position, take the choices one after
    /// the other. A choice below 256 is that byte, 257 the written byte, any other the synced byte,
    /// as where there is no choice left. No call fails from then on, and calls are numbered from 0
    /// again.
    pub fn crash(mut self, choice: &[u16]) -> Self
        ensures bytes { memory_bytes result
            ≡ chosen (memory_pending self) (memory_synced self) (memory_bytes self) choice.now }
        ensures image { ⟦<MemDisk<P> as Disk>⟧.images self (memory_bytes result) }
        ensures pending { NonePending (memory_pending result) }
        ensures settled { Only (memory_bytes result) (⟦<MemDisk<P> as Disk>⟧.images result) }
        ensures listed { P.listed (memory_plan result) ≡ [] }
        ensures calls { P.calls (memory_plan result) ≡ 0 }
        ensures faults { P.faults (memory_plan result) ≡ P.faults (memory_plan self) }
    {
        self.cells.choose(choice);
        self.restarted()
    }

    /// The disk after a crash that leaves of its pending bytes what the mode says. As after
    /// `crash`, no call fails from then on, and calls are numbered from 0 again.
    pub fn crash_in(mut self, mode: CrashMode) -> Self
        ensures bytes { IsLeftBy mode (memory_pending self) (memory_synced self)
            (memory_bytes self) (memory_bytes result) }
        ensures image { ⟦<MemDisk<P> as Disk>⟧.images self (memory_bytes result) }
        ensures pending { NonePending (memory_pending result) }
        ensures settled { Only (memory_bytes result) (⟦<MemDisk<P> as Disk>⟧.images result) }
        ensures listed { P.listed (memory_plan result) ≡ [] }
        ensures calls { P.calls (memory_plan result) ≡ 0 }
        ensures faults { P.faults (memory_plan result) ≡ P.faults (memory_plan self) }
    {
        self.cells.leave(mode);
        self.restarted()
    }

    /// What is read is all that there is, and the machine starts again.
    fn restarted(self) -> Self
        ensures bytes { memory_bytes result ≡ memory_bytes self }
        ensures pending { NonePending (memory_pending result) }
        ensures settled { Only (memory_bytes result) (⟦<MemDisk<P> as Disk>⟧.images result) }
        ensures listed { P.listed (memory_plan result) ≡ [] }
        ensures calls { P.calls (memory_plan result) ≡ 0 }
        ensures faults { P.faults (memory_plan result) ≡ P.faults (memory_plan self) }
    {
        let mut disk = self;
        disk.cells.settle();
        disk.plan.restart();
        disk
    }
}

impl<P: Plan> Disk for MemDisk<P> {
    ghost use Rattle.std.specs.Prelude.{◌≡◌, ◌↔◌, ◌+◌, ◌≤◌, true, List, ℕ, length, IsTrue, IsErr, OnOk, OnErr, Contains};
    ghost use Rattle.std.proofs.Common.{sym, ◌∙◌};
    ghost use Rattle.vt_disk.specs.Disk.{Touches, SameBut, part, with_bytes, AreAmong, ChangesAt, Only, IsOneMore};
    ghost use Rattle.vt_base.specs.Faults.{HasCause};
    ghost use Rattle.vt_memdisk.specs.Cells.{IsCombination, NonePending, MarksPending};
    ghost use Rattle.vt_memdisk.specs.Memory.{memory_bytes, memory_synced, memory_pending, memory_plan};

    ghost tells = { true };

    ghost size = { λ disk. length disk.cells.content.items };

    ghost bytes = { λ disk. disk.cells.content.items };

    ghost images = { λ disk. IsCombination disk.cells.synced.items disk.cells.pending.items };

    ghost calls = { λ disk. P.calls disk.plan };

    ghost faults = { λ disk. P.faults disk.plan };

    ghost size_fits = { λ disk. disk.cells.in_range };

    ghost faults_fit = { λ disk. P.faults_fit disk.plan };

    ghost read_is_image = { λ disk told. record {
      fits = disk.cells.content_fits;
      same_length = sym disk.cells.synced_length;
      settled = disk.cells.settled;
    } };

    ghost images_fit = { λ disk c is. (is.same_length ∙ disk.cells.synced_length, is.fits) };

    /// How many bytes it has, which is no counted call.
    fn len(&self) -> u64 {
        self.cells.content.len() as u64
    }

    /// Copies out the bytes, unless the plan lets the call fail.
    fn read_at(&mut self, start: u64, buf: &mut [u8]) -> Result<(), Failed>
        requires { start + length buf.old ≤ length (memory_bytes self.old) }
        ensures read { OnOk result (buf.new ≡ part start (length buf.old) (memory_bytes self.old)) }
        ensures bytes { memory_bytes self.new ≡ memory_bytes self.old }
        ensures synced { memory_synced self.new ≡ memory_synced self.old }
        ensures pending { memory_pending self.new ≡ memory_pending self.old }
        ensures fails { IsErr result
            ↔ Contains (P.listed (memory_plan self.old)) (P.calls (memory_plan self.old)) }
        ensures listed { P.listed (memory_plan self.new) ≡ P.listed (memory_plan self.old) }
        ensures calls { IsOneMore
            (P.calls (memory_plan self.old)) (P.calls (memory_plan self.new)) }
        ensures cause { HasCause result
            (P.faults (memory_plan self.old)) (P.faults (memory_plan self.new)) }
    {
        if self.plan.next_fails() {
            return Err(Failed);
        }
        let from = start as usize;
        buf.copy_from_slice(&self.cells.content[from..from + buf.len()]);
        Ok(())
    }

    /// Changes the bytes that a read gives, and makes those that it touches pending. Where the plan
    /// lets the call fail they are pending too, and a read gives what it gave.
    fn write_at(&mut self, start: u64, chunk: &[u8]) -> Result<(), Failed>
        requires { start + length chunk.now ≤ length (memory_bytes self.old) }
        ensures written { OnOk result
            (memory_bytes self.new ≡ with_bytes start chunk.now (memory_bytes self.old)) }
        ensures failed { OnErr result (memory_bytes self.new ≡ memory_bytes self.old) }
        ensures pending { MarksPending start (length chunk.now)
            (memory_pending self.old) (memory_pending self.new) }
        ensures synced { memory_synced self.new ≡ memory_synced self.old }
        ensures fails { IsErr result
            ↔ Contains (P.listed (memory_plan self.old)) (P.calls (memory_plan self.old)) }
        ensures listed { P.listed (memory_plan self.new) ≡ P.listed (memory_plan self.old) }
        ensures calls { IsOneMore
            (P.calls (memory_plan self.old)) (P.calls (memory_plan self.new)) }
        ensures cause { HasCause result
            (P.faults (memory_plan self.old)) (P.faults (memory_plan self.new)) }
    {
        if self.plan.next_fails() {
            self.cells.mark(start as usize, chunk.len());
            return Err(Failed);
        }
        self.cells.write(start as usize, chunk);
        Ok(())
    }

    /// The bytes that a read gives are now those that a crash leaves, and nothing is pending,
    /// unless the plan lets the call fail.
    fn sync(&mut self) -> Result<(), Failed>
        ensures settled { OnOk result (memory_synced self.new ≡ memory_bytes self.old) }
        ensures none_pending { OnOk result (NonePending (memory_pending self.new)) }
        ensures unsettled { OnErr result (memory_synced self.new ≡ memory_synced self.old) }
        ensures pending { OnErr result (memory_pending self.new ≡ memory_pending self.old) }
        ensures bytes { memory_bytes self.new ≡ memory_bytes self.old }
        ensures fails { IsErr result
            ↔ Contains (P.listed (memory_plan self.old)) (P.calls (memory_plan self.old)) }
        ensures listed { P.listed (memory_plan self.new) ≡ P.listed (memory_plan self.old) }
        ensures calls { IsOneMore
            (P.calls (memory_plan self.old)) (P.calls (memory_plan self.new)) }
        ensures cause { HasCause result
            (P.faults (memory_plan self.old)) (P.faults (memory_plan self.new)) }
    {
        if self.plan.next_fails() {
            return Err(Failed);
        }
        self.cells.settle();
        Ok(())
    }
}
