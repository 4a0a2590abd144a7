//! The bytes of a disk in memory: as read, as synced, and which of them are pending.

ghost use Rattle.std.specs.Prelude.{◌≡◌, ◌+◌, ◌-◌, ◌*◌, ◌/◌, ◌^◌, ◌<◌, ◌≤◌, ℕ, Bool, false, List, length, drop, replicate, slice_index, if◌then◌else◌, IfOk};
ghost use Rattle.vt_base.specs.Bytes.{AreBytes};
ghost use Rattle.vt_disk.specs.declared.TheConstants.{SECTOR_LEN};
ghost use Rattle.vt_disk.specs.Disk.{part, with_bytes};
ghost use Rattle.vt_memdisk.specs.Cells.{is_pending, NonePending, MarksPending, byte_after, chosen};
ghost use Rattle.vt_memdisk.specs.Crashes.{IsLeftBy};

use crate::choices::choose;
use crate::crash::{CrashMode, leave};
use crate::dirty::Dirty;
use std::alloc::{AllocError, Global};
use vt_disk::SECTOR_LEN;

/// The bytes of a disk.
#[derive(Drop)]
pub struct Cells {
    /// What reads give: all that was written.
    pub content: Vec<u8>,
    /// What they were at the last sync, which a crash leaves wherever nothing is pending.
    synced: Vec<u8>,
    /// Of each byte, whether a crash may leave anything there.
    pub pending: Vec<bool>,
    /// The sectors with pending bytes, and perhaps others.
    dirty: Dirty,
    ghost content_fits: { AreBytes content.items },
    ghost synced_fits: { AreBytes synced.items },
    ghost in_range: { length content.items < 2 ^ 64 },
    ghost synced_length: { length synced.items ≡ length content.items },
    ghost pending_length: { length pending.items ≡ length content.items },
    ghost sectors: { length dirty.place.items ≡ length content.items / SECTOR_LEN + 1 },
    ghost settled: { (i : ℕ) → is_pending pending.items i ≡ false
        → slice_index content.items i ≡ slice_index synced.items i },
    ghost clean: { (i : ℕ) → i < length content.items
        → dirty.count ≤ slice_index dirty.place.items (i / SECTOR_LEN)
        → is_pending pending.items i ≡ false },
}

/// Writes a piece over what stands from a place on.
fn put(content: &mut Vec<u8>, start: usize, chunk: &[u8])
    requires { start + length chunk.now ≤ length content.old.items }
    ensures { content.new.items ≡ with_bytes start chunk.now content.old.items }
{
    content[start..start + chunk.len()].copy_from_slice(chunk);
}

/// Copies the bytes of a range.
fn copy_range(to: &mut Vec<u8>, from: &Vec<u8>, start: usize, n: usize)
    requires to { start + n ≤ length to.old.items }
    requires from { start + n ≤ length from.now.items }
    ensures { to.new.items ≡ with_bytes start (part start n from.now.items) to.old.items }
{
    put(to, start, &from[start..start + n]);
}

/// Sets the flags of a range.
fn set_all(flags: &mut Vec<bool>, start: usize, n: usize, value: bool)
    requires { start + n ≤ length flags.old.items }
    ensures { flags.new.items ≡ with_bytes start (replicate n value) flags.old.items }
{
    flags[start..start + n].fill(value);
}

impl Cells {
    /// Zero bytes, of which none is pending.
    pub fn new(alloc: Global, len: usize) -> Result<Self, AllocError>
        ensures length { IfOk result (λ cells. length cells.content.items ≡ len) }
        ensures zero { IfOk result (λ cells. (i : ℕ) → slice_index cells.content.items i ≡ 0) }
        ensures synced { IfOk result (λ cells. cells.synced.items ≡ cells.content.items) }
        ensures pending { IfOk result (λ cells. NonePending cells.pending.items) }
    {
        Ok(Cells {
            content: vec![in alloc; 0; len]?,
            synced: vec![in alloc; 0; len]?,
            pending: vec![in alloc; false; len]?,
            dirty: Dirty::new(alloc, len / SECTOR_LEN + 1)?,
        })
    }

    /// Makes pending what a write touches.
    pub fn mark(&mut self, start: usize, n: usize)
        requires { start + n ≤ length self.old.content.items }
        ensures marks { MarksPending start n self.old.pending.items self.new.pending.items }
        ensures content { self.new.content ≡ self.old.content }
        ensures synced { self.new.synced ≡ self.old.synced }
    {
        self.dirty
            .add_range(start / SECTOR_LEN, (start + n) / SECTOR_LEN);
        set_all(&mut self.pending, start, n, true);
    }

    /// Writes, and makes pending what the write touches.
    pub fn write(&mut self, start: usize, chunk: &[u8])
        requires { start + length chunk.now ≤ length self.old.content.items }
        ensures content { self.new.content.items
            ≡ with_bytes start chunk.now self.old.content.items }
        ensures marks { MarksPending start (length chunk.now)
            self.old.pending.items self.new.pending.items }
        ensures synced { self.new.synced ≡ self.old.synced }
    {
        self.mark(start, chunk.len());
        put(&mut self.content, start, chunk);
    }

    /// Settles the last dirty sector.
    fn settle_last(&mut self)
        requires { 0 < self.old.dirty.count }
        ensures content { self.new.content ≡ self.old.content }
        ensures count { self.new.dirty.count ≡ self.old.dirty.count - 1 }
    {
        let start = self.dirty.last() * SECTOR_LEN;
        let n = SECTOR_LEN.min(self.content.len() - start);
        copy_range(&mut self.synced, &self.content, start, n);
        set_all(&mut self.pending, start, n, false);
        self.dirty.drop_last();
    }

    /// Settles each dirty sector.
    pub fn settle(&mut self)
        ensures content { self.new.content ≡ self.old.content }
        ensures synced { self.new.synced.items ≡ self.old.content.items }
        ensures pending { NonePending self.new.pending.items }
    {
        while !self.dirty.is_empty() {
            self.settle_last();
        }
    }

    /// The pending bytes take the choices.
    pub fn choose(&mut self, choice: &[u16])
        ensures content { self.new.content.items ≡ chosen
            self.old.pending.items self.old.synced.items self.old.content.items choice.now }
        ensures pending { self.new.pending ≡ self.old.pending }
        ensures synced { self.new.synced ≡ self.old.synced }
    {
        choose(&mut self.content, &self.synced, &self.pending, choice);
    }

    /// The pending bytes become what a crash in this mode leaves of them.
    pub fn leave(&mut self, mode: CrashMode)
        ensures content { IsLeftBy mode self.old.pending.items self.old.synced.items
            self.old.content.items self.new.content.items }
        ensures pending { self.new.pending ≡ self.old.pending }
        ensures synced { self.new.synced ≡ self.old.synced }
    {
        leave(&mut self.content, &self.synced, &self.pending, mode);
    }
}
