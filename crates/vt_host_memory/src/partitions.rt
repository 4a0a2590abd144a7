//! Partitions in memory, which runs leave to each other.

use std::alloc::{AllocError, Global};
use std::mem;
use vt_base::Text;
use vt_disk::Disk;
use vt_memdisk::{CrashMode, Listed, MemDisk};
use vt_partitions::{Failing, MemParts, Parts};

/// The partitions that tests run on.
pub(crate) type InMemory = MemParts<MemDisk<Listed>, Failing<Global>>;

/// Partitions in memory, which the runs over them leave to each other.
#[derive(Drop)]
pub struct Partitions {
    parts: InMemory,
}

/// A structure on a partition that changes whole: two frames, and a selector behind them, whose first byte says by its
/// lowest bit which of them is current.
#[derive(Clone, Copy)]
pub struct Twin {
    /// The partition's name.
    pub name: &'static str,
    /// Where the first frame begins.
    pub start: u64,
    /// How many bytes a frame has.
    pub frame: u64,
}

/// None.
fn none(alloc: Global) -> InMemory {
    MemParts::new(alloc, Failing::new(Vec::new(alloc)))
}

impl Partitions {
    /// None yet. Of each disk that is made for them no call fails.
    pub fn new(alloc: Global) -> Self {
        Partitions { parts: none(alloc) }
    }

    /// None yet. Of each disk that is made for them so many calls fail, from this one on: reads,
    /// writes and syncs are numbered together, from 0.
    pub fn failing(alloc: Global, first: u64, span: u64) -> Result<Self, AllocError> {
        let mut calls = Vec::new(alloc);
        for behind in 0..span {
            calls.push(first.saturating_add(behind))?;
        }
        let parts = MemParts::new(alloc, Failing::new(calls));
        Ok(Partitions { parts })
    }

    /// They go to a run.
    pub(crate) fn take(&mut self, alloc: Global) -> InMemory {
        mem::replace(&mut self.parts, none(alloc))
    }

    /// A run gives them back.
    pub(crate) fn put_back(&mut self, parts: InMemory) {
        self.parts = parts;
    }

    /// The partition of this name is taken from those, of which each call goes on as it does there.
    /// Says whether it was there.
    pub fn take_from(
        &mut self,
        alloc: Global,
        others: &mut Partitions,
        name: &str,
    ) -> Result<bool, AllocError> {
        let name = Text::copy_of(alloc, name.as_bytes())?;
        let Ok(disk) = others.parts.part(alloc, &name, None) else {
            return Ok(false);
        };
        let parts = self.take(alloc).with(name, disk)?;
        self.parts = parts;
        Ok(true)
    }

    /// A partition of this name and this length is made, and is handed out from now on. Says whether
    /// it is.
    pub fn lend(&mut self, alloc: Global, name: &str, len: u64) -> Result<bool, AllocError> {
        let name = Text::copy_of(alloc, name.as_bytes())?;
        Ok(self.parts.part(alloc, &name, Some(len)).is_ok())
    }

    /// The bytes of the partition of this name are these from this place on. Says whether it has
    /// such places.
    pub fn spoil(
        &mut self,
        alloc: Global,
        name: &str,
        at: u64,
        bytes: &[u8],
    ) -> Result<bool, AllocError> {
        let name = Text::copy_of(alloc, name.as_bytes())?;
        let Ok(mut disk) = self.parts.part(alloc, &name, None) else {
            return Ok(false);
        };
        let spoilt = spoil_disk(&mut disk, at, bytes);
        self.parts.done(&name, disk);
        Ok(spoilt)
    }

    /// From this place of its current frame on these are the bytes of this structure. Says whether it has such places.
    pub fn spoil_current(
        &mut self,
        alloc: Global,
        twin: &Twin,
        at: u64,
        bytes: &[u8],
    ) -> Result<bool, AllocError> {
        let name = Text::copy_of(alloc, twin.name.as_bytes())?;
        let Ok(mut disk) = self.parts.part(alloc, &name, None) else {
            return Ok(false);
        };
        let spoilt = match current_frame(&mut disk, twin) {
            Some(start) => spoil_disk(&mut disk, start.saturating_add(at), bytes),
            None => false,
        };
        self.parts.done(&name, disk);
        Ok(spoilt)
    }

    /// The partition of this name has only its first so many bytes. Says whether it had more.
    pub fn cut(&mut self, alloc: Global, name: &str, len: u64) -> Result<bool, AllocError> {
        let name = Text::copy_of(alloc, name.as_bytes())?;
        let Ok(mut disk) = self.parts.part(alloc, &name, None) else {
            return Ok(false);
        };
        let front = front_of(alloc, &mut disk, len)?;
        let mut short = MemDisk::failing(alloc, len, Vec::new(alloc))?;
        let is_cut = len < disk.len() && spoil_disk(&mut short, 0, &front);
        self.parts.done(&name, short);
        Ok(is_cut)
    }

    /// The partition of this name is as a crash leaves it. Says whether there is one.
    pub fn crash(
        &mut self,
        alloc: Global,
        name: &str,
        mode: CrashMode,
    ) -> Result<bool, AllocError> {
        let name = Text::copy_of(alloc, name.as_bytes())?;
        let Ok(disk) = self.parts.part(alloc, &name, None) else {
            return Ok(false);
        };
        self.parts.done(&name, disk.crash_in(mode));
        Ok(true)
    }
}

/// The bytes of a disk are these from this place on, if it has such places.
fn spoil_disk<D: Disk>(disk: &mut D, at: u64, bytes: &[u8]) -> bool {
    if disk.len() < at || disk.len() - at < bytes.len() as u64 {
        return false;
    }
    disk.write_at(at, bytes).is_ok()
}

/// Where the current frame of a structure begins, if the disk has its selector.
fn current_frame<D: Disk>(disk: &mut D, twin: &Twin) -> Option<u64> {
    let second = twin.start.checked_add(twin.frame)?;
    let mut selector = [0u8];
    if !read_disk(disk, second.checked_add(twin.frame)?, &mut selector) {
        return None;
    }
    if selector[0] % 2 == 0 {
        Some(twin.start)
    } else {
        Some(second)
    }
}

/// Reads the bytes of a disk from this place on, if it has such places.
fn read_disk<D: Disk>(disk: &mut D, at: u64, bytes: &mut [u8]) -> bool {
    if disk.len() < at || disk.len() - at < bytes.len() as u64 {
        return false;
    }
    disk.read_at(at, bytes).is_ok()
}

/// The first so many bytes of a disk, or all of them.
fn front_of<D: Disk>(alloc: Global, disk: &mut D, len: u64) -> Result<Vec<u8>, AllocError> {
    let mut bytes = vec![in alloc; 0; disk.len().min(len) as usize]?;
    if disk.read_at(0, &mut bytes).is_err() {
        bytes.clear();
    }
    Ok(bytes)
}
