//! In which order calls of partitions come.

use crate::stores::NAMES;
use std::alloc::{AllocError, Global};
use std::cell::Cell;
use vt_base::{Failed, Text};
use vt_disk::Disk;
use vt_partitions::Parts;

/// In which order the reads, writes and syncs of the partitions `NAMES` came, of all of them together.
#[derive(Drop)]
pub struct CallOrder {
    /// By the number of a call, from 0: the number of its partition.
    called: Vec<Cell<usize>>,
    /// How many came.
    made: Cell<usize>,
}

impl CallOrder {
    /// None came yet. The first so many are noted.
    pub fn new(alloc: Global, most: usize) -> Result<Self, AllocError> {
        let mut called = Vec::new(alloc);
        for _ in 0..most {
            called.push(Cell::new(0))?;
        }
        Ok(CallOrder {
            called,
            made: Cell::new(0),
        })
    }

    /// One of the partition with this number comes.
    fn note(&self, number: usize) {
        let made = self.made.get();
        if let Some(called) = self.called.get(made) {
            called.set(number);
        }
        self.made.set(made.saturating_add(1));
    }

    /// How many came.
    pub fn made(&self) -> usize {
        self.made.get()
    }

    /// How many of the first so many were of the partition with this number.
    pub fn of(&self, number: usize, first: usize) -> u64 {
        let mut count = 0u64;
        for called in self.called.iter().take(first) {
            if called.get() == number {
                count = count.saturating_add(1);
            }
        }
        count
    }
}

/// The number of the partition of this name, or one that none of `NAMES` has.
fn number_of(name: &Text) -> usize {
    for (number, known) in NAMES.iter().enumerate() {
        if known.as_bytes() == name.as_slice() {
            return number;
        }
    }
    NAMES.len()
}

/// A partition each call of which is noted. It tells nothing of what it holds.
#[derive(Drop)]
pub(crate) struct NotedDisk<'a, D> {
    disk: D,
    order: &'a CallOrder,
    /// The partition's number.
    number: usize,
}

impl<D: Disk> Disk for NotedDisk<'_, D> {
    ghost use Rattle.std.specs.Prelude.{◌≡◌, [], false, length};
    ghost use Rattle.vt_base.specs.Bytes.{AreBytes};

    ghost tells = { false };

    ghost size = { λ disk. D.size disk.disk };

    ghost bytes = { λ _. [] };

    // Anything of its length.
    ghost images = { λ disk c. (length c ≡ D.size disk.disk) × AreBytes c };

    ghost calls = { λ _. 0 };

    ghost faults = { λ disk. D.faults disk.disk };

    ghost size_fits = { λ disk. D.size_fits disk.disk };

    ghost faults_fit = { λ disk. D.faults_fit disk.disk };

    ghost read_is_image = { λ _ told. Prim.cc };

    ghost images_fit = { λ _ _ image. image };

    /// How many bytes the partition has, which is no counted call.
    fn len(&self) -> u64 {
        self.disk.len()
    }

    /// Reads there.
    fn read_at(&mut self, start: u64, buf: &mut [u8]) -> Result<(), Failed> {
        self.order.note(self.number);
        self.disk.read_at(start, buf)
    }

    /// Writes there.
    fn write_at(&mut self, start: u64, chunk: &[u8]) -> Result<(), Failed> {
        self.order.note(self.number);
        self.disk.write_at(start, chunk)
    }

    /// Syncs it.
    fn sync(&mut self) -> Result<(), Failed> {
        self.order.note(self.number);
        self.disk.sync()
    }
}

/// Partitions each call of which is noted.
#[derive(Drop)]
pub(crate) struct NotedParts<'a, P> {
    pub parts: P,
    pub order: &'a CallOrder,
}

impl<'a, P: Parts> Parts for NotedParts<'a, P> {
    ghost use Rattle.std.specs.Prelude.{false};
    ghost use Rattle.vt_partitions.specs.Parts.{nothing};

    type Disk = NotedDisk<'a, P::Disk>;

    ghost tells = { false };

    ghost standing = { λ _ _. nothing };

    ghost faults = { λ parts. P.faults parts.parts };

    ghost faults_fit = { λ parts. P.faults_fit parts.parts };

    /// The partition of this name is handed out.
    fn part(
        &mut self,
        alloc: Global,
        name: &Text,
        grow_to: Option<u64>,
    ) -> Result<NotedDisk<'a, P::Disk>, Failed> {
        let disk = self.parts.part(alloc, name, grow_to)?;
        Ok(NotedDisk {
            disk,
            order: self.order,
            number: number_of(name),
        })
    }

    /// The partition of this name is taken back.
    fn done(&mut self, name: &Text, disk: NotedDisk<'a, P::Disk>) {
        let NotedDisk {
            disk,
            order: _,
            number: _,
        } = disk;
        self.parts.done(name, disk);
    }
}
