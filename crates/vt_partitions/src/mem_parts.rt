//! Partitions in memory.

use crate::Parts;
use crate::fault_count::Faults;
use crate::lending::{MemPart, lend, take_back};
use crate::making_disks::MakesDisks;
use std::alloc::{AllocError, Global};
use vt_base::{Failed, Text};
use vt_disk::Disk;

/// Hands out partitions in memory, and keeps them from one run to the next.
#[derive(Drop)]
pub struct MemParts<D, M> {
    /// In the order in which they came; of two of one name, the first is handed out.
    parts: Vec<MemPart<D>>,
    /// What makes the disk of a partition that isn't there, or has to be longer.
    maker: M,
    /// Failed calls of `part`.
    faults: Faults,
}

impl<D: Drop, M: Drop> MemParts<D, M> {
    ghost use Rattle.std.specs.Prelude.{◌≡◌, ◌++◌, ◌∷◌, [], Some, IfOk};
    ghost use Rattle.vt_partitions.specs.NamedInMemory.{parts_held, parts_faults, parts_maker};

    /// No partitions. Those that aren't there are made by this.
    pub fn new(alloc: Global, maker: M) -> Self
        ensures held { parts_held result ≡ [] }
        ensures maker { parts_maker result ≡ maker }
        ensures faults { parts_faults result ≡ 0 }
    {
        MemParts {
            parts: Vec::new(alloc),
            maker,
            faults: Faults::new(),
        }
    }

    /// One partition more. Of two of one name, the first is handed out.
    pub fn with(self, name: Text, disk: D) -> Result<Self, AllocError>
        ensures held { IfOk result (λ parts. parts_held parts
            ≡ parts_held self ++ record { name = name; disk = Some disk } ∷ []) }
        ensures maker { IfOk result (λ parts. parts_maker parts ≡ parts_maker self) }
        ensures faults { IfOk result (λ parts. parts_faults parts ≡ parts_faults self) }
    {
        let mut parts = self;
        let disk = Some(disk);
        parts.parts.push(MemPart { name, disk })?;
        Ok(parts)
    }

    /// How many calls have failed.
    pub fn faults(&self) -> u64
        ensures { result ≡ parts_faults self.now }
    {
        self.faults.count
    }
}

impl<D: Disk + Drop, M: MakesDisks<D>> Parts for MemParts<D, M> {
    ghost use Rattle.std.specs.Prelude.{◌≡◌, ◌≢◌, ◌≤◌, ℕ, List, IsTrue, IfOk, IfSome, OnOk, OnErr};
    ghost use Rattle.vt_base.specs.Faults.{HasCause};
    ghost use Rattle.vt_partitions.specs.NamedInMemory.{standing_in, parts_held, parts_faults};
    ghost use Rattle.vt_partitions.specs.Parts.{lent, there, HandsOut, StaysThere};

    type Disk = D;

    ghost tells = { D.tells };

    ghost standing = { λ parts name. standing_in parts.parts.items name };

    ghost faults = { parts_faults };

    ghost faults_fit = { λ parts. parts.faults.fits };

    /// Hands out the partition of this name: the one that stands there, made longer if that is
    /// asked for, or a new one of the length that is asked for. It fails where there is none to
    /// hand out, memory runs out or a call fails, which counts.
    fn part(&mut self, alloc: Global, name: &Text, grow_to: Option<u64>) -> Result<D, Failed>
        ensures grown { IfOk result (λ disk. IfSome grow_to (λ least. least ≤ D.size disk)) }
        ensures found { IfOk result (λ disk. IsTrue D.tells
            → HandsOut D.Disk (standing_in (parts_held self.old) name.now) grow_to disk) }
        ensures lent { OnOk result (standing_in (parts_held self.new) name.now ≡ lent) }
        ensures stays { OnErr result (StaysThere D.Disk
            (standing_in (parts_held self.old) name.now)
            (standing_in (parts_held self.new) name.now)) }
        ensures others { (other : List ℕ) → other ≢ name.now
            → standing_in (parts_held self.new) other ≡ standing_in (parts_held self.old) other }
        ensures cause { HasCause result (parts_faults self.old) (parts_faults self.new) }
    {
        let found = lend(alloc, &self.maker, &mut self.parts, name, grow_to);
        if found.is_none() {
            self.faults.count_one();
        }
        found.ok_or(Failed)
    }

    /// Takes back the partition of this name.
    fn done(&mut self, name: &Text, disk: D)
        ensures back { standing_in (parts_held self.old) name.now ≡ lent
            → standing_in (parts_held self.new) name.now ≡ there disk }
        ensures others { (other : List ℕ) → other ≢ name.now
            → standing_in (parts_held self.new) other ≡ standing_in (parts_held self.old) other }
        ensures faults { parts_faults self.new ≡ parts_faults self.old }
    {
        take_back(&mut self.parts, name, disk);
    }
}
