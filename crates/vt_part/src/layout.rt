//! The arenas of several partitions.

ghost use Rattle.std.specs.Prelude.{◌≡◌};

use std::marker::Model;
use vt_disk::Region;

/// Where an arena stands: in which partition, and where on its disk.
#[derive(Clone, Copy, Debug, PartialEq, Eq)]
pub struct ArenaRegion {
    /// The partition's number in the list of partitions, from 0.
    pub part: u32,
    /// The arena's number in its partition, from 0.
    pub number: u32,
    /// Where it stands on the partition's disk.
    pub region: Region,
}

/// The regions of all arenas, in the order of the partitions and of the arenas in each.
#[derive(Drop)]
pub struct Layout {
    arenas: Vec<ArenaRegion>,
}

impl Model for Layout {
    ghost use Rattle.std.specs.Prelude.{List};
    ghost use Rattle.vt_part.specs.declared.layout.ArenaRegion.{ArenaRegion};

    ghost Value = { List ArenaRegion };

    ghost view = { λ layout. layout.arenas.items };
}

impl Layout {
    /// These regions, with the memory that they are in.
    pub fn from_vec(arenas: Vec<ArenaRegion>) -> Self
        ensures { result ≡ arenas.items }
    {
        Layout { arenas }
    }

    /// The regions, given back with their memory.
    pub fn into_vec(self) -> Vec<ArenaRegion>
        ensures { result.items ≡ self }
    {
        self.arenas
    }

    /// Lends the regions of the arenas, in their order on the disk.
    pub fn as_slice(&self) -> &[ArenaRegion]
        ensures { result.now ≡ self.now }
    {
        &self.arenas
    }
}
