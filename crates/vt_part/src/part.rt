//! A partition of arenas.

ghost use Rattle.std.specs.Prelude.{◌≡◌, ◌<◌};
ghost use Rattle.vt_part.specs.Layout.{arena_region};
ghost use Rattle.vt_part.specs.Parts.{disk_of, table_of};
ghost use Rattle.vt_part.specs.Table.{IsTable};

use crate::head::Head;
use vt_disk::{BLOCK_LEN, Region};

/// A disk that is a partition of arenas, as its block 0 was when it was mounted.
#[derive(Drop)]
pub struct Part<D> {
    pub disk: D,
    pub(crate) head: Head,
}

impl<D> Part<D> {
    /// The partition's name.
    pub fn name(&self) -> &[u8]
        ensures { result.now ≡ (table_of self.now).name }
    {
        &self.head.field[..self.head.name_len]
    }

    /// How many bytes each arena has.
    pub fn arena_size(&self) -> u64
        ensures { result ≡ (table_of self.now).arena_size }
    {
        self.head.arena_size
    }

    /// How many arenas it has.
    pub fn count(&self) -> u32
        ensures count { result ≡ (table_of self.now).count }
        ensures table { IsTable (table_of self.now) }
    {
        self.head.count
    }

    /// The region of an arena on the disk. Arenas are counted from 0.
    pub fn region(&self, number: u32) -> Region
        requires { number < (table_of self.now).count }
        ensures region { result ≡ arena_region (table_of self.now) number }
        ensures table { IsTable (table_of self.now) }
    {
        Region {
            start: BLOCK_LEN as u64 + u64::from(number) * self.head.arena_size,
            len: self.head.arena_size,
        }
    }

    /// Gives the disk back. It makes no device call.
    pub fn into_devices(self) -> D
        ensures { result ≡ disk_of self }
    {
        let Part { disk, head: _ } = self;
        disk
    }
}
