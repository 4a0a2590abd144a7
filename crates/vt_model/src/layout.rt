//! Where a store's blocks go.

ghost use Rattle.std.specs.Prelude.{◌≡◌, ◌+◌, ◌^◌, ◌<◌, ◌≤◌, nat_le, length};
ghost use Rattle.std.specs.Option.{SomeIff};
ghost use Rattle.vt_model.specs.Places.{room_of, version_of, whole_units, clump_len_in, directory_len_in, bucket_of, bucket_count};

use crate::{ARENA_HEAD_LEN, CLUMP_HEADER_LEN, CLUMP_UNIT, DIRECTORY_ENTRY_LEN, SECTOR_VERSION};
use std::marker::Model;
use vt_base::Score;

/// What a store was opened with.
#[derive(Drop)]
pub struct Layout {
    /// How many bytes the region of each arena has.
    arenas: Vec<u32>,
    /// The version in which each arena is kept.
    versions: Vec<u16>,
    /// The first arena that wasn't sealed then, or their count.
    base: usize,
    /// How many buckets each index section has.
    sections: Vec<u32>,
}

impl Model for Layout {
    ghost use Rattle.vt_model.specs.Places.{Setup};

    ghost Value = { Setup };

    ghost view = { λ l. record {
      arenas = l.arenas.items;
      versions = l.versions.items;
      base = l.base;
      sections = l.sections.items;
    } };
}

impl Layout {
    /// Of arenas with so many bytes each and in these versions, in order, of which the first unsealed
    /// one has the number `base`, and of index sections with so many buckets each.
    pub fn new(arenas: Vec<u32>, versions: Vec<u16>, base: usize, sections: Vec<u32>) -> Self
        ensures { result ≡ record {
          arenas = arenas.items;
          versions = versions.items;
          base = base;
          sections = sections.items;
        } }
    {
        Layout {
            arenas,
            versions,
            base,
            sections,
        }
    }

    /// The first arena that was not sealed.
    pub fn base(&self) -> usize
        ensures { result ≡ self.now.base }
    {
        self.base
    }

    /// The number of the next arena; None where there is none.
    pub fn next(&self, arena: usize) -> Option<usize>
        ensures { SomeIff result (arena + 1 < length self.now.arenas) (arena + 1) }
    {
        if arena < self.arenas.len().saturating_sub(1) {
            Some(arena + 1)
        } else {
            None
        }
    }

    /// The bytes of an arena behind its head; none past the last arena.
    pub fn room_of(&self, arena: usize) -> usize
        ensures { result ≡ room_of self.now arena }
    {
        match self.arenas.get(arena) {
            Some(len) => (*len as usize).saturating_sub(ARENA_HEAD_LEN),
            None => 0,
        }
    }

    /// The version of an arena; 0 past the last arena.
    pub fn version_of(&self, arena: usize) -> u16
        ensures { result ≡ version_of self.now arena }
    {
        match self.versions.get(arena) {
            Some(version) => *version,
            None => 0,
        }
    }

    /// How many buckets all sections have. A `u128` holds the sum, and its product with 32 bits.
    pub fn bucket_count(&self) -> u128
        ensures count { result ≡ bucket_count self.now }
        ensures bound { result < 2 ^ 96 }
    {
        let mut total = 0;
        for buckets in &self.sections {
            total += *buckets as u128;
        }
        total
    }
}

/// The number of a score's bucket, of so many buckets: they divide the scores evenly, in order.
pub fn bucket_of(buckets: u128, score: &Score) -> u128
    requires { buckets < 2 ^ 96 }
    ensures bucket { result ≡ bucket_of buckets score.now.0 }
    ensures range { 0 < buckets → result < buckets }
{
    let [a, b, c, d, ..] = score.0;
    u32::from_be_bytes([a, b, c, d]) as u128 * buckets / 4_294_967_296
}

/// A length, rounded up to whole sectors.
fn whole_units(len: u128) -> u128
    requires { len < 2 ^ 100 }
    ensures units { result ≡ whole_units len }
    ensures bound { result < len + CLUMP_UNIT }
{
    let unit = CLUMP_UNIT as u128;
    (len + (unit - 1)) / unit * unit
}

/// What a block of `len` bytes takes in an arena of this version.
pub fn clump_len_in(version: u16, len: usize) -> u128
    ensures len { result ≡ clump_len_in version len }
    ensures bound { result < 2 ^ 65 }
{
    let clump = CLUMP_HEADER_LEN as u128 + len as u128;
    if version == SECTOR_VERSION {
        whole_units(clump)
    } else {
        clump
    }
}

/// What the directory of so many blocks takes there.
fn directory_len_in(version: u16, blocks: u128) -> u128
    requires { blocks ≤ 2 ^ 64 }
    ensures len { result ≡ directory_len_in version blocks }
    ensures bound { result < 2 ^ 70 }
{
    let entries = DIRECTORY_ENTRY_LEN as u128 * blocks;
    if version == SECTOR_VERSION {
        whole_units(entries)
    } else {
        entries
    }
}

/// What is left of an arena's room behind the clumps that it has, and how many these are.
#[derive(Clone, Copy)]
pub struct Left {
    pub room: u128,
    pub clumps: u128,
}

/// Whether a further block of `len` bytes fits there, and the directory with its entry.
pub fn has_room(version: u16, left: Left, len: usize) -> bool
    requires { left.clumps < 2 ^ 64 }
    ensures { result
        ≡ nat_le (clump_len_in version len + directory_len_in version (left.clumps + 1)) left.room }
{
    clump_len_in(version, len) + directory_len_in(version, left.clumps + 1) <= left.room
}
