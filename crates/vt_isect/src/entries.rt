//! The entries that a writeback takes in, in the order in which their buckets are written.

ghost use Rattle.std.specs.Prelude.{◌≡◌, vec_capacity};
ghost use Rattle.vt_isect.specs.Entries.{listed_entries, turn};

use crate::place::bucket_number;
use std::marker::Model;
use vt_base::Entry;

/// Entries in memory, which are handed to a writeback and handed back after it.
#[derive(Drop)]
pub struct Entries {
    items: Vec<Entry>,
}

impl Model for Entries {
    ghost use Rattle.std.specs.Prelude.{vec_capacity};
    ghost use Rattle.vt_isect.specs.Entries.{EntriesState};

    ghost Value = { EntriesState };

    ghost view = { λ e. record { items = e.items.items; room = vec_capacity e.items } };
}

impl Entries {
    ghost use Rattle.vt_isect.specs.Entries.{Orders};

    /// These entries, with the memory that they are in.
    pub fn from_vec(items: Vec<Entry>) -> Self
        ensures items { result.items ≡ items.items }
        ensures room { result.room ≡ vec_capacity items }
    {
        Entries { items }
    }

    /// The entries, given back with their memory.
    pub fn into_vec(self) -> Vec<Entry>
        ensures items { result.items ≡ self.items }
        ensures room { vec_capacity result ≡ self.room }
    {
        self.items
    }

    /// Puts them into the order of their buckets, of so many, in the memory that they are in: first
    /// those behind this one, and then the others.
    pub(crate) fn order(&mut self, total: u32, behind: Option<u32>)
        ensures { Orders total behind self.old self.new }
    {
        self.items.sort_unstable_by_key(|entry| turn(
            behind,
            bucket_number(total, &entry.key.score),
        ));
    }

    /// The entries: in the order in which they were given, or behind a writeback in that of their
    /// buckets.
    pub fn as_slice(&self) -> &[Entry]
        ensures { result.now ≡ self.now.items }
    {
        &self.items
    }
}

/// When a bucket has its turn in a writeback that begins behind this one.
fn turn(behind: Option<u32>, bucket: u32) -> u64
    ensures { result ≡ turn behind bucket }
{
    match behind {
        // (behind every number of a bucket, which has 32 bits)
        Some(last) if bucket <= last => u64::from(bucket) + (1 << 32),
        _ => u64::from(bucket),
    }
}

/// The entries, or none where there is no list.
pub fn items(entries: &Option<Entries>) -> &[Entry]
    ensures { result.now ≡ listed_entries entries.now }
{
    match entries {
        Some(list) => list.as_slice(),
        None => &[],
    }
}
