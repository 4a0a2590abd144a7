//! What a bucket holds: finding an entry, and putting one in.

ghost use Rattle.std.specs.Prelude.{◌≡◌, ◌≢◌, ◌↔◌, ℕ, ◌+◌, ◌<◌, ◌≤◌, [], length, take, insert, slice_index_or, IfSome, IfNone, OnOk, OnErr, IfOk, IfErr, IsErr};
ghost use Rattle.std.specs.List.{All, Contains};
ghost use Rattle.std.specs.declared.cmp.Ordering.{Ordering};
ghost use Rattle.vt_base.specs.declared.place.Entry.{Entry};
ghost use Rattle.vt_bucket.specs.Buckets.{number_of_bucket, bucket_entries, PutsEntry};
ghost use Rattle.vt_bucket.specs.Order.{IsAscending};
ghost use Rattle.vt_base.specs.Key.{key_cmp};

use crate::Bucket;
use std::cmp::Ordering;
use vt_base::{Entry, Key, Kind, Place, Score};
use vt_model::BUCKET_ROOM;

/// The bucket has 263 entries already, none of this key.
#[derive(Clone, Copy, Debug, PartialEq, Eq)]
pub struct Full;

impl Bucket {
    /// A bucket without entries.
    pub fn new(number: u32) -> Self
        ensures number { number_of_bucket result ≡ number }
        ensures entries { bucket_entries result ≡ [] }
    {
        Bucket {
            number,
            len: 0,
            table: blank_table(),
        }
    }

    /// The bucket's number over all sections.
    pub fn number(&self) -> u32
        ensures { result ≡ number_of_bucket self.now }
    {
        self.number
    }

    /// The entries in the order of their keys.
    pub fn entries(&self) -> &[Entry]
        ensures entries { result.now ≡ bucket_entries self.now }
        ensures ascending { IsAscending result.now }
        ensures most { length result.now ≤ BUCKET_ROOM }
    {
        &self.table[..self.len]
    }

    /// The entry of this key, or None where the bucket has none.
    pub fn find(&self, key: &Key) -> Option<Entry>
        ensures found { IfSome result (λ entry. Contains (bucket_entries self.now) entry
            × (entry.key ≡ key.now)) }
        ensures none { IfNone result (All (λ entry. entry.key ≢ key.now) (bucket_entries self.now)) }
    {
        let entries = self.entries();
        match place(entries, key) {
            Ok(at) => Some(entries[at]),
            Err(_) => None,
        }
    }

    /// Puts an entry in, in place of one of its key. Full says that there is no room for it.
    pub fn with(&mut self, entry: Entry) -> Result<(), Full>
        ensures put { OnOk result
            (PutsEntry (bucket_entries self.old) entry (bucket_entries self.new)) }
        ensures full { IsErr result ↔ ((length (bucket_entries self.old) ≡ BUCKET_ROOM)
            × All (λ other. other.key ≢ entry.key) (bucket_entries self.old)) }
        ensures unchanged { OnErr result (bucket_entries self.new ≡ bucket_entries self.old) }
        ensures number { number_of_bucket self.new ≡ number_of_bucket self.old }
    {
        match place(self.entries(), &entry.key) {
            Ok(at) => self.table[at] = entry,
            Err(at) => {
                if self.len == BUCKET_ROOM {
                    return Err(Full);
                }
                insert_at(&mut self.table, self.len, at, entry);
                self.len += 1;
            }
        }
        Ok(())
    }
}

/// What stands in a table before entries are written there. It isn't read, so any entries would do.
pub fn blank_table() -> [Entry; BUCKET_ROOM] {
    let blank = Entry {
        key: Key {
            score: Score([0; 20]),
            kind: Kind::DATA,
        },
        size: 0,
        place: Place {
            arena: 0,
            offset: 0,
        },
    };
    [blank; BUCKET_ROOM]
}

/// Where the entry of this key is, or where it would go.
fn place(entries: &[Entry], key: &Key) -> Result<usize, usize>
    requires { IsAscending entries.now }
    ensures found { IfOk result (λ i. (i < length entries.now)
        × ((d : Entry) → (slice_index_or entries.now i d).key ≡ key.now)) }
    ensures bound { IfErr result (λ i. i ≤ length entries.now) }
    ensures below { IfErr result (λ i. (k : ℕ) (d : Entry) → k < i
        → key_cmp (slice_index_or entries.now k d).key key.now ≡ Ordering.Less) }
    ensures above { IfErr result (λ i. (k : ℕ) (d : Entry) → i ≤ k → k < length entries.now
        → key_cmp key.now (slice_index_or entries.now k d).key ≡ Ordering.Less) }
{
    entries.binary_search_by_key(key, |entry| entry.key)
}

/// Puts an entry at a place of the first `len` of a table, and moves those from there on by one.
fn insert_at(table: &mut [Entry], len: usize, at: usize, entry: Entry)
    requires place { at ≤ len }
    requires room { len < length table.old }
    ensures { take (len + 1) table.new ≡ insert (take len table.old) at entry }
{
    table[len] = entry;
    table[at..len + 1].rotate_right(1);
}
