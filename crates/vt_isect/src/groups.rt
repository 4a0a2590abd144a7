//! The entries of a writeback bucket by bucket, and the buckets that are written together.

ghost use Rattle.std.specs.Prelude.{◌≡◌, ◌≢◌, ◌<◌, ◌≤◌, ℕ, IfSome, Option, None, Some, length, slice_get};
ghost use Rattle.std.specs.List.{Contains};
ghost use Rattle.vt_base.specs.declared.place.Entry.{Entry};
ghost use Rattle.vt_model.specs.Places.{bucket_of};
ghost use Rattle.vt_isect.specs.declared.groups.Member.{Member};
ghost use Rattle.vt_isect.specs.Entries.{IsOrdered, listed_entries};
ghost use Rattle.vt_isect.specs.Section.{AreNext};

use crate::entries::{Entries, items};
use crate::place::bucket_number;
use vt_base::Entry;

/// A bucket of a group: its idle frame is written, and waits for the group's syncs and for its
/// selector.
#[derive(Clone, Copy, Debug, PartialEq, Eq)]
pub struct Member {
    /// The bucket's number over all sections.
    pub bucket: u32,
    /// The number of its current frame.
    pub current: u8,
}

/// The place behind the entries that belong to this bucket, of which the first stands here.
pub fn bucket_end(entries: &[Entry], total: u32, bucket: u32, first: usize) -> usize
    requires ordered { (behind : Option ℕ) × IsOrdered total behind entries.now }
    requires first { (entry : Entry) × (slice_get entries.now first ≡ Some entry)
        × (bucket_of total entry.key.score.0 ≡ bucket) }
    ensures some { first < result }
    ensures next { AreNext total bucket first result entries.now }
{
    for i in first + 1..entries.len() {
        if bucket_number(total, &entries[i].key.score) != bucket {
            return i;
        }
    }
    entries.len()
}

/// The bucket of the entry that stands here, and the place behind the entries that belong to it;
/// None behind the last entry.
pub fn bucket_behind(entries: &Option<Entries>, total: u32, from: usize) -> Option<(u32, usize)>
    requires ordered { (behind : Option ℕ) × IsOrdered total behind (listed_entries entries.now) }
    ensures next { IfSome result (λ it. (from < it.1)
        × AreNext total it.0 from it.1 (listed_entries entries.now)) }
    ensures first { IfSome result (λ it. (entry : Entry)
        × Contains (listed_entries entries.now) entry
        × (bucket_of total entry.key.score.0 ≡ it.0)) }
    ensures none { result ≡ None → length (listed_entries entries.now) ≤ from }
{
    let entries = items(entries);
    let entry = entries.get(from)?;
    let bucket = bucket_number(total, &entry.key.score);
    Some((bucket, bucket_end(entries, total, bucket, from)))
}

/// The member of a group that is this bucket, if one is.
pub fn member_of(group: &[Member], bucket: u32) -> Option<Member>
    ensures some { IfSome result (λ member. Contains group.now member
        × (member.bucket ≡ bucket)) }
    ensures none { (member : Member) → result ≡ None → Contains group.now member
        → member.bucket ≢ bucket }
{
    for member in group {
        if member.bucket == bucket {
            return Some(*member);
        }
    }
    None
}
