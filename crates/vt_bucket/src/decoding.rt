//! From the bytes of a frame to its entries.

ghost use Rattle.std.specs.Prelude.{◌≡◌, ◌↔◌, ℕ, List, ◌+◌, ◌-◌, ◌<◌, ◌≤◌, ◌++◌, length, take, drop, slice_index, slice_index_or, IsTrue, IsOkAnd, IfOk, IfErr, IfSome, IfNone, OnOk};
ghost use Rattle.vt_base.specs.Kind.{IsKind};
ghost use Rattle.vt_base.specs.declared.place.Entry.{Entry};
ghost use Rattle.vt_bucket.specs.Buckets.{number_of_bucket, bucket_entries};
ghost use Rattle.vt_bucket.specs.Faults.{FaultIs, HasFirstEntries, HasMagic, number_in, count_in};
ghost use Rattle.vt_bucket.specs.Frame.{cell, IsIndexEntry, IsBucketFrame, BeginsWithEntries};
ghost use Rattle.vt_bucket.specs.Order.{IsBelow};

use crate::holding::blank_table;
use crate::{Bucket, CELL_LEN, FIELDS_LEN, FRAME_LEN};
use vt_base::fields::{u16_at, u32_at};
use vt_base::{Entry, Key, Kind, Place, Score};
use vt_model::BUCKET_ROOM;

/// Why bytes aren't a bucket's frame: the first of these tests that fails, and what was found.
#[derive(Clone, Copy, Debug, PartialEq, Eq)]
pub enum BucketBad {
    /// The first four bytes aren't `VBKT`.
    Magic([u8; 4]),
    /// The number of another bucket.
    Number(u32),
    /// A count above 263.
    Count(u16),
    /// The first entry that has no block type or isn't above the one before it, counted from 0,
    /// and the count.
    Order { entry: u16, count: u16 },
}

/// The bucket of this number, from a frame of 8,192 bytes. The whole frame is tested before an
/// entry is used. It is refused by the first test that fails.
pub fn decode(frame: &[u8], number: u32) -> Result<Bucket, BucketBad>
    requires { length frame.now ≡ FRAME_LEN }
    ensures number { IfOk result (λ bucket. number_of_bucket bucket ≡ number) }
    ensures found { IfOk result (λ bucket. IsBucketFrame number (bucket_entries bucket) frame.now) }
    ensures all_are_read { (entries : List Entry) → IsBucketFrame number entries frame.now
        → IsOkAnd result (λ bucket. bucket_entries bucket ≡ entries) }
    ensures refused { IfErr result (λ bad. FaultIs bad number frame.now) }
{
    let count = decode_head(frame, number)?;
    let mut table = blank_table();
    match decode_entries(frame, count, &mut table) {
        Ok(()) => Ok(Bucket {
            number,
            len: count as usize,
            table,
        }),
        Err(entry) => Err(BucketBad::Order { entry, count }),
    }
}

/// Tests the head of a frame, and gives the count of entries. It is refused by the first test that
/// fails.
fn decode_head(frame: &[u8], number: u32) -> Result<u16, BucketBad>
    requires { length frame.now ≡ FRAME_LEN }
    ensures magic { OnOk result (HasMagic frame.now) }
    ensures number { OnOk result (number_in frame.now ≡ number) }
    ensures count { IfOk result (λ count. (count ≡ count_in frame.now) × (count ≤ BUCKET_ROOM)) }
    ensures refused { IfErr result (λ bad. FaultIs bad number frame.now) }
{
    // (the places of the fields: docs/FORMATS.md, Buckets of the index)
    let magic = [frame[0], frame[1], frame[2], frame[3]];
    if magic != *b"VBKT" {
        return Err(BucketBad::Magic(magic));
    }
    let found = u32_at(frame, 4);
    if found != number {
        return Err(BucketBad::Number(found));
    }
    let count = u16_at(frame, 8);
    if count as usize > BUCKET_ROOM {
        return Err(BucketBad::Count(count));
    }
    Ok(count)
}

/// Reads the entries of a frame into a table, or gives the number of the first that can't stand
/// there.
fn decode_entries(frame: &[u8], count: u16, table: &mut [Entry]) -> Result<(), u16>
    requires whole { length frame.now ≡ FRAME_LEN }
    requires most { count ≤ BUCKET_ROOM }
    requires room { length table.old ≡ BUCKET_ROOM }
    ensures read { OnOk result
        (BeginsWithEntries (take count table.new) (drop FIELDS_LEN frame.now)) }
    ensures bad { IfErr result (λ entry. (entry < count) × HasFirstEntries entry frame.now
        × ¬ HasFirstEntries (entry + 1) frame.now) }
{
    for i in 0..count {
        let start = FIELDS_LEN + CELL_LEN * i as usize;
        let Some(entry) = decode_entry(&frame[start..start + CELL_LEN]) else {
            return Err(i);
        };
        if !is_next(&table[..i as usize], &entry) {
            return Err(i);
        }
        table[i as usize] = entry;
    }
    Ok(())
}

/// The entry of these bytes, if it has a block type.
fn decode_entry(bytes: &[u8]) -> Option<Entry>
    requires { length bytes.now ≡ CELL_LEN }
    ensures found { IfSome result (λ entry. IsIndexEntry entry × (bytes.now ≡ cell entry)) }
    ensures none { IfNone result (¬ IsKind (slice_index bytes.now 20)) }
{
    let kind = Kind::from_wire(bytes[20])?;
    let mut score = [0; 20];
    score.copy_from_slice(&bytes[..20]);
    Some(Entry {
        key: Key {
            score: Score(score),
            kind,
        },
        size: u16_at(bytes, 21),
        place: Place {
            arena: u32_at(bytes, 23),
            offset: u32_at(bytes, 27),
        },
    })
}

/// Whether this entry is above the last of these, or there is none.
fn is_next(entries: &[Entry], entry: &Entry) -> bool
    ensures { IsTrue result ↔ (0 < length entries.now
        → IsBelow (slice_index_or entries.now (length entries.now - 1) entry.now) entry.now) }
{
    match entries.last() {
        Some(last) => last.key.cmp(&entry.key).is_lt(),
        None => true,
    }
}
