//! Buckets out of frames, and putting the entries of a writeback into one.

ghost use Rattle.std.specs.Prelude.{◌≡◌, ◌≢◌, ◌⊎◌, ◌↔◌, ℕ, ◌+◌, ◌%◌, ◌<◌, ◌≤◌, List, length, IsTrue, IsOkAnd, IfOk, IfErr, OnOk, IfSome, MatchOption, Some, Err};
ghost use Rattle.std.specs.List.{Contains};
ghost use Rattle.vt_base.specs.declared.place.Entry.{Entry};
ghost use Rattle.vt_bucket.specs.Buckets.{number_of_bucket, bucket_entries};
ghost use Rattle.vt_bucket.specs.Frame.{IsBucketFrame};
ghost use Rattle.vt_bucket.specs.Faults.{FaultIs};
ghost use Rattle.vt_base.specs.Faults.{CountsFault};
ghost use Rattle.vt_disk.specs.Calls.{OnlyReads, MadeCalls};
ghost use Rattle.vt_twin.specs.Frames.{FitsTwin, frame_of};
ghost use Rattle.vt_isect.specs.Faults.{damage_of_bucket, is_section_fault};
ghost use Rattle.vt_isect.specs.Merging.{Merges, HasKey, HasKeys, IsAbsentEntry, Joined, IsMerged, IsFaultyFrame, IsDamage};

use crate::FRAME_LEN;
use crate::error::ShardErr;
use vt_base::{Entry, FieldValue, Key};
use vt_bucket::{Bucket, BucketBad, Full, decode};
use vt_disk::{Disk, Region};
use vt_model::BUCKET_ROOM;

/// The bucket of this number, over all sections, as a frame spells it; or the frame's first fault,
/// told as the section's damage.
pub fn decode_bucket(frame: &[u8], number: u32) -> Result<Bucket, ShardErr>
    requires { length frame.now ≡ FRAME_LEN }
    ensures number { IfOk result (λ bucket. number_of_bucket bucket ≡ number) }
    ensures found { IfOk result (λ bucket. IsBucketFrame number (bucket_entries bucket) frame.now) }
    ensures all_are_read { (entries : List Entry) → IsBucketFrame number entries frame.now
        → IsOkAnd result (λ bucket. bucket_entries bucket ≡ entries) }
    ensures refused { IfErr result (IsFaultyFrame number frame.now) }
{
    match decode(frame, number) {
        Ok(bucket) => Ok(bucket),
        Err(bad) => Err(damage(number, bad)),
    }
}

/// What a fault of a bucket's frame is told as.
fn damage(bucket: u32, bad: BucketBad) -> ShardErr
    ensures { result ≡ damage_of_bucket bucket bad }
{
    let (want, found) = match bad {
        BucketBad::Magic(found) => (FieldValue::Magic(*b"VBKT"), FieldValue::Magic(found)),
        BucketBad::Number(found) => (number_value(bucket), number_value(found)),
        BucketBad::Count(found) => (
            number_value(BUCKET_ROOM as u32),
            number_value(u32::from(found)),
        ),
        BucketBad::Order { entry, count } => (
            number_value(u32::from(count)),
            number_value(u32::from(entry)),
        ),
    };
    ShardErr::Damaged {
        bucket,
        want,
        found,
    }
}

/// A number, as damage tells it.
fn number_value(value: u32) -> FieldValue
    ensures { result ≡ FieldValue.Number value }
{
    FieldValue::Number(u128::from(value))
}

/// Reads the current frame of a bucket, which a selector with this first byte names, and makes of
/// it one with a group of entries, too, which belong to it.
pub fn read_merged<D: Disk>(
    disk: &mut D,
    place: Region,
    selector: u8,
    number: u32,
    group: &[Entry],
    frame: &mut [u8],
) -> Result<(), ShardErr>
    requires whole { length frame.old ≡ FRAME_LEN }
    requires room { FitsTwin place FRAME_LEN (D.size disk.old) }
    ensures merged { OnOk result ((read : List ℕ) × IsMerged number group.now read frame.new
        × (IsTrue D.tells → read ≡ frame_of place FRAME_LEN (selector % 2) (D.bytes disk.old))) }
    ensures damaged { IfErr result (λ bad. bad ≢ ShardErr.Fault → (read : List ℕ)
        × IsDamage number group.now read bad
        × (IsTrue D.tells → read ≡ frame_of place FRAME_LEN (selector % 2) (D.bytes disk.old))) }
    ensures reads { OnlyReads D.Disk 1 disk.old disk.new }
    ensures calls { MadeCalls D.Disk 1 disk.old disk.new }
    ensures faults { CountsFault is_section_fault result (D.faults disk.old) (D.faults disk.new) }
    ensures stopped { (n : ℕ) → ¬ (result ≡ Err (ShardErr.Stopped n)) }
{
    // (an even selector names the first frame, an odd one the second)
    place.read_at(disk, FRAME_LEN as u64 * u64::from(selector % 2), frame)?;
    merge_frame(frame, number, group)
}

/// Makes of a bucket's frame one with a group of entries, too.
fn merge_frame(frame: &mut [u8], number: u32, group: &[Entry]) -> Result<(), ShardErr>
    requires { length frame.old ≡ FRAME_LEN }
    ensures merged { OnOk result (IsMerged number group.now frame.old frame.new) }
    ensures damaged { IfErr result (IsDamage number group.now frame.old) }
{
    let mut bucket = decode_bucket(frame, number)?;
    match merge(&mut bucket, group) {
        Ok(()) => {
            bucket.encode(frame);
            Ok(())
        }
        Err(found) => Err(ShardErr::Damaged {
            bucket: number,
            want: FieldValue::Number(BUCKET_ROOM as u128),
            found: FieldValue::Number(found),
        }),
    }
}

/// Puts a group of entries into their bucket. Where it has no room for them, gives the count that
/// it would have.
fn merge(bucket: &mut Bucket, group: &[Entry]) -> Result<(), u128>
    ensures merged { OnOk result
        (Merges (bucket_entries bucket.old) (Contains group.now) (bucket_entries bucket.new)) }
    ensures number { number_of_bucket bucket.new ≡ number_of_bucket bucket.old }
    ensures full { IfErr result (λ found. (BUCKET_ROOM < found)
        × HasKeys (Joined (bucket_entries bucket.old) (Contains group.now)) found) }
{
    for i in 0..group.len() {
        if let Err(Full) = bucket.with(group[i]) {
            return Err(BUCKET_ROOM as u128 + count_absent(bucket, &group[i..]));
        }
    }
    Ok(())
}

/// How many keys these entries have, and a bucket lacks.
fn count_absent(bucket: &Bucket, entries: &[Entry]) -> u128
    ensures keys { HasKeys (IsAbsentEntry (bucket_entries bucket.now) (Contains entries.now))
        result }
    ensures most { result ≤ length entries.now }
{
    let mut absent = 0;
    for i in 0..entries.len() {
        if is_absent(bucket, &entries[i].key) && !has_key(&entries[..i], &entries[i].key) {
            absent += 1;
        }
    }
    absent
}

/// Whether a bucket lacks this key.
fn is_absent(bucket: &Bucket, key: &Key) -> bool
    ensures { IsTrue result ↔ ¬ HasKey (Contains (bucket_entries bucket.now)) key.now }
{
    bucket.find(key).is_none()
}

/// Whether one of the entries has this key.
fn has_key(entries: &[Entry], key: &Key) -> bool
    ensures { IsTrue result ↔ HasKey (Contains entries.now) key.now }
{
    for entry in entries {
        if entry.key == *key {
            return true;
        }
    }
    false
}
