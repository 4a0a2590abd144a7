//! Writing buckets whole, while a section is built: cleared, or filled with entries. One sync
//! serves many of them.

ghost use Rattle.std.specs.Prelude.{◌≡◌, ◌≢◌, ◌+◌, ◌-◌, ◌*◌, ◌^◌, ◌<◌, ◌≤◌, min, ℕ, List, [], length, IsTrue, IfErr, OnOk, OnErr, None, Some};
ghost use Rattle.std.specs.List.{Contains};
ghost use Rattle.vt_base.specs.Faults.{HasCause, CountsFault};
ghost use Rattle.vt_base.specs.declared.place.Entry.{Entry};
ghost use Rattle.vt_bucket.specs.Buckets.{number_of_bucket, bucket_entries};
ghost use Rattle.vt_bucket.specs.Frame.{IsBucketFrame, bucket_frame};
ghost use Rattle.vt_disk.specs.Calls.{WritesAt, WritesWithin, MadeCalls, IsSynced};
ghost use Rattle.vt_disk.specs.declared.region.Region.{Region};
ghost use Rattle.vt_model.specs.History.{History};
ghost use Rattle.vt_model.specs.Places.{Setup, bucket_of, bucket_count};
ghost use Rattle.vt_twin.specs.Formatting.{EndsFormat};
ghost use Rattle.vt_twin.specs.Frames.{FitsTwin, current_frame, frame_of, selector_of, selector_bytes};
ghost use Rattle.vt_isect.specs.Agreement.{KnownAgrees, IsEntryOfBlock};
ghost use Rattle.vt_isect.specs.Faults.{is_section_fault};
ghost use Rattle.vt_isect.specs.Filling.{AreCleared, FillsBucket, InBuckets, IsAmong, ReadsKnown, StopsClearing, with_buckets};
ghost use Rattle.vt_isect.specs.Layout.{IsBucketPlace, InRange};

use crate::error::ShardErr;
use crate::place::bucket_place;
use crate::section::Section;
use crate::{BUCKET_PLACE_LEN, FRAME_LEN};
use vt_base::Failed;
use vt_bucket::Bucket;
use vt_disk::{Disk, Region, SECTOR_LEN};

impl<D: Disk> Section<D> {
    ghost use Rattle.vt_isect.specs.Section.{IsAtRest};
    ghost use Rattle.vt_isect.specs.Sound.{KnownBuckets, DiskHolds, with_bucket};

    /// Formats so many buckets without entries, from this one on, by its number over all sections:
    /// of each, frame 0 and a selector that names it. One sync stands behind the last. Nothing is
    /// written behind a call that fails, and it can be made again.
    pub fn clear(&mut self, first: u32, count: u32) -> Result<(), ShardErr>
        requires rest { IsAtRest self.old }
        requires in_range { (self.old.head.first ≤ first)
            × (first + count ≤ self.old.head.first + self.old.buckets) }
        requires numbers { first + count ≤ 2 ^ 32 }

        // From then on each crash leaves them without entries.
        ensures empty { OnOk result (IsTrue D.tells
            → (c : List ℕ) (n : ℕ) (region : Region) → D.images self.new.disk c
            → IsAmong first count n → IsBucketPlace (n - self.old.head.first) region
            → IsBucketFrame n [] (current_frame region FRAME_LEN c)) }
        ensures settled { OnOk result (IsSynced D.Disk self.new.disk) }
        ensures cleared { (known : KnownBuckets) → OnOk result (IsTrue D.tells
            → DiskHolds D.Disk self.old known
            → DiskHolds D.Disk self.new (with_buckets first count (Some []) known)) }

        ensures read { (known : KnownBuckets)
            → OnOk result (IsTrue D.tells → ReadsKnown D.Disk self.old known
            → ReadsKnown D.Disk self.new (with_buckets first count (Some []) known)) }

        // What it writes and, where a call fails, up to which bucket it has come.
        ensures written { OnOk result (IsTrue D.tells
            → AreCleared D.Disk first count self.old self.new) }
        ensures stops { OnErr result (StopsClearing D.Disk first count self.old self.new) }

        // Whatever the answer, the others and the head stay.
        ensures others { (known : KnownBuckets) → IsTrue D.tells → DiskHolds D.Disk self.old known
            → DiskHolds D.Disk self.new (with_buckets first count None known) }

        // While the mark doesn't count, what is known goes on to agree with a history.
        ensures agrees { (score : List ℕ → List ℕ) (c : Setup) (h : History) (known : KnownBuckets)
            → KnownAgrees score c h self.old known
            → self.old.head.state ≢ 1 → self.old.next ≡ self.old.head
            → KnownAgrees score c h self.new (with_buckets first count (Some []) known) }

        ensures same { self.new ≡ record self.old { disk = self.new.disk } }
        ensures writes { WritesAt D.Disk (InBuckets (first - self.old.head.first) count)
            (2 * count + 1) self.old.disk self.new.disk }
        ensures calls { OnOk result
            (MadeCalls D.Disk (2 * count + 1) self.old.disk self.new.disk) }
        ensures refused { IfErr result (λ bad. bad ≡ ShardErr.Fault) }
        ensures faults { CountsFault is_section_fault result
            (D.faults self.old.disk) (D.faults self.new.disk) }
    {
        self.write_cleared(first, count)?;
        self.disk.sync()?;
        Ok(())
    }

    /// Writes so many buckets without entries, from this one on.
    fn write_cleared(&mut self, first: u32, count: u32) -> Result<(), ShardErr>
        requires rest { IsAtRest self.old }
        requires in_range { (self.old.head.first ≤ first)
            × (first + count ≤ self.old.head.first + self.old.buckets) }
        requires numbers { first + count ≤ 2 ^ 32 }
        ensures read { (known : KnownBuckets)
            → OnOk result (IsTrue D.tells → ReadsKnown D.Disk self.old known
            → ReadsKnown D.Disk self.new (with_buckets first count (Some []) known)) }
        ensures written { OnOk result (IsTrue D.tells
            → AreCleared D.Disk first count self.old self.new) }
        ensures stops { OnErr result (StopsClearing D.Disk first count self.old self.new) }
        ensures others { (known : KnownBuckets) → IsTrue D.tells → DiskHolds D.Disk self.old known
            → DiskHolds D.Disk self.new (with_buckets first count None known) }
        ensures same { self.new ≡ record self.old { disk = self.new.disk } }
        ensures writes { WritesAt D.Disk (InBuckets (first - self.old.head.first) count)
            (2 * count) self.old.disk self.new.disk }
        ensures calls { OnOk result (IsTrue D.tells → min (D.calls self.new.disk + 1) (2 ^ 64 - 1)
            ≡ min (D.calls self.old.disk + 2 * count + 1) (2 ^ 64 - 1)) }
        ensures refused { IfErr result (λ bad. bad ≡ ShardErr.Fault) }
        ensures faults { CountsFault is_section_fault result
            (D.faults self.old.disk) (D.faults self.new.disk) }
    {
        for i in 0..count {
            self.fill(&Bucket::new(first + i))?;
        }
        Ok(())
    }

    /// Writes a bucket with its entries, by its number over all sections: frame 0 and a selector
    /// that names it. Nothing is written behind a call that fails, and it can be made again.
    ///
    /// It makes no sync. The next one settles all buckets that were filled before it, and a change
    /// of the head makes one before it writes its selector.
    pub fn fill(&mut self, bucket: &Bucket) -> Result<(), ShardErr>
        requires rest { IsAtRest self.old }
        requires in_range { InRange self.old.head self.old.buckets (number_of_bucket bucket.now) }

        // From then on a read gives the entries.
        ensures read { (known : KnownBuckets)
            → OnOk result (IsTrue D.tells → ReadsKnown D.Disk self.old known
            → ReadsKnown D.Disk self.new
            (with_bucket (number_of_bucket bucket.now) (Some (bucket_entries bucket.now)) known)) }

        // What it writes and, where a call fails, which of the two.
        ensures written { OnOk result (IsTrue D.tells → (region : Region)
            → IsBucketPlace (number_of_bucket bucket.now - self.old.head.first) region
            → FillsBucket (number_of_bucket bucket.now) (bucket_entries bucket.now) region
            (D.bytes self.old.disk) (D.bytes self.new.disk)) }
        ensures stops { OnErr result ((region : Region)
            → IsBucketPlace (number_of_bucket bucket.now - self.old.head.first) region
            → (made : ℕ) × (made < 2) × EndsFormat D.Disk region
            (bucket_frame (number_of_bucket bucket.now) (bucket_entries bucket.now)) made
            self.old.disk self.new.disk) }

        // Whatever the answer, the others and the head stay.
        ensures others { (known : KnownBuckets) → IsTrue D.tells → DiskHolds D.Disk self.old known
            → DiskHolds D.Disk self.new (with_bucket (number_of_bucket bucket.now) None known) }

        // While the mark doesn't count, what is known goes on to agree with a history where each of
        // the entries is that of a block of this bucket.
        ensures agrees { (score : List ℕ → List ℕ) (c : Setup) (h : History) (known : KnownBuckets)
            → KnownAgrees score c h self.old known
            → self.old.head.state ≢ 1 → self.old.next ≡ self.old.head
            → ((entry : Entry) → Contains (bucket_entries bucket.now) entry
            → IsEntryOfBlock score c h entry
            × (bucket_of (bucket_count c) entry.key.score.0 ≡ number_of_bucket bucket.now))
            → KnownAgrees score c h self.new
            (with_bucket (number_of_bucket bucket.now) (Some (bucket_entries bucket.now)) known) }

        ensures same { self.new ≡ record self.old { disk = self.new.disk } }
        ensures writes { WritesAt D.Disk
            (InBuckets (number_of_bucket bucket.now - self.old.head.first) 1) 2
            self.old.disk self.new.disk }
        ensures calls { OnOk result (MadeCalls D.Disk 2 self.old.disk self.new.disk) }
        ensures refused { IfErr result (λ bad. bad ≡ ShardErr.Fault) }
        ensures faults { CountsFault is_section_fault result
            (D.faults self.old.disk) (D.faults self.new.disk) }
    {
        let index = bucket.number() - self.head.first;
        let place = bucket_place(index);
        let mut frame = [0; FRAME_LEN];
        bucket.encode(&mut frame);
        self.frames.forget(index);
        write_bucket(&mut self.disk, place, &frame)?;
        self.frames.put(index, 0);
        Ok(())
    }
}

/// Writes frame 0 of a bucket, and the whole selector, so that it names it.
fn write_bucket<D: Disk>(disk: &mut D, place: Region, frame: &[u8]) -> Result<(), Failed>
    requires whole { length frame.now ≡ FRAME_LEN }
    requires room { FitsTwin place FRAME_LEN (D.size disk.old) }
    requires len { place.len ≡ BUCKET_PLACE_LEN }
    ensures frame { OnOk result (IsTrue D.tells
        → frame_of place FRAME_LEN 0 (D.bytes disk.new) ≡ frame.now) }
    ensures selector { OnOk result (IsTrue D.tells
        → selector_of place FRAME_LEN (D.bytes disk.new) ≡ selector_bytes 0 SECTOR_LEN) }
    ensures idle { OnOk result (IsTrue D.tells
        → frame_of place FRAME_LEN 1 (D.bytes disk.new)
        ≡ frame_of place FRAME_LEN 1 (D.bytes disk.old)) }
    ensures current { OnOk result (IsTrue D.tells
        → current_frame place FRAME_LEN (D.bytes disk.new) ≡ frame.now) }
    ensures stops { OnErr result ((made : ℕ) × (made < 2)
        × EndsFormat D.Disk place frame.now made disk.old disk.new) }
    ensures writes { WritesWithin D.Disk place 2 disk.old disk.new }
    ensures calls { OnOk result (MadeCalls D.Disk 2 disk.old disk.new) }
    ensures cause { HasCause result (D.faults disk.old) (D.faults disk.new) }
{
    place.write_at(disk, 0, frame)?;
    // (a selector of zeros, behind both frames, names frame 0)
    place.write_at(disk, 2 * FRAME_LEN as u64, &[0; SECTOR_LEN])
}
