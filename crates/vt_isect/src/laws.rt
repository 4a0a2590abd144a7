//! What the layers above lean on between the calls of a section, each law the contract of a function that does
//! nothing. In each, `t` is a section as contracts see it, `known` what is known of its buckets' entries, `h` a
//! history, `score` any function of a block's bytes, and `c` the setup by which scores have their buckets.

ghost use Rattle.std.specs.Prelude.{◌≡◌, ◌≢◌, ◌⊎◌, ◌<◌, ◌≤◌, ℕ, List, [], ◌++◌, length, IsTrue, None, Some};
ghost use Rattle.std.specs.List.{AllPairs, Contains};
ghost use Rattle.vt_disk.specs.Calls.{OnlyReads, IsSynced};
ghost use Rattle.vt_disk.specs.Disk.{SameBut};
ghost use Rattle.vt_disk.specs.Region.{Inside};
ghost use Rattle.vt_model.specs.History.{History};
ghost use Rattle.vt_model.specs.Legal.{HasOtherKey};
ghost use Rattle.vt_model.specs.Places.{Setup, bucket_count, bucket_of, crowd};
ghost use Rattle.vt_twin.specs.Frames.{current_frame};
ghost use Rattle.vt_isect.specs.declared.head.Head.{Head};
ghost use Rattle.vt_isect.specs.Agreement.{IsEntryOf, IsEntryOfBlock, HasBlock, IsInBucket, IsMarkCovered, NoOthers, AgreesWith, KnownAgrees, LeavesAgreeing};
ghost use Rattle.vt_isect.specs.Filling.{ReadsKnown};
ghost use Rattle.vt_isect.specs.Head.{IsHeadFrame};
ghost use Rattle.vt_isect.specs.Layout.{head_place, InRange, IsSection};
ghost use Rattle.vt_isect.specs.Section.{SectionState, IsAtRest, IsTodo, PutsEntries};
ghost use Rattle.vt_isect.specs.Sound.{KnownBuckets, KnowsEachBucket, DiskHolds, LeavesHead, LeavesSection};
ghost use Rattle.vt_base.specs.declared.place.Entry.{Entry};

use crate::FRAME_LEN;
use vt_disk::Disk;

/// Between two calls a crash leaves a section: with the head or, while that changes, the next one,
/// and with the entries that are known or, in a bucket of the group, these with its new ones. In
/// state 1 it agrees with each history with which what is known does. Whatever is known, its head
/// is one of the two, and the next one only behind a sync.
pub fn images_agree<D: Disk>()
    ensures crash { (t : SectionState D) (known : KnownBuckets)
        → DiskHolds D.Disk t known
        → KnowsEachBucket t known → t.next.first ≡ t.head.first
        → (file : List ℕ) → D.images t.disk file → LeavesSection t known file }
    ensures agrees { (score : List ℕ → List ℕ) (c : Setup) (h : History)
        (t : SectionState D) (known : KnownBuckets)
        → DiskHolds D.Disk t known
        → KnownAgrees score c h t known → (file : List ℕ) → D.images t.disk file
        → LeavesAgreeing score c h t known file }
    ensures head { (t : SectionState D) (known : KnownBuckets)
        → DiskHolds D.Disk t known
        → (file : List ℕ) → D.images t.disk file → (head : Head)
        × LeavesHead t head
        × IsHeadFrame t.name head (current_frame head_place FRAME_LEN file) }
{}

/// A disk stays sound for a section by a read or a sync, and where less is known. Where each bucket
/// was cleared while the mark doesn't count, what is known agrees with any history.
pub fn soundness_is_kept<D: Disk>()
    ensures read_or_sync { (t : SectionState D) (known : KnownBuckets) (after : D) (most : ℕ)
        → OnlyReads D.Disk most t.disk after → DiskHolds D.Disk t known
        → DiskHolds D.Disk (record t { disk = after }) known }
    ensures idle { (t : SectionState D) (known : KnownBuckets) → IsAtRest t
        → DiskHolds D.Disk t known
        → DiskHolds D.Disk (record t { entries = None }) known }
    ensures forget { (t : SectionState D) (known knows : KnownBuckets)
        → ((n : ℕ) (entries : List Entry) → knows n ≡ Some entries → known n ≡ Some entries)
        → DiskHolds D.Disk t known
        → DiskHolds D.Disk t knows }
    ensures cleared { (score : List ℕ → List ℕ) (c : Setup) (h : History)
        (t : SectionState D) (known : KnownBuckets)
        → AllPairs (HasOtherKey score) h → t.head.total ≡ bucket_count c
        → IsAtRest t → t.next ≡ t.head → t.head.state ≢ 1
        → ((n : ℕ) → InRange t.head t.buckets n → known n ≡ Some [])
        → KnownAgrees score c h t known }
{}

/// What is known of a bucket is read while no entries are put into buckets, and behind a sync what
/// is read is known. A change of the head leaves what is read, so that its first sync settles all
/// buckets that were filled before it.
pub fn what_is_read_is_settled<D: Disk>()
    ensures read { (t : SectionState D) (known : KnownBuckets) → IsTrue D.tells
        → ¬ PutsEntries t.phase
        → DiskHolds D.Disk t known
        → ReadsKnown D.Disk t known }
    ensures settled { (t : SectionState D) (known knows : KnownBuckets) → ¬ PutsEntries t.phase
        → IsTrue D.tells → IsSynced D.Disk t.disk
        → DiskHolds D.Disk t known
        → ReadsKnown D.Disk t knows
        → DiskHolds D.Disk t knows }
    ensures head { (t u : SectionState D) (known : KnownBuckets)
        → u.head ≡ t.head → u.buckets ≡ t.buckets
        → SameBut (Inside head_place) (D.bytes t.disk) (D.bytes u.disk)
        → ReadsKnown D.Disk t known → ReadsKnown D.Disk u known }
{}

/// What is known goes on to agree with a history whatever becomes of the disk, and when the entries
/// of the last writeback are handed back. A mark that is covered stays so with more entries and
/// while the section has its buckets, and at rest with none that are still to be put.
pub fn agreement_is_kept<D: Disk>()
    ensures disk { (score : List ℕ → List ℕ) (c : Setup) (h : History)
        (t : SectionState D) (known : KnownBuckets) (disk : D)
        → KnownAgrees score c h t known → KnownAgrees score c h (record t { disk = disk }) known }
    ensures idle { (score : List ℕ → List ℕ) (c : Setup) (h : History)
        (t : SectionState D) (known : KnownBuckets) → IsAtRest t
        → KnownAgrees score c h t known
        → KnownAgrees score c h (record t { entries = None }) known }
    ensures covered { (score : List ℕ → List ℕ) (c : Setup) (h : History)
        (t u : SectionState D) (known : KnownBuckets) (entries more : List Entry) (mark : ℕ)
        → u.head ≡ t.head → u.buckets ≡ t.buckets
        → ((entry : Entry) → Contains entries entry → Contains more entry)
        → IsMarkCovered score c h t known (Contains entries) mark
        → IsMarkCovered score c h u known (Contains more) mark }
    ensures filed { (score : List ℕ → List ℕ) (c : Setup) (h : History)
        (t : SectionState D) (known : KnownBuckets) (mark : ℕ) → IsAtRest t
        → IsMarkCovered score c h t known (IsTodo t) mark
        → IsMarkCovered score c h t known NoOthers mark }
{}

/// What agrees with a history goes on to agree with it when blocks are added: an entry stays that
/// of its block, and what was below the mark stays there. An entry of the longer history that is
/// that of one of the first blocks is one of these.
pub fn agreement_grows<D: Disk>()
    ensures entry { (score : List ℕ → List ℕ) (c : Setup) (h more : History) (entry : Entry)
        → IsEntryOfBlock score c h entry → IsEntryOfBlock score c (h ++ more) entry }
    ensures beginning { (score : List ℕ → List ℕ) (c : Setup) (h more : History) (i : ℕ)
        (entry : Entry) → i < length h → IsEntryOf score c (h ++ more) i entry
        → IsEntryOf score c h i entry }
    ensures covered { (score : List ℕ → List ℕ) (c : Setup) (h more : History)
        (t : SectionState D) (known : KnownBuckets) (entries : List Entry) (mark : ℕ)
        → IsMarkCovered score c h t known (Contains entries) mark
        → IsMarkCovered score c (h ++ more) t known (Contains entries) mark }
    ensures known { (score : List ℕ → List ℕ) (c : Setup) (h more : History)
        (t : SectionState D) (known : KnownBuckets)
        → AllPairs (HasOtherKey score) (h ++ more)
        → KnownAgrees score c h t known → KnownAgrees score c (h ++ more) t known }
    ensures section { (score : List ℕ → List ℕ) (c : Setup) (h more : History) (buckets : ℕ)
        (head : Head) (entries : ℕ → List Entry)
        → AllPairs (HasOtherKey score) (h ++ more)
        → AgreesWith score c h buckets head entries
        → AgreesWith score c (h ++ more) buckets head entries }
{}

/// A file is one section at most: it has one name and one head, and the entries of each bucket.
pub fn sections_are_told_apart()
    ensures head { (name other : List ℕ) (head its : Head) (frame : List ℕ)
        → IsHeadFrame name head frame → IsHeadFrame other its frame
        → (name ≡ other) × (head ≡ its) }
    ensures entries { (name other : List ℕ) (head its : Head) (buckets : ℕ)
        (entries others : ℕ → List Entry) (file : List ℕ)
        → IsSection name head buckets entries file → IsSection other its buckets others file
        → (n : ℕ) → InRange head buckets n → entries n ≡ others n }
{}

/// A key has one block of a history, and one entry.
pub fn one_key_has_one_entry()
    ensures { (score : List ℕ → List ℕ) (c : Setup) (h : History) (i j : ℕ) (a b : Entry)
        → AllPairs (HasOtherKey score) h
        → IsEntryOf score c h i a → IsEntryOf score c h j b → a.key ≡ b.key
        → (i ≡ j) × (a ≡ b) }
{}

/// Entries of different keys, each that of a block whose bucket is the same, are no more than the
/// blocks of that bucket. Where each of these has its entry among them, they are as many.
pub fn blocks_are_counted()
    ensures most { (score : List ℕ → List ℕ) (c : Setup) (h : History) (n : ℕ)
        (entries : List Entry) → AllPairs (λ a b. a.key ≢ b.key) entries
        → ((entry : Entry) → Contains entries entry → IsEntryOfBlock score c h entry
        × (bucket_of (bucket_count c) entry.key.score.0 ≡ n))
        → length entries ≤ crowd score (bucket_count c) h n }
    ensures all { (score : List ℕ → List ℕ) (c : Setup) (h : History) (n : ℕ)
        (entries : List Entry) → AllPairs (HasOtherKey score) h
        → AllPairs (λ a b. a.key ≢ b.key) entries
        → ((entry : Entry) → Contains entries entry → IsEntryOfBlock score c h entry
        × (bucket_of (bucket_count c) entry.key.score.0 ≡ n))
        → ((i : ℕ) → IsInBucket score c h n i → HasBlock score c h (Contains entries) i)
        → length entries ≡ crowd score (bucket_count c) h n }
{}
