//! Laws of saved filters, each the contract of a function that does nothing: what the store leans on between the
//! calls of a save. In each, `b` is a filter in memory with its device, `saved` the one that is saved, `coming` the
//! one of the save under way, and `c` a file that a crash may leave of the device.

ghost use Rattle.std.specs.Prelude.{◌≡◌, ℕ, List, IsSome, None};
ghost use Rattle.vt_twin.specs.Sound.{TwinHasBegunSelector};
ghost use Rattle.vt_bloom.specs.Bits.{Filter, IsFilter, HasBitsOf, MarksScore};
ghost use Rattle.vt_bloom.specs.Bloom.{BloomState, IsSoundBloom, HasOldOrNew};
ghost use Rattle.vt_bloom.specs.Frame.{Saved, Covers, HasSaved};
ghost use Rattle.vt_bloom.specs.Laws.{IsUnambiguous, HasOneSaved, WritesFrames, PassesSaved, HasOneSize, CoversMore, CoversFewer};

use vt_disk::Disk;

/// A frame is that of one filter, and a device has one filter saved, of one size, whatever bytes
/// stand behind it. No test fails on it, and what is written for a filter is its frame.
pub fn saved_filters_are_told_apart()
    ensures one { IsUnambiguous }
    ensures one_saved { HasOneSaved }
    ensures one_size { HasOneSize }
    ensures passes { PassesSaved }
    ensures written { WritesFrames }
{}

/// A score that was marked has its bits from then on, and marking leaves a filter one.
pub fn marked_scores_stay()
    ensures marked { (old new : Filter) (score : List ℕ) → MarksScore old score new
        → HasBitsOf new score }
    ensures stay { (old new : Filter) (score other : List ℕ) → MarksScore old score new
        → HasBitsOf old other → HasBitsOf new other }
    ensures filter { (old new : Filter) (score : List ℕ) → MarksScore old score new
        → IsFilter old → IsFilter new }
{}

/// A mark that is true of a log stays so when blocks are added, and when the log is cut anywhere
/// behind it.
pub fn true_marks_stay()
    ensures more { CoversMore }
    ensures fewer { CoversFewer }
{}

/// Between two calls a crash leaves the filter that was saved before the save under way or, once
/// the selector's write began, that one or the new one. With no save under way it leaves the saved
/// one. So where the marks of both are true, so is the mark of what is mounted then.
pub fn crash_gives_old_or_new<D: Disk>()
    ensures crash { (b : BloomState D) (saved coming : Saved)
        → IsSoundBloom b saved coming (D.bytes b.disk) (D.images b.disk)
        → (c : List ℕ) → D.images b.disk c
        → HasOldOrNew (TwinHasBegunSelector b.twin) saved coming c }
    ensures rest { (b : BloomState D) (saved coming : Saved)
        → IsSoundBloom b saved coming (D.bytes b.disk) (D.images b.disk) → b.twin.change ≡ None
        → (c : List ℕ) → D.images b.disk c → HasSaved saved c }
    ensures covered { (b : BloomState D) (saved coming : Saved) (scores : List (List ℕ))
        → IsSoundBloom b saved coming (D.bytes b.disk) (D.images b.disk)
        → Covers scores saved → (IsSome b.twin.change → Covers scores coming)
        → (c : List ℕ) → D.images b.disk c → (s : Saved) × HasSaved s c × Covers scores s }
{}
