//! What the layers above lean on between the calls of a twin, each law the contract of a function that does nothing.
//! In each, `t` is a twin as contracts see it, `region` its place on the disk, `old` its current frame, and `c` a
//! file that a crash may leave of the disk.

ghost use Rattle.std.specs.Prelude.{◌≡◌, ◌<◌, ◌≤◌, ◌+◌, ◌⊎◌, ℕ, List, IsTrue, None};
ghost use Rattle.vt_disk.specs.declared.region.Region.{Region};
ghost use Rattle.vt_disk.specs.Disk.{Touches, SameBut, AreAmong, ChangesAt};
ghost use Rattle.vt_disk.specs.Region.{Inside, ChangesWithin};
ghost use Rattle.vt_twin.specs.Frames.{FitsTwin, frame_of, current_frame};
ghost use Rattle.vt_twin.specs.Twin.{TwinState, fresh, with_change, without_spare, next_frame};
ghost use Rattle.vt_twin.specs.Sound.{HasFrame, NamesFrame, TwinHasBegunSelector, IsSoundTwin, GivesOldOrNew};

use vt_disk::Disk;

/// Between two calls a crash leaves the frame that was current before the change under way or, once
/// the selector's write began, that one or the new one. With no change under way it leaves the
/// current one. A read gives the current one, also after a call has failed.
pub fn crash_gives_old_or_new<D: Disk>()
    ensures crash { (t : TwinState) (region : Region) (old : List ℕ) (disk : D)
        → IsSoundTwin t region old (D.bytes disk) (D.images disk) → (c : List ℕ) → D.images disk c
        → GivesOldOrNew (TwinHasBegunSelector t) region t.frame_len old (next_frame t) c }
    ensures rest { (t : TwinState) (region : Region) (old : List ℕ) (disk : D)
        → IsSoundTwin t region old (D.bytes disk) (D.images disk) → t.change ≡ None
        → (c : List ℕ) → D.images disk c → current_frame region t.frame_len c ≡ old }
    ensures read { (t : TwinState) (region : Region) (old : List ℕ) (disk : D)
        → IsTrue D.tells → IsSoundTwin t region old (D.bytes disk) (D.images disk)
        → frame_of region t.frame_len t.current (D.bytes disk) ≡ old }
{}

/// A disk is sound for a fresh twin where every image names its frame and has it. It stays sound
/// when a change begins, when a buffer is handed back, and by what is done to the rest of the disk:
/// a write that touches nothing of the region, any change within another region, a read or a sync.
pub fn soundness_is_kept<D: Disk>()
    ensures fresh { (n number : ℕ) (region : Region) (old : List ℕ) (disk : D)
        → number < 2
        → NamesFrame region n number (D.images disk) → HasFrame region n number old (D.images disk)
        → IsSoundTwin (fresh n number) region old (D.bytes disk) (D.images disk) }
    ensures begin { (t : TwinState) (frame : List ℕ) (region : Region) (old : List ℕ) (disk : D)
        → t.change ≡ None → IsSoundTwin t region old (D.bytes disk) (D.images disk)
        → IsSoundTwin (with_change frame t) region old (D.bytes disk) (D.images disk) }
    ensures idle { (t : TwinState) (region : Region) (old : List ℕ) (disk : D)
        → IsSoundTwin t region old (D.bytes disk) (D.images disk)
        → IsSoundTwin (without_spare t) region old (D.bytes disk) (D.images disk) }
    ensures write { (t : TwinState) (region : Region) (old : List ℕ) (before after : D)
        → FitsTwin region t.frame_len (D.size before)
        → (start n : ℕ) → ((i : ℕ) → Touches start n i → ¬ Inside region i)
        → SameBut (Touches start n) (D.bytes before) (D.bytes after)
        → ChangesAt (Touches start n) (D.images before) (D.images after)
        → IsSoundTwin t region old (D.bytes before) (D.images before)
        → IsSoundTwin t region old (D.bytes after) (D.images after) }
    ensures elsewhere { (t : TwinState) (region : Region) (old : List ℕ) (before after : D)
        → FitsTwin region t.frame_len (D.size before)
        → (other : Region) → ((i : ℕ) → Inside other i → ¬ Inside region i)
        → SameBut (Inside other) (D.bytes before) (D.bytes after)
        → ChangesWithin other (D.images before) (D.images after)
        → IsSoundTwin t region old (D.bytes before) (D.images before)
        → IsSoundTwin t region old (D.bytes after) (D.images after) }
    ensures read_or_sync { (t : TwinState) (region : Region) (old : List ℕ) (before after : D)
        → D.bytes after ≡ D.bytes before → AreAmong (D.images after) (D.images before)
        → IsSoundTwin t region old (D.bytes before) (D.images before)
        → IsSoundTwin t region old (D.bytes after) (D.images after) }
{}
