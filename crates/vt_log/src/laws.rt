//! What the layers above lean on between the calls of a log, each law the contract of a function that does nothing.
//! In each, `score_of` is any function of a block's bytes, `g` and `h` are histories, and `files` has one file for
//! each disk, as a crash may leave it.

ghost use Rattle.std.specs.Prelude.{◌≡◌, ◌≤◌, ℕ, List, All};
ghost use Rattle.vt_model.specs.History.{History};
ghost use Rattle.vt_part.specs.declared.layout.ArenaRegion.{ArenaRegion};
ghost use Rattle.vt_log.specs.Log.{LogState};
ghost use Rattle.vt_log.specs.Logs.{IsLog};
ghost use Rattle.vt_log.specs.Sound.{IsSoundLog, AreImagesOf, LogStandsForPrefix};

use vt_disk::{Disk, MOST_ARENA};

/// Between two calls a crash leaves disks that, taken together, stand for a prefix of the history
/// that has all durable blocks.
pub fn crash_gives_a_prefix<D: Disk>()
    ensures { (score_of : List ℕ → List ℕ) (l : LogState D) (h : History)
        (files : List (List ℕ))
        → IsSoundLog score_of D.Disk l h → AreImagesOf D.Disk l.disks files
        → LogStandsForPrefix score_of l files h }
{}

/// Files are one log at most.
pub fn logs_are_told_apart()
    ensures { (score_of : List ℕ → List ℕ) (layout : List ArenaRegion) (files : List (List ℕ))
        (g h : History) (a b : ℕ) → All (λ r. r.region.len ≤ MOST_ARENA) layout
        → IsLog score_of layout files g a → IsLog score_of layout files h b
        → (g ≡ h) × (a ≡ b) }
{}
