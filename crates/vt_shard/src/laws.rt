//! What the layers above lean on between the calls of a shard, each law the contract of a function that does
//! nothing. In each, `t` is a shard as contracts see it, `h` the history that the store has accepted, `durable` how
//! many of its blocks are on the log's disks, and `from` how many of the first may still lack their entries, as while
//! a log is read back. `score` is any function of a block's bytes, `c` the setup by which scores have their buckets.

ghost use Rattle.std.specs.Prelude.{◌≡◌, ◌≤◌, ◌+◌, ◌++◌, ◌∷◌, [], ℕ, List, length, take};
ghost use Rattle.std.specs.List.{AllPairs};
ghost use Rattle.vt_model.specs.History.{History, Accepted, HasScoreAt};
ghost use Rattle.vt_model.specs.Legal.{HasOtherKey};
ghost use Rattle.vt_model.specs.Places.{Setup};
ghost use Rattle.vt_shard.specs.Shard.{ShardState, HasScore};
ghost use Rattle.vt_shard.specs.Sound.{IsSoundShard, IsSoundFrom, LeavesLive};

use vt_disk::Disk;

/// Between two calls a crash leaves a section in use, at its place, that agrees with the first n
/// blocks, for whatever n from the durable ones on.
pub fn files_agree<D: Disk>()
    ensures { (score : List ℕ → List ℕ) (c : Setup) (t : ShardState D) (h : History)
        (durable from n : ℕ) → IsSoundFrom score c D.Disk t h durable from
        → durable ≤ n → n ≤ length h
        → (file : List ℕ) → D.images t.section.disk file → LeavesLive score c (take n h) t file }
{}

/// Entries that were written back, and each mark, are of durable blocks.
pub fn numbers_are_durable<D: Disk>()
    ensures { (score : List ℕ → List ℕ) (c : Setup) (t : ShardState D) (h : History)
        (durable from : ℕ) → IsSoundFrom score c D.Disk t h durable from
        → (t.filed ≤ durable) × (t.section.head.mark ≤ durable) × (t.section.next.mark ≤ durable) }
{}

/// A disk stays sound for a shard when more blocks become durable.
pub fn more_are_durable<D: Disk>()
    ensures { (score : List ℕ → List ℕ) (c : Setup) (t : ShardState D) (h : History)
        (durable more from : ℕ) → IsSoundFrom score c D.Disk t h durable from
        → durable ≤ more → more ≤ length h → IsSoundFrom score c D.Disk t h more from }
{}

/// A disk stays sound for a shard when a block of another shard is added.
pub fn others_are_added<D: Disk>()
    ensures { (score : List ℕ → List ℕ) (c : Setup) (t : ShardState D) (h : History)
        (durable from : ℕ) (block : Accepted) → IsSoundFrom score c D.Disk t h durable from
        → AllPairs (HasOtherKey score) (h ++ block ∷ [])
        → ¬ HasScore t (score block.block.bytes)
        → IsSoundFrom score c D.Disk t (h ++ block ∷ []) durable from }
{}

/// While a log is read back, from its end: a block of another shard lacks nothing here.
pub fn others_lack_nothing<D: Disk>()
    ensures { (score : List ℕ → List ℕ) (c : Setup) (t : ShardState D) (h : History)
        (durable i : ℕ) (s : List ℕ) → IsSoundFrom score c D.Disk t h durable (i + 1)
        → HasScoreAt score h i s → ¬ HasScore t s → IsSoundFrom score c D.Disk t h durable i }
{}

/// Where the log was read back to the mark, or further, no block lacks its entry, and where none
/// below a number may lack it, none below a greater one needs to have it.
pub fn no_block_lacks<D: Disk>()
    ensures none { (score : List ℕ → List ℕ) (c : Setup) (t : ShardState D) (h : History)
        (durable from : ℕ) → IsSoundFrom score c D.Disk t h durable from
        → from ≤ t.section.head.mark → IsSoundShard score c D.Disk t h durable }
    ensures more { (score : List ℕ → List ℕ) (c : Setup) (t : ShardState D) (h : History)
        (durable from more : ℕ) → IsSoundFrom score c D.Disk t h durable from → from ≤ more
        → IsSoundFrom score c D.Disk t h durable more }
{}

/// Which arena was the first unsealed one makes no difference.
pub fn base_is_free<D: Disk>()
    ensures { (score : List ℕ → List ℕ) (c : Setup) (base : ℕ) (t : ShardState D) (h : History)
        (durable from : ℕ) → IsSoundFrom score c D.Disk t h durable from
        → IsSoundFrom score (record c { base = base }) D.Disk t h durable from }
{}
