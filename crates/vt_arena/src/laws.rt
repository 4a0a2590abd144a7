//! What the layers above lean on between the calls of an arena, each law the contract of a function that does
//! nothing. In each, `score_of` is any function of a block's bytes, `a` an arena as contracts see it or what one
//! holds, `old` what it holds on the disk, `region` its place there, and `c` a file that a crash may leave of
//! that or, in what is said of the model, what a store was opened with.

ghost use Rattle.std.specs.Prelude.{◌≡◌, ◌<◌, ◌≤◌, ◌+◌, ◌^◌, ℕ, List, [], ◌∷◌, ◌++◌, Bool, IsTrue, IsFalse, length};
ghost use Rattle.vt_disk.specs.declared.region.Region.{Region};
ghost use Rattle.vt_disk.specs.Disk.{SameBut, AreAmong, Only};
ghost use Rattle.vt_disk.specs.Region.{Inside, ChangesWithin, region_bytes};
ghost use Rattle.vt_clump.specs.declared.packed.Packed.{Packed};
ghost use Rattle.vt_clump.specs.Spelling.{Stored, clump_bytes};
ghost use Rattle.vt_clump.specs.Clumps.{IsPacked};
ghost use Rattle.vt_model.specs.Places.{Setup, room_of, version_of, fits as fits_by_lengths, offset_behind};
ghost use Rattle.vt_model.specs.declared.TheConstants.{ARENA_HEAD_LEN, WRITTEN_VERSION};
ghost use Rattle.vt_arena.specs.Arena.{ArenaState, fresh_arena, fits, is_committing, version_counted, with_staged, with_seal, next_content};
ghost use Rattle.vt_arena.specs.Layout.{Content, IsArenaContent, IsArena, HasBlocks, BytesStandAt, arena_head, used_of};
ghost use Rattle.vt_arena.specs.Places.{lengths_of, offset_of, arena_room, has_room};
ghost use Rattle.vt_arena.specs.declared.TheConstants.{FRAME_LEN};
ghost use Rattle.vt_arena.specs.declared.head.ArenaHead.{ArenaHead};
ghost use Rattle.vt_twin.specs.Frames.{named_number};
ghost use Rattle.vt_arena.specs.Faults.{CanStand};
ghost use Rattle.vt_arena.specs.Sound.{IsRegion, IsSettled, IsSoundArena, HasBegunSelector, GivesOldOrNext};

use vt_disk::Disk;

/// Bytes are one arena at most.
pub fn arenas_are_told_apart()
    ensures { (score_of : List ℕ → List ℕ) (region : Region) (number : ℕ) (a b : Content)
        (file : List ℕ) → region.len ≤ 2 ^ 30
        → IsArena score_of region number a file → IsArena score_of region number b file → a ≡ b }
{}

/// Between two calls a crash leaves the arena as it was or, once the selector's write began, as it
/// was or with all that was staged. With no commit under way it leaves it as it was.
pub fn crash_gives_old_or_next<D: Disk>()
    ensures crash { (score_of : List ℕ → List ℕ) (a : ArenaState) (region : Region)
        (old : Content) (disk : D)
        → IsSoundArena score_of a region old (D.bytes disk) (D.images disk)
        → (c : List ℕ) → D.images disk c
        → GivesOldOrNext (HasBegunSelector a) score_of region a.number old (next_content a old) c }
    ensures rest { (score_of : List ℕ → List ℕ) (a : ArenaState) (region : Region)
        (old : Content) (disk : D) → IsFalse (is_committing a)
        → IsSoundArena score_of a region old (D.bytes disk) (D.images disk)
        → (c : List ℕ) → D.images disk c → IsArena score_of region a.number old c }
    ensures kept { (score_of : List ℕ → List ℕ) (a : ArenaState) (region : Region)
        (old : Content) (disk : D)
        → IsSoundArena score_of a region old (D.bytes disk) (D.images disk)
        → (c : List ℕ) → D.images disk c
        → IsArenaContent score_of region.len old × HasBlocks region old c }
{}

/// An arena is in its region: other bytes don't matter, and what is done to the rest of the disk
/// leaves it what it is.
pub fn arenas_are_in_their_regions()
    ensures region { (score_of : List ℕ → List ℕ) (region : Region) (number : ℕ) (a : Content)
        (old new : List ℕ) → ARENA_HEAD_LEN ≤ region.len
        → region_bytes region new ≡ region_bytes region old
        → IsArena score_of region number a old → IsArena score_of region number a new }
    ensures blocks { (score_of : List ℕ → List ℕ) (region : Region) (a : Content)
        (old new : List ℕ) → ARENA_HEAD_LEN ≤ region.len
        → region_bytes region new ≡ region_bytes region old
        → IsArenaContent score_of region.len a → HasBlocks region a old
        → HasBlocks region a new }
    ensures elsewhere { (region other : Region) (old new : List ℕ)
        → ((i : ℕ) → Inside other i → ¬ Inside region i) → SameBut (Inside other) old new
        → region_bytes region new ≡ region_bytes region old }
{}

/// A region is settled after a sync. It stays settled by what is done to the rest of the disk, a
/// read or a sync. A disk with a settled arena is sound for a fresh one with its head, and each
/// image is that arena.
pub fn settled_regions<D: Disk>()
    ensures sync { (region : Region) (disk : D) → Only (D.bytes disk) (D.images disk)
        → IsSettled region (D.bytes disk) (D.images disk) }
    ensures elsewhere { (region other : Region) (before after : D)
        → ((i : ℕ) → Inside other i → ¬ Inside region i)
        → SameBut (Inside other) (D.bytes before) (D.bytes after)
        → ChangesWithin other (D.images before) (D.images after)
        → IsSettled region (D.bytes before) (D.images before)
        → IsSettled region (D.bytes after) (D.images after) }
    ensures read_or_sync { (region : Region) (before after : D)
        → D.bytes after ≡ D.bytes before → AreAmong (D.images after) (D.images before)
        → IsSettled region (D.bytes before) (D.images before)
        → IsSettled region (D.bytes after) (D.images after) }
    ensures fresh { (score_of : List ℕ → List ℕ) (region : Region) (number current : ℕ)
        (old : Content) (head : ArenaHead) (disk : D) → IsRegion region (D.size disk)
        → IsSettled region (D.bytes disk) (D.images disk)
        → IsArena score_of region number old (D.bytes disk)
        → current ≡ named_number region FRAME_LEN (D.bytes disk)
        → head ≡ arena_head score_of number old → CanStand number region.len head
        → IsSoundArena score_of (fresh_arena region.len current head) region old
        (D.bytes disk) (D.images disk) }
    ensures image { (score_of : List ℕ → List ℕ) (region : Region) (number : ℕ) (old : Content)
        (disk : D) → ARENA_HEAD_LEN ≤ region.len → IsSettled region (D.bytes disk) (D.images disk)
        → IsArena score_of region number old (D.bytes disk)
        → (c : List ℕ) → D.images disk c → IsArena score_of region number old c }
{}

/// A disk stays sound when a block is staged that fits, and when the seal is asked for; and by what
/// is done to the rest of the disk: any change within another region, a read or a sync.
pub fn soundness_is_kept<D: Disk>()
    ensures stage { (score_of : List ℕ → List ℕ) (a : ArenaState) (packed : Packed)
        (region : Region) (old : Content) (disk : D)
        → ((block : List ℕ) → length (score_of block) ≡ 20)
        → IsTrue (fits a packed.len) → IsFalse (is_committing a) → IsPacked score_of packed
        → IsSoundArena score_of a region old (D.bytes disk) (D.images disk)
        → IsSoundArena score_of (with_staged score_of packed a) region old
        (D.bytes disk) (D.images disk) }
    ensures seal { (score_of : List ℕ → List ℕ) (a : ArenaState) (region : Region)
        (old : Content) (disk : D) → IsFalse (is_committing a)
        → version_counted a.next ≡ WRITTEN_VERSION
        → IsSoundArena score_of a region old (D.bytes disk) (D.images disk)
        → IsSoundArena score_of (with_seal a) region old (D.bytes disk) (D.images disk) }
    ensures elsewhere { (score_of : List ℕ → List ℕ) (a : ArenaState) (region : Region)
        (old : Content) (before after : D) → IsRegion region (D.size before)
        → (other : Region) → ((i : ℕ) → Inside other i → ¬ Inside region i)
        → SameBut (Inside other) (D.bytes before) (D.bytes after)
        → ChangesWithin other (D.images before) (D.images after)
        → IsSoundArena score_of a region old (D.bytes before) (D.images before)
        → IsSoundArena score_of a region old (D.bytes after) (D.images after) }
    ensures read_or_sync { (score_of : List ℕ → List ℕ) (a : ArenaState) (region : Region)
        (old : Content) (before after : D)
        → D.bytes after ≡ D.bytes before → AreAmong (D.images after) (D.images before)
        → IsSoundArena score_of a region old (D.bytes before) (D.images before)
        → IsSoundArena score_of a region old (D.bytes after) (D.images after) }
{}

/// Each block of an arena stands where the model puts it, behind the blocks before it.
pub fn blocks_stand_at_their_places()
    ensures { (score_of : List ℕ → List ℕ) (region : Region) (old : Content)
        (before behind : List Stored) (s : Stored) (file : List ℕ)
        → IsArenaContent score_of region.len old → HasBlocks region old file
        → old.stored ≡ before ++ s ∷ behind
        → BytesStandAt (region.start + offset_of old.version before) (clump_bytes s) file }
{}

/// The room of an arena, and a block's place in it, are those of any store that has an arena of its
/// length and version.
pub fn room_is_the_models()
    ensures fits { (c : Setup) (arena version len n : ℕ) (stored : List Stored)
        → version_of c arena ≡ version → room_of c arena ≡ arena_room len
        → has_room version len (used_of version stored) (length stored) n
        ≡ fits_by_lengths c arena (lengths_of stored ++ n ∷ []) }
    ensures offset { (c : Setup) (arena version : ℕ) (before : List Stored)
        → version_of c arena ≡ version
        → offset_of version before ≡ offset_behind c arena (lengths_of before) }
{}
