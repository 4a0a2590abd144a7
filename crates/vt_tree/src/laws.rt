//! Laws of entries, roots, calls and content, each the contract of a function that does nothing.
//! Those that no code calls check the definitions. In each, `score_of` is any function of a block's
//! bytes, `m` which maps a store of blocks holds, and `map` one map of blocks.

ghost use Rattle.std.specs.Prelude.{◌≡◌, ◌↔◌, ◌+◌, ◌*◌, ◌<◌, ◌≤◌, ◌^◌, ◌/◌, ◌%◌, ℕ, List, Some, Ok};
ghost use Rattle.std.specs.Prelude.{[], length, map, take, drop, slice_index};
ghost use Rattle.std.specs.List.{All, AllByRecursion};
ghost use Rattle.vt_model.specs.History.{Block};
ghost use Rattle.vt_tree.specs.declared.entry.Entry.{Entry};
ghost use Rattle.vt_tree.specs.declared.root.Root.{Root};
ghost use Rattle.vt_tree.specs.Calls.{Call, asked_of, write_of_block, refusals_of, IsGet, TellsOfMap};
ghost use Rattle.vt_tree.specs.Content.{byte_of, leaf_kind, scores_in, IsFileContent, AreGiven};
ghost use Rattle.vt_tree.specs.Entries.{IsTreeEntry, SpellsEntry};
ghost use Rattle.vt_tree.specs.Making.{Makes, TellsEach, after_all};
ghost use Rattle.vt_tree.specs.Maps.{BlockMap, Maps, with_blocks, Has, IsWithin, IsWriteOnce};
ghost use Rattle.vt_tree.specs.Memory.{BlocksMemory, DoesInMemory, HoldsInMemory};
ghost use Rattle.vt_tree.specs.Roots.{IsRoot, root_bytes};
ghost use Rattle.vt_tree.specs.Streams.{Shape, FitsShape, reach, depth_of, stream_of, entry_of_stream};

use crate::{Blocks, MemBlocks};
use vt_base::Scorer;

/// No bytes spell two entries.
pub fn one_entry()
    ensures { (a b : Entry) (bytes : List ℕ) → IsTreeEntry a → IsTreeEntry b →
        SpellsEntry a bytes → SpellsEntry b bytes → a ≡ b }
{}

/// No bytes spell two roots.
pub fn one_root()
    ensures { (a b : Root) → IsRoot a → IsRoot b → root_bytes a ≡ root_bytes b → a ≡ b }
{}

/// What calls answer is true of what a store holds, and what it holds after them is that with what
/// was put.
pub fn calls_are_told<B: Blocks>()
    ensures { (s s' : B) (calls : List Call) (m : Maps) →
        Makes B.does s calls s' → B.holds s m →
        TellsEach B.score_of m calls × B.holds s' (after_all B.score_of calls m) }
{}

/// What was held stays held, whatever is called.
pub fn held_stays()
    ensures { (score_of : List ℕ → List ℕ) (calls : List Call) (m : Maps) →
        IsWithin m.held (after_all score_of calls m).held }
{}

/// Where blocks were asked for, and nothing else, what is held stays, and each answer is true of
/// it.
pub fn gets_change_nothing()
    ensures left { (score_of : List ℕ → List ℕ) (calls : List Call) (m : Maps) →
        AllByRecursion IsGet calls → after_all score_of calls m ≡ m }
    ensures told { (score_of : List ℕ → List ℕ) (calls : List Call) (m : Maps) →
        AllByRecursion IsGet calls → TellsEach score_of m calls →
        AllByRecursion (TellsOfMap score_of m.held) calls }
{}

/// Where calls are puts of these blocks, in this order, and each was answered, they are held,
/// beside what was.
pub fn puts_are_held()
    ensures map { (score_of : List ℕ → List ℕ) (calls : List Call) (blocks : List Block)
        (m : Maps) → map asked_of calls ≡ map write_of_block blocks → refusals_of calls ≡ [] →
        after_all score_of calls m ≡ record m { held = with_blocks score_of blocks m.held } }
    ensures each { (score_of : List ℕ → List ℕ) (calls : List Call) (blocks : List Block)
        (m : Maps) → map asked_of calls ≡ map write_of_block blocks → refusals_of calls ≡ [] →
        TellsEach score_of m calls →
        All (Has score_of (with_blocks score_of blocks m.held)) blocks }
{}

/// Blocks in memory, in the words of the trait.
pub fn memory_as_blocks<S: Scorer>()
    ensures does { (m m' : BlocksMemory) (call : Call) →
        ⟦<MemBlocks<S> as Blocks>⟧.does m call m' ↔ DoesInMemory S.score_of m call m' }
    ensures holds { (m : BlocksMemory) (maps : Maps) →
        ⟦<MemBlocks<S> as Blocks>⟧.holds m maps ↔ HoldsInMemory S.score_of m maps }
    ensures counts { (m : BlocksMemory) → ⟦<MemBlocks<S> as Blocks>⟧.counts m ≡ m.counts }
{}

/// A file in one leaf is that block, with the zeros that were cut from its end.
pub fn one_leaf()
    ensures { (map : BlockMap) (e : Entry) (block : List ℕ) (p : ℕ) →
        map e.score.0 (leaf_kind e.is_dir) ≡ Some block → length block ≤ e.dsize →
        e.depth ≡ 0 → p < e.dsize → byte_of map e p ≡ Ok (slice_index block p) }
{}

/// A file under a score without bytes is zeros, whatever its depth.
pub fn no_block()
    ensures { (map : BlockMap) (e : Entry) (p : ℕ) →
        ((kind : ℕ) → map e.score.0 kind ≡ Some []) → byte_of map e p ≡ Ok 0 }
{}

/// What the depth doesn't reach is zeros.
pub fn past_the_reach()
    ensures { (map : BlockMap) (e : Entry) (p : ℕ) → 0 < e.dsize →
        scores_in e.psize ^ e.depth * e.dsize ≤ p → byte_of map e p ≡ Ok 0 }
{}

/// A leaf below one pointer block is the block of its score there, and zeros where the pointer
/// block was cut.
pub fn one_pointer_block()
    ensures leaf { (map : BlockMap) (e : Entry) (pointers block : List ℕ) (leaf byte : ℕ) →
        map e.score.0 3 ≡ Some pointers → length pointers ≤ e.psize → length pointers % 20 ≡ 0 →
        map (take 20 (drop (20 * leaf) pointers)) (leaf_kind e.is_dir) ≡ Some block →
        length block ≤ e.dsize → e.depth ≡ 1 → leaf < scores_in e.psize →
        20 * leaf < length pointers → byte < e.dsize →
        byte_of map e (leaf * e.dsize + byte) ≡ Ok (slice_index block byte) }
    ensures cut { (map : BlockMap) (e : Entry) (pointers : List ℕ) (p : ℕ) →
        map e.score.0 3 ≡ Some pointers → length pointers ≤ e.psize → length pointers % 20 ≡ 0 →
        e.depth ≡ 1 → 0 < e.dsize → length pointers ≤ 20 * (p / e.dsize) →
        byte_of map e p ≡ Ok 0 }
{}

/// A map has one content of an entry at most.
pub fn one_content()
    ensures { (map : BlockMap) (e : Entry) (a b : List ℕ) →
        IsFileContent map e a → IsFileContent map e b → a ≡ b }
{}

/// What a map gives of a file stays when blocks are added.
pub fn content_stays()
    ensures { (old new : BlockMap) (e : Entry) (at : ℕ) (bytes : List ℕ) → IsWithin old new →
        AreGiven (byte_of old e) at bytes → AreGiven (byte_of new e) at bytes }
{}

/// The depth of a stream is the least that reaches it.
pub fn depth_is_least()
    ensures reaches { (shape : Shape) (size : ℕ) → FitsShape shape → size ≤ 2 ^ 40 →
        (depth_of shape size < 8) × (size ≤ reach shape (depth_of shape size)) }
    ensures least { (shape : Shape) (size d : ℕ) →
        d < depth_of shape size → reach shape d < size }
{}

/// A stream in blocks is the file of its bytes, in each write-once map that has these blocks.
pub fn streams_read_back()
    ensures { (score_of : List ℕ → List ℕ) (map : BlockMap) (shape : Shape) (bytes : List ℕ) →
        ((block : List ℕ) → length (score_of block) ≡ 20) → IsWriteOnce score_of map →
        FitsShape shape → length bytes ≤ 2 ^ 40 →
        All (Has score_of map) (stream_of score_of shape bytes).blocks →
        IsFileContent map (entry_of_stream score_of shape bytes) bytes }
{}
