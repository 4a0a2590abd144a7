//! The store in memory, which a run makes for itself.

ghost use Rattle.std.specs.Prelude.{◌≡◌, ◌≤◌, ℕ, List, IfErr, IfOk, length};
ghost use Rattle.vt_base.specs.Protocol.{read, write, r_read, r_write};
ghost use Rattle.vt_base.specs.declared.TheConstants.{MAX_BLOCK};
ghost use Rattle.vt_base.specs.declared.score.Score.{Score};
ghost use Rattle.vt_handler.specs.Serving.{answered};
ghost use Rattle.run_base.specs.Blocks.{AnswersOfEmptyStore, FailsInMemory};
ghost use Rattle.run_base.specs.Memory.{IsMemoryStore};

use std::alloc::{AllocError, Global};
use vt_base::{Bytes, Kind, Score, Scorer, Why};
use vt_conf::{cached_blocks, entry_room};
use vt_core::Core;
use vt_disk::Disk;
use vt_empty::laws::memory_never_fails;
use vt_empty::{Shape, fresh_store};
use vt_memdisk::MemDisk;
use vt_shard::Sizes;
use vt_use::{blocks_are_kept, blocks_are_read, blocks_have_causes, read_block, write_block};

/// The shape of the store in memory.
const MEMORY: Shape = Shape {
    arenas: 1,
    arena_len: 1_048_576,
    sections: 1,
    buckets: 4,
    filter: 8_192,
    positions: 8,
};

/// How many bytes of blocks it keeps at hand, and how many of index entries.
const MEM: u64 = 1 << 20;

/// The store in memory, without blocks, for one session.
pub fn memory_store<S: Scorer + Drop>(
    alloc: Global,
    scorer: S,
) -> Result<Core<MemDisk, S>, AllocError>
    ensures { IfOk result (IsMemoryStore S.score_of ⟦<MemDisk as Disk>⟧) }
{
    let sizes = Sizes {
        lumps: cached_blocks(MEM, MEMORY.sections),
        clean: entry_room(MEM, MEMORY.sections),
    };
    fresh_store(alloc, &MEMORY, sizes, 1, scorer)
}

/// Asks the store in memory for the block of a type and a score: it has that of no bytes alone.
pub fn read_made<S: Scorer>(
    alloc: Global,
    scorer: &S,
    kind: Kind,
    score: &Score,
) -> Result<Bytes, Why>
    ensures answers { AnswersOfEmptyStore S.score_of (read score.now.0 kind MAX_BLOCK)
        (answered (λ (bytes : List ℕ). r_read bytes) result) }
    ensures fails { IfErr result FailsInMemory }
{
    memory_never_fails();
    blocks_are_read::<MemDisk>();
    blocks_have_causes::<MemDisk>();
    let Ok(core) = memory_store(alloc, scorer) else {
        return Err(Why::NoMemory);
    };
    let (block, _) = read_block(alloc, core, scorer, kind, score);
    block
}

/// Hands a block of at most 57,344 bytes to the store in memory, at this time, and gives its score.
pub fn write_made<S: Scorer>(
    alloc: Global,
    scorer: &S,
    now: u32,
    kind: Kind,
    bytes: &[u8],
) -> Result<Score, Why>
    requires most { length bytes.now ≤ MAX_BLOCK }
    ensures answers { AnswersOfEmptyStore S.score_of (write kind bytes.now)
        (answered (λ (given : Score). r_write given.0) result) }
    ensures scored { IfOk result (λ given. given.0 ≡ S.score_of bytes.now) }
    ensures fails { IfErr result FailsInMemory }
{
    memory_never_fails();
    blocks_are_kept::<MemDisk>();
    blocks_have_causes::<MemDisk>();
    let Ok(core) = memory_store(alloc, scorer) else {
        return Err(Why::NoMemory);
    };
    let (score, _) = write_block(alloc, core, scorer, now, kind, bytes);
    score
}
