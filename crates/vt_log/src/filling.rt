//! How full an arena is.

ghost use Rattle.std.specs.Prelude.{◌≡◌, ◌+◌, ◌<◌, ◌^◌};
ghost use Rattle.vt_model.specs.declared.TheConstants.{CLUMP_HEADER_LEN};
ghost use Rattle.vt_arena.specs.Places.{block_room};

use vt_arena::ArenaHead;
use vt_model::CLUMP_HEADER_LEN;

/// How full an arena is, queued blocks counted.
#[derive(Clone, Copy, Debug, PartialEq, Eq)]
pub(crate) struct Filling {
    /// The arena's number, over all partitions.
    pub arena: u32,
    /// How many bytes its clumps take.
    pub used: u64,
    /// How many they are.
    pub clumps: u32,
}

impl Filling {
    ghost use Rattle.vt_log.specs.Log.{filled_as, with_room_taken};

    /// How full the arena of this number is, by its head.
    pub fn of(arena: u32, head: &ArenaHead) -> Filling
        ensures { result ≡ filled_as arena head.now }
    {
        Filling {
            arena,
            used: head.used,
            clumps: head.clumps,
        }
    }

    /// The arena with one more block, of `n` bytes.
    pub fn with(self, n: u32) -> Filling
        requires used { self.used + n + CLUMP_HEADER_LEN < 2 ^ 64 }
        requires clumps { self.clumps + 1 < 2 ^ 32 }
        ensures { result ≡ with_room_taken n self }
    {
        Filling {
            arena: self.arena,
            used: self.used + CLUMP_HEADER_LEN as u64 + u64::from(n),
            clumps: self.clumps + 1,
        }
    }
}
