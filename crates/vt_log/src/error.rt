//! What the calls of a log answer, and why one can't be mounted.

use vt_arena::ArenaBad;
use vt_base::Failed;
use vt_part::PartBad;

/// Why a log can't be mounted. Arenas are counted from 0, over all partitions.
#[derive(Clone, Copy, Debug, PartialEq, Eq)]
pub enum LogBad {
    /// Two partitions have one name.
    Part(PartBad),
    /// An arena can't be mounted. One that is sealed behind an unsealed one, and has no blocks, is
    /// torn in the field `Sealed`, found 1, want 0.
    Arena { arena: u32, bad: ArenaBad },
    /// An arena with so many blocks stands behind an unsealed one.
    Order { arena: u32, clumps: u32 },
    /// A call of a disk failed, and its count of faults rose.
    Fault,
    /// Memory ran out.
    NoMemory,
}

/// No arena has room for the block.
#[derive(Clone, Copy, Debug, PartialEq, Eq)]
pub struct Full;

/// What a call of `Log::advance` did.
#[derive(Clone, Copy, Debug, PartialEq, Eq)]
pub enum Progress {
    /// Nothing, since nothing was queued.
    Idle,
    /// It made a device call of a commit, and not the last.
    Step,
    /// It made the last one: so many blocks are committed now.
    Durable(u64),
}

/// Why a call of `Log::advance` did nothing more.
#[derive(Clone, Copy, Debug, PartialEq, Eq)]
pub enum LogErr {
    /// The device call failed, and its disk's count of faults rose.
    Fault,
    /// The device call of this number failed before. The calls are those that `advance` made,
    /// counted from 0.
    Stopped(u64),
}

impl From<Failed> for LogBad {
    ghost use Rattle.std.specs.Prelude.{◌≡◌};
    ghost use Rattle.vt_log.specs.declared.error.LogBad.{LogBad};

    ghost from_gives = { λ _ bad. bad ≡ LogBad.Fault };

    /// A failed call of a disk is `Fault`.
    fn from(_failed: Failed) -> Self {
        LogBad::Fault
    }
}
