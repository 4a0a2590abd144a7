//! What a rehearsal counts, as it is printed at the end.

ghost use Rattle.std.specs.Prelude.{◌≡◌};
ghost use Rattle.vt_rehearse.specs.Counts.{nothing_done};

/// What a rehearsal did, and what came of it.
#[derive(Clone, Copy, Debug, PartialEq, Eq)]
pub struct Summary {
    /// Events of the store that the rounds took.
    pub events: u64,
    /// Writes.
    pub writes: u64,
    /// How many writes added a block.
    pub accepted: u64,
    /// How many writes were of a block that the store held.
    pub held: u64,
    /// Reads.
    pub reads: u64,
    /// How many reads gave a block.
    pub found: u64,
    /// How many reads there was no block for.
    pub missing: u64,
    /// How many syncs were answered.
    pub syncs: u64,
    /// How often all devices crashed.
    pub crashes: u64,
    /// Blocks that crashes cut off.
    pub lost: u64,
    /// Blocks that the store has at the end.
    pub blocks: u64,
    /// Answers and recovered lengths that were compared with the plain list.
    pub compared: u64,
    /// Whether all of these were those of the list.
    pub ok: bool,
}

impl Summary {
    /// Nothing was done yet.
    pub(crate) fn new() -> Self
        ensures { result ≡ nothing_done }
    {
        Summary {
            events: 0,
            writes: 0,
            accepted: 0,
            held: 0,
            reads: 0,
            found: 0,
            missing: 0,
            syncs: 0,
            crashes: 0,
            lost: 0,
            blocks: 0,
            compared: 0,
            ok: true,
        }
    }
}
