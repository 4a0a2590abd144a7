//! Stores of blocks.

ghost use Rattle.std.specs.Prelude.{◌≡◌, ◌≤◌, IfOk, length};
ghost use Rattle.vt_base.specs.declared.TheConstants.{MAX_BLOCK};
ghost use Rattle.vt_tree.specs.Calls.{Call, get, put, sync, Counts, refusal_of, with_refusal, TellsOfMap};
ghost use Rattle.vt_tree.specs.Calls.{after};
ghost use Rattle.vt_tree.specs.Maps.{Maps, IsWithin, IsWriteOnce};

use crate::BlockErr;
use std::alloc::Global;
use vt_base::{Bytes, Kind, Score, Scorer};

/// A store of blocks, each found by its type and its score (venti(6)).
///
/// What is known of a call is its answer, and what an implementation says of its own of a call that
/// it answers so: which messages it has put to a peer, for one. A store may also tell what it
/// holds. Then nobody else adds to it, and its answers are true of that. A client of a server tells
/// nothing of it, and nor does a share of a store to which others add.
pub trait Blocks: Scorer {
    /// What an implementation says of a call, which it answers so.
    ghost does: { Self → Call → Self → Type 0 };

    /// It holds the blocks of the one map, and no others, and the last answered sync has covered
    /// those of the other.
    ghost holds: { Self → Maps → Type 0 };

    /// How many of its calls have failed, and how many were refused for a reason other than want of
    /// memory.
    ghost counts: { Self → Counts };

    /// The block of this type and score. It is refused where there is none, and fails where the
    /// store does.
    fn get(&mut self, alloc: Global, kind: Kind, score: &Score) -> Result<Bytes, BlockErr>
        ensures done { does self.old (get kind score.now.0 result) self.new }
        ensures most { IfOk result (λ bytes. length bytes ≤ MAX_BLOCK) };

    /// Takes a block in, and gives its score. It is refused where the store doesn't take it in, and
    /// fails where the store does.
    fn put(&mut self, alloc: Global, kind: Kind, bytes: &[u8]) -> Result<Score, BlockErr>
        requires { length bytes.now ≤ MAX_BLOCK }
        ensures done { does self.old
            (put (record { kind = kind; bytes = bytes.now }) result) self.new }
        ensures scored { IfOk result (λ score. score.0 ≡ Self.score_of bytes.now) };

    /// Commits all that it holds. The allocator is for the text of a refusal.
    fn sync(&mut self, alloc: Global) -> Result<(), BlockErr>
        ensures { does self.old (sync result) self.new };

    /// Each answer is true of what was held, and what is held afterwards is that, with the block
    /// that was put. An answered sync covers it.
    ghost tells: { (s s' : Self) (call : Call) (m : Maps) → does s call s' → holds s m
        → TellsOfMap Self.score_of m.held call × holds s' (after Self.score_of call m) };

    /// No more is synced than is held.
    ghost synced_is_held: { (s : Self) (m : Maps) → holds s m → IsWithin m.synced m.held };

    /// Each block is under its own score, one score has one content, and the zero score none.
    ghost write_once: { (s : Self) (m : Maps) → holds s m → IsWriteOnce Self.score_of m.held };

    /// Each failed call counts, and each refused one, and no other.
    ghost counting: { (s s' : Self) (call : Call) → does s call s'
        → counts s' ≡ with_refusal (refusal_of call) (counts s) };
}
