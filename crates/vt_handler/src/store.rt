//! The trait of a store that a session asks (`Store`).

ghost use Rattle.std.specs.Prelude.{◌≤◌, ℕ, List, Result, length};
ghost use Rattle.vt_base.specs.declared.why.Why.{Why};
ghost use Rattle.vt_base.specs.Operations.{operation_of, result_of};
ghost use Rattle.vt_base.specs.Protocol.{Operation as Asked, RMessage};
ghost use Rattle.vt_model.specs.History.{History};
ghost use Rattle.vt_handler.specs.Condition.{Condition, ConditionGoesOn};
ghost use Rattle.vt_handler.specs.Serving.{ServesOperation, Suits, TellsCause, asked_of_store};

use std::alloc::Global;
use vt_base::{Operation, Said};

/// A write-once store of blocks, which holds a history of them (Quinlan and Dorward 2002).
///
/// It may be one of several shares of a store, whose history others lengthen: then an answer is
/// about all blocks that were accepted up to it, and the share's own blocks are some of those.
pub trait Store {
    /// The score of a block's bytes.
    ghost score_of: { List ℕ → List ℕ };

    /// What it tells of itself, apart from its history.
    ghost condition: { Self → Condition };

    /// It holds this history: these blocks were accepted, each of them can be read, and, where
    /// others add blocks, it has seen at least these. A store may hold several histories.
    ghost holds: { Self → History → Type 0 };

    /// What an implementation says of its own of an operation, which it answers so: which calls of
    /// its devices it makes, for one.
    ghost does: { Self → Asked → Result RMessage Why → Self → Type 0 };

    /// What it answers to an operation. A block that it takes in is durable from the next sync on.
    fn ask(&mut self, alloc: Global, operation: Operation<'_>) -> Said
        ensures serves { (h : History) → holds self.old h
            → ServesOperation score_of (condition self.old) (condition self.new) (holds self.new) h
            (operation_of operation.entry) (λ reply. reply) (result_of result) }
        ensures cause { TellsCause (condition self.old) (condition self.new) (result_of result) }
        ensures goes_on { ConditionGoesOn (condition self.old) (condition self.new) }
        ensures once { does self.old (operation_of operation.entry) (result_of result) self.new }
        ensures suits { Suits score_of (asked_of_store (operation_of operation.entry)) result };

    /// No more is durable than it holds.
    ghost durable_is_held: { (store : Self) (h : History) → holds store h
        → (condition store).durable ≤ length h };
}
