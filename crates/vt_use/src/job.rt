//! What is done with a store while it is open.

ghost use Rattle.std.specs.Prelude.{◌≡◌, Bool, false, List};
ghost use Rattle.std.specs.List.{AllByRecursion};
ghost use Rattle.vt_handler.specs.Taking.{DoesCalls};
ghost use Rattle.vt_use.specs.Stores.{Exchange, AddsNothing, StoreOf};

use std::alloc::Global;
use vt_handler::Store;

/// What is done with a store while it is open, whatever store that is. It is lent an `X` beside it:
/// a folder that it reads, or a link that it serves.
pub trait Job<X> {
    /// What comes of it.
    type Output;

    /// When it may be done.
    ghost fits: { (S : Type 0) → StoreOf S → Self → X → Type 0 };

    /// How what comes of it, and what becomes of that beside it, follow from what it asks the store
    /// for. These are all operations that it asks for, and the store before and behind them.
    ghost does: { (S : Type 0) → StoreOf S → Self → Self.Output → (beside beside' : X)
        → List Exchange → (old new : S) → Type 0 };

    /// It may add blocks.
    ghost writes: { Self → Bool };

    /// Whether it may add blocks. Where it doesn't, it only reads.
    fn writes(&self) -> bool
        ensures { result ≡ writes self.now };

    /// Does it, and gives the store back. The store is asked for operations, one after another, and
    /// for nothing else.
    fn run<T: Store>(&self, alloc: Global, store: T, beside: &mut X) -> (Self::Output, T)
        requires { fits T T.Store self.now beside.old }
        ensures { (exchanges : List Exchange) × DoesCalls T.Store store exchanges result.1
            × (writes self.now ≡ false → AllByRecursion AddsNothing exchanges)
            × does T T.Store self.now result.0 beside.old beside.new exchanges store result.1 };
}
