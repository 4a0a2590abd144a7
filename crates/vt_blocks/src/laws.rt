//! What a store is as a store of blocks: what its impl of `Blocks` gives for that trait's ghost members, which the
//! layers above can't see otherwise.

ghost use Rattle.std.specs.Prelude.{◌≡◌, ◌↔◌};
ghost use Rattle.vt_tree.specs.Calls.{Call};
ghost use Rattle.vt_tree.specs.Maps.{Maps};
ghost use Rattle.vt_blocks.specs.Local.{LocalState, DoesLocal, HoldsLocal};

use crate::Local;
use vt_base::Scorer;
use vt_handler::Store;
use vt_tree::Blocks;

/// A store, in the words of stores of blocks.
pub fn store_as_blocks<T: Store, S: Scorer>()
    ensures does { (l l' : LocalState T) (call : Call) →
        ⟦<Local<T, S> as Blocks>⟧.does l call l' ↔ DoesLocal T.Store l call l' }
    ensures holds { (l : LocalState T) (m : Maps) →
        ⟦<Local<T, S> as Blocks>⟧.holds l m ↔ HoldsLocal T.Store S.score_of l m }
    ensures counts { (l : LocalState T) → ⟦<Local<T, S> as Blocks>⟧.counts l ≡ l.counts }
{}
