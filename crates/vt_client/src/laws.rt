//! What a client is as a store of blocks: what its impl of `Blocks` gives for that trait's ghost members, which the
//! layers above can't see otherwise.

ghost use Rattle.std.specs.Prelude.{◌≡◌, ◌↔◌};
ghost use Rattle.vt_tree.specs.Calls.{Call};
ghost use Rattle.vt_tree.specs.Maps.{Maps};
ghost use Rattle.vt_client.specs.Clients.{ClientState};
ghost use Rattle.vt_client.specs.Stores.{DoesAsClient};

use crate::Client;
use vt_base::Scorer;
use vt_out::Link;
use vt_tree::Blocks;

/// A client, in the words of stores of blocks. It tells nothing of what the server holds.
pub fn client_as_blocks<L: Link, S: Scorer + Drop>()
    ensures does { (c c' : ClientState L) (call : Call) →
        ⟦<Client<L, S> as Blocks>⟧.does c call c' ↔ DoesAsClient L.Link S.score_of c call c' }
    ensures holds { (c : ClientState L) (m : Maps) → ¬ ⟦<Client<L, S> as Blocks>⟧.holds c m }
    ensures counts { (c : ClientState L) → ⟦<Client<L, S> as Blocks>⟧.counts c ≡ c.counts }
{}
