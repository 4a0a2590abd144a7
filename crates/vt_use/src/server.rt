//! Using a server's store.

ghost use Rattle.std.specs.Prelude.{◌≡◌, IfErr, IfOk, OnErr};
ghost use Rattle.vt_client.specs.Clients.{ClientState};
ghost use Rattle.vt_client.specs.Stores.{DoesAsClient};
ghost use Rattle.vt_use.specs.Change.{dialer_change};
ghost use Rattle.vt_use.specs.Places.{MeetsNone, UsesServer, as_server, holds_nothing};

use crate::block_job::BlockJob;
use crate::used_at::{StoreError, UsedAt};
use std::alloc::Global;
use vt_base::Scorer;
use vt_client::ClientErr;
use vt_conf::Address;
use vt_dial::Dialer;
use vt_remote::{RemoteError, meet, part};

/// Dials a server, greets it, does this with its store, and says goodbye, whatever came of it. Where the
/// server isn't reached, nothing is done.
pub fn use_server<N: Dialer, S: Scorer, X, J: BlockJob<X> + Drop>(
    alloc: Global,
    dialer: &mut N,
    address: &Address,
    scorer: &S,
    job: J,
    beside: &mut X,
) -> Result<UsedAt<J::Output>, StoreError>
    requires { J.fits job beside.old }
    ensures uses { IfOk result (λ used. UsesServer N.Link.Link S.score_of address.now (J.writes job)
        (λ calls c c'. J.does (ClientState N.Link) (DoesAsClient N.Link.Link S.score_of)
        holds_nothing S.score_of job used.output beside.old beside.new calls c c')
        used.refusal used.blocks used.closed
        (dialer_change N.Dialer N.Link.Link dialer.old dialer.new)) }
    ensures none { IfErr result (λ bad. MeetsNone N.Link.Link S.score_of address.now bad
        (dialer_change N.Dialer N.Link.Link dialer.old dialer.new)) }
    ensures untouched { OnErr result (beside.new ≡ beside.old) }
{
    let mut client = match meet(alloc, dialer, address, scorer) {
        Ok(client) => client,
        Err(bad) => return Err(StoreError::Server(bad)),
    };
    let output = job.run(alloc, &mut client, beside);
    let refused = client.take_refused();
    let blocks = client.sent();
    part(dialer, client);
    Ok(UsedAt {
        output,
        refusal: as_server(refused),
        blocks,
        closed: Ok(()),
    })
}

/// Why a server said no first, if it did, as a store's refusal.
fn as_server(refused: Option<ClientErr>) -> Option<StoreError>
    ensures { result ≡ as_server refused }
{
    match refused {
        Some(why) => Some(StoreError::Server(RemoteError::Refused(why))),
        None => None,
    }
}
