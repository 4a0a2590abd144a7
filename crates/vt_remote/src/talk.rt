//! Meeting a server, and parting from it.

ghost use Rattle.std.specs.Prelude.{◌≡◌, IsTrue, MatchResult};
ghost use Rattle.vt_dial.specs.Dialled.{with_link};
ghost use Rattle.vt_remote.specs.Remote.{MeetsNoServer, Meets, PartsFromServer, link_in};

use std::alloc::Global;
use vt_base::Scorer;
use vt_client::{Client, ClientErr, LinkError};
use vt_conf::Address;
use vt_dial::Dialer;
use vt_out::Link;

/// Why a server at an address wasn't reached, or didn't answer.
#[derive(Debug, Drop)]
pub enum RemoteError {
    /// No link to the address is made.
    Undialled,
    /// The server said no, or something other than what was asked; or the link failed.
    Refused(ClientErr),
}

/// Makes a link to the server at an address, and greets it. Where that fails the link is taken back.
pub fn meet<D: Dialer, S: Scorer + Drop>(
    alloc: Global,
    dialer: &mut D,
    address: &Address,
    scorer: S,
) -> Result<Client<D::Link, S>, RemoteError>
    ensures { MatchResult result
        (λ client. Meets D.Link.Link S.score_of client
        × (IsTrue D.tells → D.dialled dialer.new ≡ with_link address.now (D.dialled dialer.old))
        × (D.faults dialer.new ≡ D.faults dialer.old))
        (λ bad. MeetsNoServer D.Link.Link S.score_of (IsTrue D.tells) address.now
        (D.dialled dialer.old) (D.dialled dialer.new) (D.faults dialer.old)
        (D.faults dialer.new) bad) }
{
    let Ok(link) = dialer.dial(address) else {
        return Err(RemoteError::Undialled);
    };
    match Client::greet(alloc, link, scorer) {
        Ok(client) => Ok(client),
        Err(parted) => {
            dialer.done(parted.link);
            Err(RemoteError::Refused(parted.why))
        }
    }
}

/// Says goodbye to a server, if it still listens, and closes the link to it.
pub fn part<D: Dialer, S: Scorer + Drop>(dialer: &mut D, client: Client<D::Link, S>)
    ensures parts { PartsFromServer D.Link.Link (IsTrue D.tells) client (D.dialled dialer.old)
        (D.dialled dialer.new) }
    ensures faults { D.faults dialer.new ≡ D.faults dialer.old }
{
    dialer.done(link_in(client.goodbye()));
}

/// The link that a goodbye gave back, be it beside a refusal.
fn link_in<L: Link + Drop>(parted: Result<L, LinkError<L>>) -> L
    ensures { result ≡ link_in parted }
{
    match parted {
        Ok(link) => link,
        Err(parted) => parted.link,
    }
}
