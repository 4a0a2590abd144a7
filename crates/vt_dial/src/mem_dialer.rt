//! A dialer in memory.

ghost use Rattle.std.specs.Prelude.{◌≡◌, ◌↔◌, ◌<◌, ◌^◌, IfSome, IsTrue};
ghost use Rattle.std.specs.Option.{ForSome};
ghost use Rattle.vt_dial.specs.Dialled.{IsFreshLink};
ghost use Rattle.vt_dial.specs.Places.{waiting_in};

use crate::Dialer;
use crate::place::Place;
use vt_base::{Failed, Text};
use vt_conf::Address;
use vt_out::{Link, MemLink};

/// One server, to which one link can be made.
#[derive(Drop)]
pub struct MemDialer {
    host: Text,
    port: u16,
    /// Where that link is: it waits, is in use or is back; or more than one came back.
    place: Place,
    /// How many calls of `dial` have failed.
    faults: u64,
    ghost fresh: { ForSome (waiting_in place) (IsFreshLink ⟦<MemLink as Link>⟧) },
    ghost faults_fit: { faults < 2 ^ 64 },
}

impl MemDialer {
    ghost use Rattle.std.specs.Prelude.{◌≡◌, ◌≢◌, ◌⊎◌, Some, None, MatchOption};
    ghost use Rattle.vt_dial.specs.Dialled.{IsFreshLink, back, with_link};
    ghost use Rattle.vt_dial.specs.Memory.{dialled_of, dialer_faults, server_of, waiting_of};

    /// A server at this host and port, to which this link can be made.
    pub fn new(host: Text, port: u16, link: MemLink) -> Self
        requires { IsFreshLink ⟦<MemLink as Link>⟧ link }
        ensures server { server_of result ≡ record { host = Some host; port = port } }
        ensures waiting { waiting_of result ≡ Some link }
        ensures faults { dialer_faults result ≡ 0 }
    {
        MemDialer {
            host,
            port,
            place: Place::Waiting(link),
            faults: 0,
        }
    }

    /// The link, if it was made and is back.
    pub fn into_link(self) -> Option<MemLink>
        ensures back { IfSome result (λ link. dialled_of self ≡ back (server_of self) link) }
        ensures only { (link : MemLink) → dialled_of self ≡ back (server_of self) link
            → result ≡ Some link }
    {
        let MemDialer {
            host: _host,
            port: _,
            place,
            faults: _,
        } = self;
        match place {
            Place::Back(link) => Some(link),
            Place::Waiting(_) | Place::Out | Place::Lost => None,
        }
    }

    /// How many calls have failed.
    pub fn faults(&self) -> u64
        ensures { result ≡ dialer_faults self.now }
    {
        self.faults
    }

    /// The link that waits at this address, which then is out; None where none waits there.
    fn lend(&mut self, address: &Address) -> Option<MemLink>
        ensures link { MatchOption result
            ((address.now ≢ server_of self.old) ⊎ (waiting_of self.old ≡ None))
            (λ link. (address.now ≡ server_of self.old) × (waiting_of self.old ≡ Some link)) }
        ensures fresh { IfSome result (IsFreshLink ⟦<MemLink as Link>⟧) }
        ensures left { MatchOption result (dialled_of self.new ≡ dialled_of self.old)
            (λ _. dialled_of self.new ≡ with_link address.now (dialled_of self.old)) }
        ensures server { server_of self.new ≡ server_of self.old }
        ensures faults { dialer_faults self.new ≡ dialer_faults self.old }
    {
        if self.is_at(address) {
            self.place.take()
        } else {
            None
        }
    }

    /// Whether this is the address of the server.
    fn is_at(&self, address: &Address) -> bool
        ensures { IsTrue result ↔ (address.now ≡ server_of self.now) }
    {
        match &address.host {
            Some(host) => host.as_slice() == self.host.as_slice() && address.port == self.port,
            None => false,
        }
    }
}

impl Dialer for MemDialer {
    ghost use Rattle.std.specs.Prelude.{◌≡◌, ◌≢◌, ◌⊎◌, ◌↔◌, true, None, IsErr, IsSome, IfOk, OnOk, OnErr};
    ghost use Rattle.vt_base.specs.Faults.{HasCause};
    ghost use Rattle.vt_dial.specs.Dialled.{IsFreshLink, with_back, with_link};
    ghost use Rattle.vt_dial.specs.Memory.{dialled_of, dialer_faults, server_of, waiting_of};

    type Link = MemLink;

    ghost tells = { true };

    ghost dialled = { dialled_of };

    ghost faults = { dialer_faults };

    ghost faults_fit = { λ dialer. dialer.faults_fit };

    /// Another address than that of the server can't be dialled, and nor can the server a second
    /// time.
    fn dial(&mut self, address: &Address) -> Result<MemLink, Failed>
        ensures link { IfOk result (λ link. waiting_of self.old ≡ Some link) }
        ensures refused { IsErr result
            ↔ ((address.now ≢ server_of self.old) ⊎ (waiting_of self.old ≡ None)) }
        ensures host { OnOk result (IsSome address.now.host) }
        ensures fresh { IfOk result (IsFreshLink ⟦<MemLink as Link>⟧) }
        ensures made { OnOk result
            (dialled_of self.new ≡ with_link address.now (dialled_of self.old)) }
        ensures none { OnErr result (dialled_of self.new ≡ dialled_of self.old) }
        ensures cause { HasCause result (dialer_faults self.old) (dialer_faults self.new) }
        ensures server { server_of self.new ≡ server_of self.old }
    {
        if let Some(link) = self.lend(address) {
            return Ok(link);
        }
        self.faults = self.faults.saturating_add(1);
        Err(Failed)
    }

    /// Takes back the link that is out; where none is, nothing more is told of it.
    fn done(&mut self, link: MemLink)
        ensures back { dialled_of self.new ≡ with_back link (dialled_of self.old) }
        ensures faults { dialer_faults self.new ≡ dialer_faults self.old }
        ensures server { server_of self.new ≡ server_of self.old }
    {
        self.place = match self.place {
            Place::Out => Place::Back(link),
            Place::Waiting(_) | Place::Back(_) | Place::Lost => Place::Lost,
        };
    }
}
