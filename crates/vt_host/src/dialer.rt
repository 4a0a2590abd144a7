//! Connections over TCP.

ghost use Rattle.std.specs.Prelude.{◌≡◌, ℕ, List, IfSome, IsSomeAnd};
ghost use Rattle.vt_host.specs.Dialling.{NamesHost};

use crate::faults::Faults;
use crate::link::StdLink;
use crate::system::Connector;
use std::str;
use vt_base::Failed;
use vt_conf::Address;
use vt_dial::Dialer;
use vt_out::Link;

/// Makes connections over TCP. A host is told by its number or by its name, whose addresses are
/// tried in order.
#[derive(Drop)]
pub struct StdDialer<N> {
    /// What makes the connections.
    net: N,
    /// Failed calls of `dial`.
    faults: Faults,
    // Of the link that is back, or none: what became of it is told with its counts.
    /// Failed calls of its `take`, and below that of its `put`.
    read_faults: Faults,
    write_faults: Faults,
}

impl<N: Connector> StdDialer<N> {
    ghost use Rattle.vt_host.specs.Dialling.{dialer_faults, dialer_net};

    /// A dialer whose connections this makes; no call has failed.
    pub fn new(net: N) -> Self
        ensures net { dialer_net result ≡ net }
        ensures faults { dialer_faults result ≡ 0 }
    {
        StdDialer {
            net,
            faults: Faults::new(),
            read_faults: Faults::new(),
            write_faults: Faults::new(),
        }
    }
}

/// The name of an address's host, if it is that of one, and UTF-8.
fn name_in(address: &Address) -> Option<&str>
    ensures name { IfSome result (λ name. NamesHost address.now name.now) }
    ensures only { (name : List ℕ) → NamesHost address.now name
        → IsSomeAnd result (λ found. found.now ≡ name) }
{
    str::from_utf8(address.host.as_ref()?.as_slice()).ok()
}

impl<N: Connector> Dialer for StdDialer<N>
where
    N::Input: Drop,
    N::Output: Drop,
{
    ghost use Rattle.std.specs.Prelude.{◌≡◌, [], IsTrue, IsSome, IfOk, OnOk, OnErr};
    ghost use Rattle.vt_base.specs.Faults.{HasCause};
    ghost use Rattle.vt_dial.specs.Dialled.{IsFreshLink, with_back, with_link};
    ghost use Rattle.vt_host.specs.Dialling.{Connects, dialer_faults, dialer_net, linked_of};
    ghost use Rattle.vt_host.specs.Streams.{link_sink, link_source, sink_output, source_input};

    type Link = StdLink<N::Input, N::Output>;

    ghost tells = { N.tells };

    ghost dialled = { λ dialer. linked_of (N.dialled dialer.net) dialer };

    ghost faults = { dialer_faults };

    ghost faults_fit = { λ dialer. dialer.faults.fits };

    /// One connection is made at most.
    fn dial(&mut self, address: &Address) -> Result<StdLink<N::Input, N::Output>, Failed>
        ensures host { OnOk result (IsSome address.now.host) }
        ensures fresh { IfOk result (IsFreshLink ⟦<StdLink<N::Input, N::Output> as Link>⟧) }
        ensures unread { IfOk result (λ link. IsTrue N.Input.tells
            → N.Input.made (source_input (link_source link)) ≡ []) }
        ensures unwritten { IfOk result (λ link. IsTrue N.Output.tells
            → N.Output.made (sink_output (link_sink link)) ≡ []) }
        ensures connects { IsTrue N.tells → Connects address.now result
            (N.connected (dialer_net self.old)) (N.connected (dialer_net self.new)) }
        ensures made { OnOk result (IsTrue N.tells
            → linked_of (N.dialled (dialer_net self.new)) self.new
            ≡ with_link address.now (linked_of (N.dialled (dialer_net self.old)) self.old)) }
        ensures none { OnErr result (IsTrue N.tells
            → linked_of (N.dialled (dialer_net self.new)) self.new
            ≡ linked_of (N.dialled (dialer_net self.old)) self.old) }
        ensures cause { HasCause result (dialer_faults self.old) (dialer_faults self.new) }
    {
        let Some(name) = name_in(address) else {
            self.faults.count_one();
            return Err(Failed);
        };
        let (input, output) = self.faults.counted(self.net.connect(name, address.port))?;
        Ok(StdLink::new(input, output))
    }

    /// Closes the connection.
    fn done(&mut self, link: StdLink<N::Input, N::Output>)
        ensures back { IsTrue N.tells
            → linked_of (N.dialled (dialer_net self.new)) self.new
            ≡ with_back link (linked_of (N.dialled (dialer_net self.old)) self.old) }
        ensures connected { IsTrue N.tells
            → N.connected (dialer_net self.new) ≡ N.connected (dialer_net self.old) }
        ensures faults { dialer_faults self.new ≡ dialer_faults self.old }
    {
        let (input, output, read_faults, write_faults) = link.into_parts();
        self.net.close(input, output);
        self.read_faults = read_faults;
        self.write_faults = write_faults;
    }
}
