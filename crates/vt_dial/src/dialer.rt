//! Links that are made to an address.

ghost use Rattle.std.specs.Prelude.{◌≡◌, ◌<◌, ◌^◌, ℕ, Bool, IsTrue, IsSome, IfOk, OnOk, OnErr};
ghost use Rattle.vt_base.specs.Faults.{HasCause};
ghost use Rattle.vt_dial.specs.Dialled.{Dialled, IsFreshLink, with_link, with_back};

use vt_base::Failed;
use vt_conf::Address;
use vt_out::Link;

/// Makes links to addresses, and takes them back.
pub trait Dialer {
    /// What a connection is handed out as.
    type Link: Link + Drop;

    /// Whether dialers of this type tell what became of their link. That of the system doesn't.
    ghost tells: { Bool };

    /// To which address a link was made, and how it came back, where it tells it.
    ghost dialled: { Self → Dialled Self.Link };

    /// How many calls of `dial` have failed.
    ghost faults: { Self → ℕ };

    /// Makes a link to an address, over which nothing has gone yet. An address that stands for every
    /// host can't be dialled.
    fn dial(&mut self, address: &Address) -> Result<Self::Link, Failed>
        ensures host { OnOk result (IsSome address.now.host) }
        ensures fresh { IfOk result (IsFreshLink Self.Link.Link) }
        ensures made { OnOk result (IsTrue tells
            → dialled self.new ≡ with_link address.now (dialled self.old)) }
        ensures none { OnErr result (IsTrue tells → dialled self.new ≡ dialled self.old) }
        ensures cause { HasCause result (faults self.old) (faults self.new) };

    /// Takes a link back, and so closes it.
    fn done(&mut self, link: Self::Link)
        ensures back { IsTrue tells → dialled self.new ≡ with_back link (dialled self.old) }
        ensures faults { faults self.new ≡ faults self.old };

    /// A count of failed calls is a u64.
    ghost faults_fit: { (dialer : Self) → faults dialer < 2 ^ 64 };
}
