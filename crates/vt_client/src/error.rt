//! Why a server's client didn't get what it asked for.

use std::alloc::AllocError;
use vt_base::{Score, Text};

/// Why a client didn't get what it asked for. After one other than `Remote`, `WrongScore` or
/// `NoMemory` each further call answers `Spent`, and touches nothing.
#[derive(Debug, Drop)]
pub enum ClientErr {
    /// The server's Rerror, with its text.
    Remote(Text),
    /// A `take` of the link failed.
    ReadFault,
    /// A `put` of the link failed.
    WriteFault,
    /// What comes in ended before the reply was whole.
    Cut,
    /// What came in place of the reply has something wrong at this byte of its frame: 0 the size, 2
    /// the type, 3 the tag, 4 the parameters, 57,348 a block that is too long.
    BadReply(usize),
    /// The server's line is none, or doesn't offer version 02.
    NoVersion,
    /// The score of the block that came, or the score that was told, isn't the one wanted.
    WrongScore { want: Score, found: Score },
    /// An earlier call has ended the exchange of requests and replies.
    Spent,
    /// Memory ran out.
    NoMemory,
}

impl ClientErr {
    ghost use Rattle.std.specs.Prelude.{◌≡◌};
    ghost use Rattle.vt_client.specs.Clients.{spends};

    /// Whether no reply can be told from another after this one.
    pub(crate) fn spends(&self) -> bool
        ensures { result ≡ spends self.now }
    {
        match self {
            ClientErr::Remote(_) | ClientErr::WrongScore { .. } | ClientErr::NoMemory => false,
            ClientErr::ReadFault
            | ClientErr::WriteFault
            | ClientErr::Cut
            | ClientErr::BadReply(_)
            | ClientErr::NoVersion
            | ClientErr::Spent => true,
        }
    }
}

impl From<AllocError> for ClientErr {
    ghost use Rattle.std.specs.Prelude.{◌≡◌};
    ghost use Rattle.vt_client.specs.declared.error.ClientErr.TheVariants.{NoMemory};

    ghost from_gives = { λ _ err. err ≡ NoMemory };

    /// Memory that wasn't there is `NoMemory`.
    fn from(_error: AllocError) -> Self {
        ClientErr::NoMemory
    }
}

/// A link that is given back beside a refusal.
#[derive(Drop)]
pub struct LinkError<L> {
    pub link: L,
    pub why: ClientErr,
}
