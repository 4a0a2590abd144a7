//! Why a client is to be refused.

use vt_base::Score;
use vt_client::ClientErr;

/// What a client is to be told in place of an answer.
#[derive(Clone, Copy)]
pub(crate) enum Refusal {
    /// The server's text.
    Remote(&'static [u8]),
    ReadFault,
    WriteFault,
    Cut,
    /// The reply is wrong at this byte.
    BadReply(usize),
    NoVersion,
    /// Another score than this one.
    Not(Score),
    Spent,
}

/// Whether a client was told this.
pub(crate) fn is_refusal(bad: &ClientErr, refusal: Refusal) -> bool {
    match refusal {
        Refusal::Remote(text) =>
            matches!(bad, ClientErr::Remote(found) if found.as_slice() == text),
        Refusal::ReadFault => matches!(bad, ClientErr::ReadFault),
        Refusal::WriteFault => matches!(bad, ClientErr::WriteFault),
        Refusal::Cut => matches!(bad, ClientErr::Cut),
        Refusal::BadReply(place) => matches!(bad, ClientErr::BadReply(found) if *found == place),
        Refusal::NoVersion => matches!(bad, ClientErr::NoVersion),
        Refusal::Not(score) => matches!(bad, ClientErr::WrongScore { want, .. } if *want == score),
        Refusal::Spent => matches!(bad, ClientErr::Spent),
    }
}
