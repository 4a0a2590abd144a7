//! What is said where the archive can't be read.

ghost use Rattle.std.specs.Prelude.{◌≡◌, ◌≤◌, take};
ghost use Rattle.nine_view.specs.Failures.{failure_words};

use crate::RequestError;
use std::alloc::AllocError;
use vac_read::VacBad;
use vt_tree::{BlockErr, TreeErr};

/// How many bytes of an Rerror stand round its text.
const ERROR_LEN: usize = 9;

/// Why a request has an error for its reply.
#[derive(Drop)]
pub(crate) enum AnswerError {
    /// It can't be done, whatever the archive has.
    Refused(RequestError),
    /// The archive couldn't be read, or memory ran out.
    Failed(VacBad),
}

impl From<RequestError> for AnswerError {
    ghost use Rattle.std.specs.Prelude.{◌≡◌};
    ghost use Rattle.nine_view.specs.declared.error.AnswerError.TheVariants.{Refused};

    ghost from_gives = { λ why denied. denied ≡ Refused why };

    /// Why a message is refused, as it is.
    fn from(why: RequestError) -> Self {
        AnswerError::Refused(why)
    }
}

impl From<VacBad> for AnswerError {
    ghost use Rattle.std.specs.Prelude.{◌≡◌};
    ghost use Rattle.nine_view.specs.declared.error.AnswerError.TheVariants.{Failed};

    ghost from_gives = { λ bad denied. denied ≡ Failed bad };

    /// Why the archive couldn't be read, as it is.
    fn from(bad: VacBad) -> Self {
        AnswerError::Failed(bad)
    }
}

impl From<AllocError> for AnswerError {
    ghost use Rattle.std.specs.Prelude.{◌≡◌};
    ghost use Rattle.vac_read.specs.declared.error.VacBad.TheVariants.{NoMemory as Memory};
    ghost use Rattle.nine_view.specs.declared.error.AnswerError.TheVariants.{Failed};

    ghost from_gives = { λ _ denied. denied ≡ Failed Memory };

    /// Memory that wasn't there is a failure, and no refusal.
    fn from(_error: AllocError) -> Self {
        AnswerError::Failed(VacBad::NoMemory)
    }
}

/// The text of an Rerror of at most so many bytes.
pub(crate) fn failure_words(limit: usize, bad: &VacBad) -> &[u8]
    requires { 256 ≤ limit }
    ensures { result.now ≡ failure_words limit bad.now }
{
    match bad {
        VacBad::Tree(TreeErr::Block(BlockErr::Fault)) => b"disk fault",
        VacBad::Tree(TreeErr::Block(BlockErr::Refused(text))) => {
            first(text.as_slice(), limit - ERROR_LEN)
        }
        VacBad::Tree(TreeErr::Block(BlockErr::WrongScore { .. } | BlockErr::Damaged { .. })) => {
            b"block damaged"
        }
        VacBad::Tree(TreeErr::Block(BlockErr::NoMemory) | TreeErr::NoMemory) | VacBad::NoMemory => {
            b"no memory"
        }
        _ => b"bad archive",
    }
}

/// So many bytes from the front, or all where there are fewer.
pub(crate) fn first(bytes: &[u8], n: usize) -> &[u8]
    ensures { result.now ≡ take n bytes.now }
{
    &bytes[..n.min(bytes.len())]
}
