//! What is said of a store's answer.

ghost use Rattle.std.specs.Prelude.{◌≡◌, ℕ, List, length};
ghost use Rattle.vt_base.specs.Operations.{reply_saying, result_of};
ghost use Rattle.vt_base.specs.Protocol.{Operation};
ghost use Rattle.vt_wire.specs.Messages.{FitsReply};
ghost use Rattle.vt_wire.specs.Views.{reply_of as reply_in};
ghost use Rattle.vt_handler.specs.Serving.{Suits, asked_of_store, failure_of as failure_in};

use vt_base::{Said, Score, Why, why_text};
use vt_wire::Reply;

/// The reply that says what a store answers.
pub fn reply(said: &Said) -> Reply<'_>
    ensures says { reply_in result ≡ reply_saying said.now }
    ensures fits { (score_of : List ℕ → List ℕ) (m : Operation)
        → Suits score_of (asked_of_store m) said.now
        → FitsReply (reply_in result) }
{
    match said {
        Said::Synced => Reply::Sync,
        Said::Score(score) => {
            is_whole(*score);
            Reply::Write(*score)
        }
        Said::Block(block) => Reply::Read(block.as_slice()),
        Said::Refused(why) => Reply::Error(why_text(why).as_bytes()),
    }
}

/// Tells the proof that a score has 20 bytes.
fn is_whole(score: Score)
    ensures { length score.0 ≡ 20 }
{}

/// Why the store failed, if it isn't the model that refuses.
pub fn failure_of(said: &Said) -> Option<Why>
    ensures { result ≡ failure_in (result_of said.now) }
{
    match said {
        Said::Refused(
            why @ (Why::DiskFault | Why::Stopped(_) | Why::Damaged { .. } | Why::NoMemory),
        ) => Some(*why),
        _ => None,
    }
}
