//! A client as a store of blocks.

ghost use Rattle.std.specs.Prelude.{◌≡◌};
ghost use Rattle.vt_client.specs.Stores.{IsToldAs};

use crate::{Client, ClientErr};
use std::alloc::{AllocError, Global};
use vt_base::{Bytes, Kind, Score, Scorer, Text};
use vt_out::Link;
use vt_tree::{BlockErr, Blocks};

impl<L: Link, S: Scorer + Drop> Scorer for Client<L, S> {
    ghost score_of = { S.score_of };

    ghost score_len = { S.score_len };

    ghost score_bytes = { S.score_bytes };

    /// The score by its scorer.
    fn score(&self, block: &[u8]) -> Score {
        self.scorer.score(block)
    }
}

impl<L: Link, S: Scorer + Drop> Client<L, S> {
    ghost use Rattle.std.specs.Prelude.{◌≡◌, Some};
    ghost use Rattle.std.specs.Option.{option_or};
    ghost use Rattle.vt_tree.specs.Calls.{with_refusal};
    ghost use Rattle.vt_client.specs.Stores.{IsToldAs};

    /// What a refusal is to who sees a store of blocks, counted; why the first was is kept.
    fn refuse(&mut self, alloc: Global, why: ClientErr) -> BlockErr
        ensures err { IsToldAs why result }
        ensures left { self.new ≡ record self.old {
          counts = with_refusal (Some result) self.old.counts;
          refused = option_or self.old.refused (Some why);
        } }
    {
        let err = told(alloc, &why);
        self.refused = self.refused.take().or(Some(why));
        match err {
            BlockErr::Fault => self.faults = self.faults.saturating_add(1),
            BlockErr::NoMemory => {}
            BlockErr::Refused(_) | BlockErr::WrongScore { .. } | BlockErr::Damaged { .. } => {
                self.refusals = self.refusals.saturating_add(1)
            }
        }
        err
    }
}

/// The refusal that says why, or want of memory for its text.
fn told(alloc: Global, why: &ClientErr) -> BlockErr
    ensures { IsToldAs why.now result }
{
    let text = match why {
        ClientErr::ReadFault | ClientErr::WriteFault => return BlockErr::Fault,
        ClientErr::WrongScore { want, found } => {
            let (want, found) = (*want, *found);
            return BlockErr::WrongScore { want, found };
        }
        ClientErr::NoMemory => return BlockErr::NoMemory,
        ClientErr::Remote(text) => text.as_slice(),
        ClientErr::Cut => b"peer cut".as_slice(),
        ClientErr::BadReply(_) => b"bad reply".as_slice(),
        ClientErr::NoVersion => b"no version".as_slice(),
        ClientErr::Spent => b"client spent".as_slice(),
    };
    match Text::copy_of(alloc, text) {
        Ok(text) => BlockErr::Refused(text),
        Err(AllocError) => BlockErr::NoMemory,
    }
}

/// A server tells nothing of what it holds, and others may write to it.
impl<L: Link, S: Scorer + Drop> Blocks for Client<L, S> {
    ghost use Rattle.vt_client.specs.Stores.{DoesAsClient};

    ghost does = { DoesAsClient L.Link S.score_of };

    ghost holds = { λ c m. ⊥ };

    ghost counts = { λ c. c.counts };

    ghost tells = { λ c c' call m does held. absurd held };

    ghost synced_is_held = { λ c m held. absurd held };

    ghost write_once = { λ c m held. absurd held };

    ghost counting = { λ c c' call does. does.counts };

    /// Asks the server for the block, as `Client::get`. A refusal is counted, and why the first was
    /// is kept.
    fn get(&mut self, alloc: Global, kind: Kind, score: &Score) -> Result<Bytes, BlockErr> {
        match Client::get(self, alloc, kind, score) {
            Ok(bytes) => Ok(bytes),
            Err(why) => Err(self.refuse(alloc, why)),
        }
    }

    /// Sends the block to the server, as `Client::put`, and counts it where it was taken in. A
    /// refusal is counted, and why the first was is kept.
    fn put(&mut self, alloc: Global, kind: Kind, bytes: &[u8]) -> Result<Score, BlockErr> {
        match Client::put(self, alloc, kind, bytes) {
            Ok(score) => {
                self.sent = self.sent.saturating_add(1);
                Ok(score)
            }
            Err(why) => Err(self.refuse(alloc, why)),
        }
    }

    /// Asks the server to commit all, as `Client::sync`. A refusal is counted, and why the first
    /// was is kept.
    fn sync(&mut self, alloc: Global) -> Result<(), BlockErr> {
        match Client::sync(self, alloc) {
            Ok(()) => Ok(()),
            Err(why) => Err(self.refuse(alloc, why)),
        }
    }
}
