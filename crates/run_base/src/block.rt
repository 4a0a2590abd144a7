//! One block of a store: the words that say which, and what is told where it isn't read or written.

ghost use Rattle.std.specs.Prelude.{◌≡◌, IfErr, IfOk};
ghost use Rattle.vt_base.specs.ScoreText.{SpellsScore};
ghost use Rattle.run_base.specs.Blocks.{IsStoreRefusal, SaysNoScore, SaysNoType, SaysType, refusal_for};

use crate::error::CommandError;
use crate::served::failure_for;
use crate::unopened::told;
use std::alloc::Global;
use vt_base::{Kind, Score, Text, Why, parse_score};
use vt_conf::parse_number;
use vt_out::Sink;
use vt_use::{StoreAt, StoreError};

/// The score that a word spells.
pub fn score_in(word: &Text) -> Result<Score, CommandError>
    ensures good { IfOk result (λ score. SpellsScore score.0 word.now) }
    ensures bad { IfErr result (SaysNoScore word.now) }
{
    match parse_score(word.as_slice()) {
        Ok(score) => Ok(score),
        Err(bad) => Err(CommandError::BadScore(bad.at as u64)),
    }
}

/// The block type that a word says: a number from 0 to 255, if it is that of one.
pub fn type_in(word: &Text) -> Result<Kind, CommandError>
    ensures good { IfOk result (SaysType word.now) }
    ensures bad { IfErr result (SaysNoType word.now) }
{
    let number = match parse_number(word.as_slice(), 0, u64::from(u8::MAX)) {
        Ok(number) => number as u8,
        Err(bad) => return Err(CommandError::BadNumber(bad.at as u64)),
    };
    Kind::from_wire(number).ok_or(CommandError::Refused(Why::BadType))
}

/// What is told where a store at a place isn't used, or says no. The word that names it is that of its
/// configuration's file.
pub fn told_at<T: Sink + Drop>(
    alloc: Global,
    terminal: Option<T>,
    file: &Text,
    at: &StoreAt,
    bad: StoreError,
) -> CommandError
    ensures { IsStoreRefusal file.now bad at.now result }
{
    match bad {
        StoreError::Unopened(bad) => match at {
            StoreAt::Conf(conf) => told(alloc, terminal, file, conf, bad),
            // (a server's store isn't opened, so nothing has failed there)
            StoreAt::Server(_) => CommandError::NoMemory,
        },
        StoreError::Refused(why) => refusal_for(why),
        StoreError::Server(bad) => CommandError::Server(bad),
    }
}

/// What is told where a store says no, or fails.
pub fn refusal_for(why: Why) -> CommandError
    ensures { result ≡ refusal_for why }
{
    match why {
        Why::IndexFull => CommandError::IndexFull,
        Why::ArenasFull => CommandError::ArenasFull,
        Why::BadType | Why::TooBig | Why::TooSmall | Why::Absent | Why::Collision => {
            CommandError::Refused(why)
        }
        Why::DiskFault | Why::Stopped(_) | Why::Damaged { .. } | Why::NoMemory => failure_for(why),
    }
}
