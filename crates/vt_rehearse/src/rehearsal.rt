//! Rehearsals: the store is made, the rounds are drawn and done one after another, and counted.

ghost use Rattle.sha1.specs.Sha1.{sha1};
ghost use Rattle.std.specs.Prelude.{◌≡◌, IfOk};
ghost use Rattle.vt_empty.specs.Store.{AreFresh};
ghost use Rattle.vt_rehearse.specs.Counts.{nothing_done};
ghost use Rattle.vt_rehearse.specs.Limits.{AreAtMost, GrowsByRound, ROUNDS_MOST};
ghost use Rattle.vt_rehearse.specs.Rehearsal.{MakesRound, MakesAll};
ghost use Rattle.vt_rehearse.specs.Rounds.{IsDrawn, rounds_from};
ghost use Rattle.vt_rehearse.specs.Shape.{the_shape};
ghost use Rattle.vt_rehearse.specs.Stage.{AreAlike, IsMemory};
ghost use Rattle.vt_rehearse.specs.Summary.{AddsUp, IsRehearsal, IsRehearsalOf};
ghost use Rattle.vt_rehearse.specs.Words.{AreApart};

use crate::crashing::{Crashable, crash};
use crate::draws::Draws;
use crate::opening::{SHAPE, open};
use crate::reading::{look_up_all, read};
use crate::rounds::Round;
use crate::stage::Stage;
use crate::summary::Summary;
use crate::words::WORDS;
use crate::working::{sync, work};
use crate::writing::write;
use std::alloc::{AllocError, Global};
use vt_base::{Scorer, Sha1Scorer};
use vt_core::Event;
use vt_empty::fresh_devices;
use vt_out::Progress;
use vt_recover::Devices;

/// No two words have one score by SHA-1, and none has the zero score.
fn words_are_apart()
    ensures { AreApart sha1 }
{}

/// Rehearses a store on disks in memory, which starts without blocks: it makes just so many rounds,
/// which are drawn from a number, and looks all words up at the end. After each crash the store is
/// mounted again on what that left.
///
/// Whatever the store answers, and how many blocks it has behind a crash, is compared with a plain
/// list of the words that it accepted. The numbers are those that it gave, and nothing differs. It
/// fails for want of memory alone.
pub fn rehearse<P: Progress>(
    alloc: Global,
    progress: &mut P,
    seed: u64,
    count: u32,
) -> Result<Summary, AllocError>
    ensures rehearsal { IfOk result (IsRehearsalOf seed count) }
    ensures adds_up { IfOk result (AddsUp (rounds_from seed count)) }
{
    words_are_apart();
    let devices = fresh_devices(alloc, &SHAPE)?;
    rehearse_on(alloc, devices, Sha1Scorer, progress, seed, count)
}

/// Rehearses on newly formatted devices in memory, with any scorer.
fn rehearse_on<D: Crashable, S: Scorer + Copy + Drop, P: Progress>(
    alloc: Global,
    devices: Devices<D>,
    scorer: S,
    progress: &mut P,
    seed: u64,
    count: u32,
) -> Result<Summary, AllocError>
    requires memory { IsMemory D.Disk }
    requires apart { AreApart S.score_of }
    requires fresh { AreFresh D.Disk the_shape devices }
    ensures rehearsal { IfOk result (IsRehearsal S.score_of D.Disk D.leaves seed count) }
    ensures adds_up { IfOk result (AddsUp (rounds_from seed count)) }
{
    let listed = Vec::with_capacity(alloc, WORDS as usize)?;
    let core = open(alloc, devices, scorer)?;
    let stage = Stage {
        core,
        listed,
        summary: Summary::new(),
    };
    let mut stage = make_rounds(stage, alloc, scorer, progress, seed, count)?;
    look_up_all(&mut stage, alloc)?;
    let mut summary = stage.summary();
    summary.blocks = stage.history_len();
    Ok(summary)
}

/// Makes one round behind the other. Each is drawn from the seed and its number.
fn make_rounds<D: Crashable, S: Scorer + Copy + Drop, P: Progress>(
    mut stage: Stage<D, S>,
    alloc: Global,
    scorer: S,
    progress: &mut P,
    seed: u64,
    count: u32,
) -> Result<Stage<D, S>, AllocError>
    requires memory { IsMemory D.Disk }
    requires apart { AreApart S.score_of }
    requires alike { AreAlike S.score_of D.Disk stage }
    requires none { stage.summary ≡ nothing_done }
    ensures makes { IfOk result
        (MakesAll S.score_of D.Disk D.leaves (rounds_from seed count) stage) }
    ensures alike { IfOk result (AreAlike S.score_of D.Disk) }
    ensures most { IfOk result (λ it. AreAtMost ROUNDS_MOST it.summary) }
{
    let mut draws = Draws::new(seed);
    for made in 0..count {
        stage = make(stage, alloc, scorer, Round::draw(&mut draws))?;
        progress.report(u64::from(made) + 1, u64::from(count));
    }
    Ok(stage)
}

/// Does one round, each as its kind says.
fn make<D: Crashable, S: Scorer + Copy + Drop>(
    mut stage: Stage<D, S>,
    alloc: Global,
    scorer: S,
    round: Round,
) -> Result<Stage<D, S>, AllocError>
    requires memory { IsMemory D.Disk }
    requires apart { AreApart S.score_of }
    requires round { IsDrawn round }
    requires alike { AreAlike S.score_of D.Disk stage }
    requires most { AreAtMost ROUNDS_MOST stage.summary }
    ensures makes { IfOk result (MakesRound S.score_of D.Disk D.leaves round stage) }
    ensures alike { IfOk result (AreAlike S.score_of D.Disk) }
    ensures grows { IfOk result (λ it. GrowsByRound stage.summary it.summary) }
{
    match round {
        Round::Write { session, word } => {
            write(&mut stage, alloc, session, word)?;
            Ok(stage)
        }
        Round::Read { session, word } => {
            read(&mut stage, alloc, session, word)?;
            Ok(stage)
        }
        Round::Sync { session } => {
            sync(&mut stage, alloc, session);
            Ok(stage)
        }
        Round::Commit => Ok(work(stage, alloc, Event::LogAdvance)),
        Round::Begin { shard } => Ok(work(stage, alloc, Event::FileBegin(shard))),
        Round::Advance { shard } => Ok(work(stage, alloc, Event::FileAdvance(shard))),
        Round::Evict { shard } => {
            let stage = work(stage, alloc, Event::EvictLump(shard));
            Ok(work(stage, alloc, Event::EvictIndex(shard)))
        }
        Round::Crash { mode } => crash(stage, alloc, scorer, mode),
    }
}
