//! The rounds of a rehearsal that read: a session asks for a word, and what it is told is compared
//! with the plain list.

ghost use Rattle.std.specs.Prelude.{◌≡◌, ◌≢◌, ◌<◌, IfOk, OnOk, Bool};
ghost use Rattle.vt_base.specs.declared.answer.Said.{Said};
ghost use Rattle.vt_base.specs.declared.why.Why.{Why};
ghost use Rattle.vt_rehearse.specs.Limits.{AreAtMost, GrowsByRound, MOST, ROUNDS_MOST};
ghost use Rattle.vt_rehearse.specs.Rehearsal.{CountsRead, LooksUpWord, LooksUpAll, ReadsWord};
ghost use Rattle.vt_rehearse.specs.Stage.{AreAlike, IsMemory};
ghost use Rattle.vt_rehearse.specs.Words.{AreApart, all_words};
ghost use Rattle.vt_rehearse.specs.declared.TheConstants.{SESSIONS};
ghost use Rattle.vt_rehearse.specs.declared.words.TheConstants.{WORDS};

use crate::stage::Stage;
use crate::verdicts::{is_block, ran_out};
use crate::words::{DATA, WORDS, Word};
use std::alloc::{AllocError, Global};
use vt_base::{MAX_BLOCK, Operation, Said, Scorer};
use vt_core::{Event, Out};
use vt_disk::Disk;

/// A session reads a word, and what the store says is compared with the list.
pub(crate) fn read<D: Disk, S: Scorer>(
    stage: &mut Stage<D, S>,
    alloc: Global,
    session: u32,
    word: u32,
) -> Result<(), AllocError>
    requires memory { IsMemory D.Disk }
    requires apart { AreApart S.score_of }
    requires session { session < SESSIONS }
    requires word { word < WORDS }
    requires alike { AreAlike S.score_of D.Disk stage.old }
    requires most { AreAtMost MOST stage.old.summary }
    ensures reads { OnOk result
        (CountsRead S.score_of D.Disk session word stage.old stage.new) }
    ensures alike { OnOk result (AreAlike S.score_of D.Disk stage.new) }
    ensures grows { OnOk result (GrowsByRound stage.old.summary stage.new.summary) }
{
    let is_found = look_up(stage, alloc, session, word)?;
    stage.note_read(is_found);
    Ok(())
}

/// Looks all words up, and compares what the store says with the list.
pub(crate) fn look_up_all<D: Disk, S: Scorer>(
    stage: &mut Stage<D, S>,
    alloc: Global,
) -> Result<(), AllocError>
    requires memory { IsMemory D.Disk }
    requires apart { AreApart S.score_of }
    requires alike { AreAlike S.score_of D.Disk stage.old }
    requires most { AreAtMost ROUNDS_MOST stage.old.summary }
    ensures looks { OnOk result (LooksUpAll S.score_of D.Disk all_words stage.old stage.new) }
    ensures alike { OnOk result (AreAlike S.score_of D.Disk stage.new) }
{
    for word in 0..WORDS {
        look_up(stage, alloc, 0, word)?;
    }
    Ok(())
}

/// Asks for a word, compares what the store says with the list, and tells whether it has the word.
fn look_up<D: Disk, S: Scorer>(
    stage: &mut Stage<D, S>,
    alloc: Global,
    session: u32,
    word: u32,
) -> Result<bool, AllocError>
    requires memory { IsMemory D.Disk }
    requires apart { AreApart S.score_of }
    requires session { session < SESSIONS }
    requires word { word < WORDS }
    requires alike { AreAlike S.score_of D.Disk stage.old }
    requires most { AreAtMost MOST stage.old.summary }
    ensures looks { IfOk result (λ is_found.
        LooksUpWord S.score_of D.Disk session word is_found stage.old stage.new) }
    ensures alike { IfOk result (λ _. AreAlike S.score_of D.Disk stage.new) }
{
    let said = ask_to_read(stage, alloc, session, word);
    if ran_out(&said) {
        return Err(AllocError);
    }
    stage.judge_read(word, &said);
    Ok(is_block(&said))
}

/// Asks the store for a word's block, in a session.
fn ask_to_read<D: Disk, S: Scorer>(
    stage: &mut Stage<D, S>,
    alloc: Global,
    session: u32,
    word: u32,
) -> Said
    requires memory { IsMemory D.Disk }
    requires apart { AreApart S.score_of }
    requires session { session < SESSIONS }
    requires word { word < WORDS }
    requires alike { AreAlike S.score_of D.Disk stage.old }
    ensures right { result ≢ Said.Refused Why.NoMemory → (is_found : Bool)
        × (it : ReadsWord S.score_of D.Disk session word stage.old.listed is_found
        stage.old.core stage.new.core) × (it.said ≡ result) }
    ensures alike { AreAlike S.score_of D.Disk stage.new }
    ensures same { stage.new ≡ record stage.old { core = stage.new.core } }
{
    let block = Word::new(word);
    let event = Event::Ask {
        session,
        operation: Operation::Read {
            score: stage.score(block.as_slice()),
            kind: DATA,
            count: MAX_BLOCK as u32,
        },
        now: 0,
    };
    match stage.step_apart(alloc, event) {
        Out::Said(answer) => answer.said,
        _ => unreachable!(),
    }
}
