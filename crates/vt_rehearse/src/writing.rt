//! The rounds of a rehearsal that write: a session hands in a word, and what it is told is compared
//! with the plain list.

ghost use Rattle.std.specs.Prelude.{◌≡◌, ◌≢◌, ◌<◌, Bool, OnOk};
ghost use Rattle.vt_base.specs.declared.answer.Said.{Said};
ghost use Rattle.vt_base.specs.declared.why.Why.{Why};
ghost use Rattle.vt_rehearse.specs.Limits.{AreAtMost, GrowsByRound, MOST};
ghost use Rattle.vt_rehearse.specs.Rehearsal.{AsksToWrite, WritesWord, listed_after};
ghost use Rattle.vt_rehearse.specs.Stage.{AreAlike, IsMemory};
ghost use Rattle.vt_rehearse.specs.Words.{AreApart};
ghost use Rattle.vt_rehearse.specs.declared.TheConstants.{SESSIONS};
ghost use Rattle.vt_rehearse.specs.declared.words.TheConstants.{WORDS};

use crate::stage::Stage;
use crate::verdicts::ran_out;
use crate::words::{DATA, Word};
use std::alloc::{AllocError, Global};
use vt_base::{Operation, Said, Scorer};
use vt_core::{Event, Out};
use vt_disk::Disk;

/// A session writes a word. What the store says is compared with the list, and a word that it takes
/// in is listed.
pub(crate) fn write<D: Disk, S: Scorer>(
    stage: &mut Stage<D, S>,
    alloc: Global,
    session: u32,
    word: u32,
) -> Result<(), AllocError>
    requires memory { IsMemory D.Disk }
    requires apart { AreApart S.score_of }
    requires session { session < SESSIONS }
    requires word { word < WORDS }
    requires alike { AreAlike S.score_of D.Disk stage.old }
    requires most { AreAtMost MOST stage.old.summary }
    ensures writes { OnOk result
        (WritesWord S.score_of D.Disk session word stage.old stage.new) }
    ensures alike { OnOk result (AreAlike S.score_of D.Disk stage.new) }
    ensures grows { OnOk result (GrowsByRound stage.old.summary stage.new.summary) }
{
    let before = stage.history_len();
    let said = ask_to_write(stage, alloc, session, word);
    if ran_out(&said) {
        return Err(AllocError);
    }
    stage.judge_write(word, &said, before);
    let is_held = stage.history_len() == before;
    stage.note_write(word, is_held);
    Ok(())
}

/// Asks for a word to be written. It is never told to come again: the log's queue, the shard and
/// the arenas have room for all words.
fn ask_to_write<D: Disk, S: Scorer>(
    stage: &mut Stage<D, S>,
    alloc: Global,
    session: u32,
    word: u32,
) -> Said
    requires memory { IsMemory D.Disk }
    requires apart { AreApart S.score_of }
    requires session { session < SESSIONS }
    requires word { word < WORDS }
    requires alike { AreAlike S.score_of D.Disk stage.old }
    ensures right { result ≢ Said.Refused Why.NoMemory → (is_held : Bool)
        × (it : AsksToWrite S.score_of D.Disk session word stage.old.listed is_held
        stage.old.core stage.new.core) × (it.said ≡ result)
        × AreAlike S.score_of D.Disk
        (record stage.new { listed = listed_after is_held word stage.old.listed }) }
    ensures same { stage.new ≡ record stage.old { core = stage.new.core } }
{
    let block = Word::new(word);
    let event = Event::Ask {
        session,
        operation: Operation::Write {
            kind: DATA,
            bytes: block.as_slice(),
        },
        now: 0,
    };
    stage.dirty_entries_differ();
    match stage.step_apart(alloc, event) {
        Out::Said(answer) => answer.said,
        _ => unreachable!(),
    }
}
