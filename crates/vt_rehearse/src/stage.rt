//! The store that is rehearsed, and the plain list.

ghost use Rattle.std.specs.Prelude.{◌≡◌, ◌≢◌, ◌-◌, ◌<◌, ◌≤◌, ℕ, Bool, false, Some, length, slice_get, take};
ghost use Rattle.std.specs.List.{AllPairs};
ghost use Rattle.vt_base.specs.declared.answer.Said.{Said};
ghost use Rattle.vt_core.specs.Core.{history_len};
ghost use Rattle.vt_core.specs.Events.{IsFor};
ghost use Rattle.vt_core.specs.Steps.{Steps};
ghost use Rattle.vt_rehearse.specs.Counts.{with_compared, with_crash, with_events, with_read, with_synced, with_write};
ghost use Rattle.vt_rehearse.specs.Limits.{AreAtMost, LIMIT};
ghost use Rattle.vt_rehearse.specs.Rehearsal.{IsWordRead, IsWritten, NotesWhether, listed_after};
ghost use Rattle.vt_rehearse.specs.Words.{word_of};
ghost use Rattle.vt_rehearse.specs.declared.TheConstants.{SHARDS};
ghost use Rattle.vt_rehearse.specs.declared.words.TheConstants.{WORDS};
ghost use Rattle.vt_shard.specs.Shard.{ShardState};

use crate::summary::Summary;
use crate::verdicts::{is_read_right, is_sync_right, is_write_right};
use crate::words::Word;
use std::alloc::Global;
use std::marker::Model;
use vt_base::{Answer, Said, Score, Scorer};
use vt_core::{Core, Event, Out};
use vt_disk::Disk;

/// A store that is rehearsed; the words that it accepted, in their order, by which its answers are
/// compared; and what was counted so far.
#[derive(Drop)]
pub(crate) struct Stage<D: Disk, S: Scorer> {
    pub(crate) core: Core<D, S>,
    /// The numbers of the words that were accepted, in order.
    pub(crate) listed: Vec<u32>,
    /// What was counted so far. `step` counts its event, `step_apart` doesn't.
    pub(crate) summary: Summary,
}

impl<D: Disk, S: Scorer> Model for Stage<D, S> {
    ghost use Rattle.std.specs.Prelude.{◌≤◌, vec_capacity};
    ghost use Rattle.vt_rehearse.specs.Stage.{StageState};
    ghost use Rattle.vt_rehearse.specs.declared.words.TheConstants.{WORDS};

    ghost Value = { StageState D };

    ghost view = { λ s. record { core = s.core; listed = s.listed.items; summary = s.summary } };

    // There is room for all words.
    ghost invariant = { λ s. WORDS ≤ vec_capacity s.listed };
}

impl<D: Disk, S: Scorer> Stage<D, S> {
    /// Does one event of a round.
    pub(crate) fn step(&mut self, alloc: Global, event: Event<'_>) -> Out
        requires event { IsFor (length self.old.core.waiting) (length self.old.core.shards) event }
        requires most { AreAtMost LIMIT self.old.summary }
        ensures steps { Steps S.score_of D.Disk event.entry result self.old.core self.new.core }
        ensures same { self.new ≡ record self.old {
          core = self.new.core;
          summary = with_events 1 self.old.summary;
        } }
    {
        self.summary.events += 1;
        self.core.step(alloc, event)
    }

    /// Does one event that isn't counted.
    pub(crate) fn step_apart(&mut self, alloc: Global, event: Event<'_>) -> Out
        requires { IsFor (length self.old.core.waiting) (length self.old.core.shards) event }
        ensures steps { Steps S.score_of D.Disk event.entry result self.old.core self.new.core }
        ensures same { self.new ≡ record self.old { core = self.new.core } }
    {
        self.core.step(alloc, event)
    }

    /// How many blocks the store has.
    pub(crate) fn history_len(&self) -> u64
        ensures { result ≡ history_len self.now.core }
    {
        self.core.history_len()
    }

    /// How many of them are durable.
    pub(crate) fn durable(&self) -> u64
        ensures { result ≡ self.now.core.log.durable }
    {
        self.core.durable()
    }

    /// The score of a block's bytes.
    pub(crate) fn score(&self, block: &[u8]) -> Score
        ensures { result.0 ≡ S.score_of block.now }
    {
        self.core.score(block)
    }

    /// No two dirty entries of a shard are of one key.
    pub(crate) fn dirty_entries_differ(&self)
        requires { length self.now.core.shards ≡ SHARDS }
        ensures { (i : ℕ) (s : ShardState D) → slice_get self.now.core.shards i ≡ Some s
            → AllPairs (λ a b. a.key ≢ b.key) s.index.dirty }
    {
        self.core.spare(0);
        self.core.spare(1);
    }

    /// What was counted so far.
    pub(crate) fn summary(&self) -> Summary
        ensures { result ≡ self.now.summary }
    {
        self.summary
    }

    /// How many words are in the list.
    pub(crate) fn listed_len(&self) -> u64
        ensures { result ≡ length self.now.listed }
    {
        self.listed.len() as u64
    }

    /// Compares what a reader of a word was told.
    pub(crate) fn judge_read(&mut self, word: u32, said: &Said)
        requires word { word < WORDS }
        requires most { AreAtMost LIMIT self.old.summary }
        ensures { NotesWhether ((is_found : Bool)
            × IsWordRead word self.old.listed is_found said.now)
            self.old self.new }
    {
        let is_right = is_read_right(&self.listed, word, said);
        self.compare(is_right);
    }

    /// Compares what a writer of a word was told, before which the store had so many blocks.
    pub(crate) fn judge_write(&mut self, word: u32, said: &Said, before: u64)
        requires word { word < WORDS }
        requires most { AreAtMost LIMIT self.old.summary }
        ensures { NotesWhether ((is_held : Bool) × IsWritten (S.score_of (word_of word)) word
            self.old.listed is_held said.now before (history_len self.old.core)) self.old self.new }
    {
        let own = self.score(Word::new(word).as_slice());
        let after = self.history_len();
        let is_right = is_write_right(&self.listed, word, own, said, before, after);
        self.compare(is_right);
    }

    /// Compares what a session was told that had asked for a sync.
    pub(crate) fn judge_sync(&mut self, answer: &Answer)
        requires { AreAtMost LIMIT self.old.summary }
        ensures { NotesWhether ((answer.now.said ≡ Said.Synced)
            × (answer.now.at ≡ length self.old.listed)) self.old self.new }
    {
        let is_right = is_sync_right(answer, self.listed_len());
        self.compare(is_right);
    }

    /// Compares how many blocks the store has behind a crash, before which so many were synced.
    pub(crate) fn judge_crash(&mut self, synced: u64)
        requires { AreAtMost LIMIT self.old.summary }
        ensures { NotesWhether ((synced ≤ history_len self.old.core)
            × (history_len self.old.core ≤ length self.old.listed)) self.old self.new }
    {
        let left = self.history_len();
        let is_right = synced <= left && left <= self.listed_len();
        self.compare(is_right);
    }

    /// What the store gave was compared, and was right or not.
    fn compare(&mut self, is_right: bool)
        requires { AreAtMost LIMIT self.old.summary }
        ensures { self.new ≡ record self.old {
          summary = with_compared is_right self.old.summary;
        } }
    {
        self.summary.compared += 1;
        self.summary.ok = self.summary.ok && is_right;
    }

    /// Counts a write, which is one event, of a word that the store held, or that it took in; then
    /// it is listed.
    pub(crate) fn note_write(&mut self, word: u32, is_held: bool)
        requires room { is_held ≡ false → length self.old.listed < WORDS }
        requires most { AreAtMost LIMIT self.old.summary }
        ensures { self.new ≡ record self.old {
          listed = listed_after is_held word self.old.listed;
          summary = with_write is_held self.old.summary;
        } }
    {
        self.summary.events += 1;
        self.summary.writes += 1;
        if is_held {
            self.summary.held += 1;
        } else {
            self.listed.push_reserved(word);
            self.summary.accepted += 1;
        }
    }

    /// Counts a read, which is one event, that gave a block, or for which there was none.
    pub(crate) fn note_read(&mut self, is_found: bool)
        requires { AreAtMost LIMIT self.old.summary }
        ensures { self.new ≡ record self.old { summary = with_read is_found self.old.summary } }
    {
        self.summary.events += 1;
        self.summary.reads += 1;
        if is_found {
            self.summary.found += 1;
        } else {
            self.summary.missing += 1;
        }
    }

    /// Counts a sync that was answered.
    pub(crate) fn note_synced(&mut self)
        requires { AreAtMost LIMIT self.old.summary }
        ensures { self.new ≡ record self.old { summary = with_synced self.old.summary } }
    {
        self.summary.syncs += 1;
    }

    /// Counts a crash that left so many blocks, and cuts the list to these.
    pub(crate) fn note_crash(&mut self, left: u64)
        requires few { length self.old.listed ≤ WORDS }
        requires left { left ≤ length self.old.listed }
        requires most { AreAtMost LIMIT self.old.summary }
        ensures { self.new ≡ record self.old {
          listed = take left self.old.listed;
          summary = with_crash (length self.old.listed - left) self.old.summary;
        } }
    {
        self.summary.crashes += 1;
        self.summary.lost += self.listed.len() as u64 - left;
        self.listed.truncate(left as usize);
    }
}
