//! Operations of sessions: reads, writes and syncs, and how each is answered.

ghost use Rattle.std.specs.Prelude.{◌≡◌, ◌<◌, ◌≤◌, ◌++◌, ◌∷◌, [], ◌^◌, ℕ, IsTrue, None, Ok, Some, length, slice_get};
ghost use Rattle.std.specs.Option.{option_or};
ghost use Rattle.vt_base.specs.Protocol.{write};
ghost use Rattle.vt_base.specs.declared.operation.Operation.{Operation};
ghost use Rattle.vt_icache.specs.Index.{dirty_info};
ghost use Rattle.vt_log.specs.Log.{has_next};
ghost use Rattle.vt_model.specs.Answer.{answer};
ghost use Rattle.vt_model.specs.History.{Accepted, History, IsBlock};
ghost use Rattle.vt_shard.specs.Shard.{HasScore, ShardState};
ghost use Rattle.vt_core.specs.declared.event.Event.{Event};
ghost use Rattle.vt_lookup.specs.declared.writing.Verdict.TheVariants.{New};
ghost use Rattle.vt_core.specs.Asking.{lent, says, shard_of};
ghost use Rattle.vt_core.specs.Core.{setup_of};
ghost use Rattle.vt_lookup.specs.Finding.{parts_of};
ghost use Rattle.vt_core.specs.Machine.{WaitsForNone};
ghost use Rattle.vt_core.specs.Serving.{AddsIfRoom, FindsBlock, TestsBlock};
ghost use Rattle.vt_core.specs.Sound.{IsSound};

use crate::event::Out;
use crate::laws::crash_gives_a_prefix;
use crate::store::Core;
use std::alloc::Global;
use std::marker::Brand;
use std::sync::ledger::{Blank, Ledger};
use vt_base::{Answer, Bytes, Key, Kind, MAX_BLOCK, Operation, Said, Score, Scorer, Why};
use vt_clump::pack;
use vt_disk::Disk;
use vt_lookup::{Verdict, add_block, find_block, test_write};

impl<D: Disk, S: Scorer> Core<D, S> {
    ghost use Rattle.vt_core.specs.Steps.{Steps};
    ghost use Rattle.vt_core.specs.Whole.{IsWhole};

    /// What a session asks.
    pub(crate) fn ask(
        &mut self,
        alloc: Global,
        session: u32,
        operation: Operation<'_>,
        now: u32,
    ) -> Out
        requires { session < length self.old.waiting }
        ensures { Steps S.score_of D.Disk (Event.Ask session operation.entry now) result
            self.old self.new }
    {
        crash_gives_a_prefix::<D>();
        if self.waiting[session as usize].is_some() {
            return Out::Nothing;
        }
        match operation {
            Operation::Read { score, kind, count } => self.ask_read(alloc, score, kind, count),
            Operation::Write { kind, bytes } => self.ask_write(alloc, kind, bytes, now),
            Operation::Sync => self.ask_sync(session, now),
        }
    }

    /// A sync: the session waits from now on for all that was accepted.
    fn ask_sync(&mut self, session: u32, now: u32) -> Out
        requires session { session < length self.old.waiting }
        requires free { WaitsForNone self.old.waiting session }
        ensures { Steps S.score_of D.Disk (Event.Ask session Operation.Sync now) result
            self.old self.new }
    {
        crash_gives_a_prefix::<D>();
        let at = self.log.front();
        if let Some(call) = self.log.stopped() {
            return say(Said::Refused(Why::Stopped(call)), at);
        }
        self.waiting[session as usize] = Some(at);
        Out::Waits
    }

    // ---- reads

    /// A read: the block of a score and type, where the reader takes so many bytes.
    fn ask_read(&mut self, alloc: Global, score: Score, kind: u8, count: u32) -> Out
        ensures { (session now : ℕ) → WaitsForNone self.old.waiting session
            → Steps S.score_of D.Disk (Event.Ask session (Operation.Read score kind count) now)
            result self.old self.new }
    {
        crash_gives_a_prefix::<D>();
        let at = self.log.front();
        let Some(kind) = Kind::from_wire(kind) else {
            return say(Said::Refused(Why::BadType), at);
        };
        if score == self.log.zero_score() {
            return say(lend(Ok(Some(Bytes::from_vec(Vec::new(alloc)))), count), at);
        }
        let key = Key { score, kind };
        let found = self.find(alloc, &key);
        say(lend(found, count), at)
    }

    /// The block of a key, which isn't the zero score's.
    fn find(&mut self, alloc: Global, key: &Key) -> Result<Option<Bytes>, Why>
        ensures finds { FindsBlock S.score_of D.Disk key.now result self.old self.new }
        ensures whole { IsWhole D.Disk self.old }
    {
        self.find_on::<Brand>(alloc, key, Blank::new(1))
    }

    /// Looks for a key as `find` does, on a new ledger, in which steps are counted in contracts
    /// alone (`vt_base`).
    fn find_on<L: Ledger>(
        &mut self,
        alloc: Global,
        key: &Key,
        blank: Blank,
    ) -> Result<Option<Bytes>, Why>
        requires name { blank.name ≡ L.name }
        requires parts { blank.parts ≡ L.parts }
        requires some { 0 < L.parts }
        ensures finds { FindsBlock S.score_of D.Disk key.now result self.old self.new }
        ensures whole { IsWhole D.Disk self.old }
    {
        let shard = self.shard_of(&key.score) as usize;
        let may_have = self.bits.may_have(&key.score);
        let mut steps = vt_base::Steps::<L>::new(blank);
        find_block(
            alloc,
            &mut self.log,
            &mut self.shards[shard],
            may_have,
            key,
            &mut steps,
        )
    }

    // ---- writes

    /// A write: a block that can be one is looked for.
    fn ask_write(&mut self, alloc: Global, kind: u8, block: &[u8], now: u32) -> Out
        ensures { (session : ℕ) → WaitsForNone self.old.waiting session
            → Steps S.score_of D.Disk (Event.Ask session (Operation.Write kind block.entry) now)
            result self.old self.new }
    {
        crash_gives_a_prefix::<D>();
        let at = self.log.front();
        let Some(kind) = Kind::from_wire(kind) else {
            return say(Said::Refused(Why::BadType), at);
        };
        if block.len() > MAX_BLOCK {
            return say(Said::Refused(Why::TooBig), at);
        }
        let score = self.log.score(block);
        if block.is_empty() {
            return say(Said::Score(score), at);
        }
        self.write(alloc, &Key { score, kind }, block, now)
    }

    /// It is taken in, unless it is held or refused, or there is no room for it yet.
    fn write(&mut self, alloc: Global, key: &Key, block: &[u8], now: u32) -> Out
        requires block { IsBlock (record { kind = key.now.kind; bytes = block.now }) }
        requires scored { key.now.score.0 ≡ S.score_of block.now }
        ensures { (session : ℕ) → WaitsForNone self.old.waiting session
            → Steps S.score_of D.Disk (Event.Ask session (Operation.Write key.now.kind block.entry)
            now) result self.old self.new }
    {
        crash_gives_a_prefix::<D>();
        vt_bloom::marked_scores_stay();
        vt_model::laws::collides_by_number();
        vt_model::laws::refusals_add_nothing();
        let at = self.log.front();
        let shard = self.shard_of(&key.score) as usize;
        if let Some(call) = self.stop_for(shard) {
            return say(Said::Refused(Why::Stopped(call)), at);
        }
        if key.score == self.log.zero_score() {
            return say(Said::Refused(Why::Collision), at);
        }
        match self.test(alloc, shard, key, block) {
            Ok(Verdict::Held) => say(Said::Score(key.score), at),
            Ok(Verdict::New) => self.add(alloc, shard, key, block, now),
            Err(why) => say(Said::Refused(why), at),
        }
    }

    /// Tests a block of a key, which isn't the zero score's: whether it or another one of its score
    /// is held, and whether its bucket and the arenas have room (`test_write` of vt_lookup). One
    /// that is new can be added.
    fn test(&mut self, alloc: Global, shard: usize, key: &Key, block: &[u8]) -> Result<Verdict, Why>
        requires shard { shard ≡ shard_of self.old key.now.score.0 }
        requires has { (s : ShardState D) → slice_get self.old.shards shard ≡ Some s
            → HasScore s key.now.score.0 }
        requires within { shard < length self.old.shards }
        requires most { length block.now < 2 ^ 32 }
        ensures tests { TestsBlock S.score_of D.Disk key.now block.now result self.old self.new }
        ensures fits { result ≡ Ok New → IsTrue (has_next self.new.log (length block.now)) }
        ensures absent { (s : ShardState D) → result ≡ Ok New
            → slice_get self.new.shards shard ≡ Some s → dirty_info key.now s.index ≡ None }
    {
        self.test_on::<Brand>(alloc, shard, key, block, Blank::new(1))
    }

    /// Tests a write as `test` does, on a new ledger, in which steps are counted in contracts alone
    /// (`vt_base`).
    fn test_on<L: Ledger>(
        &mut self,
        alloc: Global,
        shard: usize,
        key: &Key,
        block: &[u8],
        blank: Blank,
    ) -> Result<Verdict, Why>
        requires shard { shard ≡ shard_of self.old key.now.score.0 }
        requires has { (s : ShardState D) → slice_get self.old.shards shard ≡ Some s
            → HasScore s key.now.score.0 }
        requires within { shard < length self.old.shards }
        requires most { length block.now < 2 ^ 32 }
        requires name { blank.name ≡ L.name }
        requires parts { blank.parts ≡ L.parts }
        requires some { 0 < L.parts }
        ensures tests { TestsBlock S.score_of D.Disk key.now block.now result self.old self.new }
        ensures fits { result ≡ Ok New → IsTrue (has_next self.new.log (length block.now)) }
        ensures absent { (s : ShardState D) → result ≡ Ok New
            → slice_get self.new.shards shard ≡ Some s → dirty_info key.now s.index ≡ None }
    {
        let may_have = self.bits.may_have(&key.score);
        let mut steps = vt_base::Steps::<L>::new(blank);
        test_write(
            alloc,
            &mut self.log,
            &mut self.shards[shard],
            may_have,
            key,
            block,
            &mut steps,
        )
    }

    /// Adds a block that is new, where the queue and its shard have room.
    fn add(&mut self, alloc: Global, shard: usize, key: &Key, block: &[u8], now: u32) -> Out
        requires within { shard < length self.old.shards }
        requires has { (s : ShardState D) → slice_get self.old.shards shard ≡ Some s
            → HasScore s key.now.score.0 }
        requires some { 0 < length block.now }
        requires most { length block.now ≤ MAX_BLOCK }
        requires scored { key.now.score.0 ≡ S.score_of block.now }
        requires fits { IsTrue (has_next self.old.log (length block.now)) }
        requires absent { (s : ShardState D) → slice_get self.old.shards shard ≡ Some s
            → dirty_info key.now s.index ≡ None }
        ensures adds { (s : ShardState D) → slice_get self.old.shards shard ≡ Some s
            → AddsIfRoom S.score_of key.now block.now now shard (parts_of self.old.log s) result
            self.old self.new }
        ensures sound { (h : History) (added : Accepted) → IsTrue D.tells
            → IsSound S.score_of D.Disk self.old h
            → (answer S.score_of (setup_of self.old) h (write key.now.kind block.now)).added
            ≡ Some added → result ≡ says (Said.Score key.now.score) self.old
            → IsSound S.score_of D.Disk self.new (h ++ added ∷ []) }
    {
        vt_bloom::marked_scores_stay();
        vt_clump::clumps_are_told_apart();
        vt_model::laws::refusals_add_nothing();
        vt_model::laws::sections_have_ranges();
        vt_shard::others_are_added::<D>();
        let at = self.log.front();
        if self.log.queue_full() {
            return Out::NotYet;
        }
        if self.shards[shard].spare() == 0 {
            return Out::NotYet;
        }
        let Ok(packed) = pack(alloc, key.kind, block, key.score, now) else {
            return say(Said::Refused(Why::NoMemory), at);
        };
        add_block(&mut self.log, &mut self.shards[shard], packed);
        self.bits.mark_bits(&key.score);
        say(Said::Score(key.score), at)
    }

    // ---- the parts of a score

    /// The device call at which the log or this shard stopped, if one did.
    fn stop_for(&self, shard: usize) -> Option<u64>
        requires { shard < length self.now.shards }
        ensures { (s : ShardState D) → slice_get self.now.shards shard ≡ Some s
            → result ≡ option_or self.now.log.stopped s.section.stopped }
    {
        self.log.stopped().or(self.shards[shard].stopped())
    }
}

/// What is said of a block that was looked for, to a reader of so many bytes.
fn lend(found: Result<Option<Bytes>, Why>, count: u32) -> Said
    ensures { result ≡ lent count found }
{
    match found {
        Ok(Some(block)) if block.len() > count as usize => Said::Refused(Why::TooSmall),
        Ok(Some(block)) => Said::Block(block),
        Ok(None) => Said::Refused(Why::Absent),
        Err(why) => Said::Refused(why),
    }
}

/// What is said, about so many blocks.
pub(crate) fn say(said: Said, at: u64) -> Out
    ensures { result ≡ Out.Said (record { said = said; at = at }) }
{
    Out::Said(Answer { said, at })
}
