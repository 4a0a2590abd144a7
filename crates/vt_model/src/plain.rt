//! A store that is one list of blocks, searched from the front.

ghost use Rattle.std.specs.Prelude.{◌≡◌, ◌≢◌, ◌<◌, ◌≤◌, ◌⊎◌, Some, IsSome, nat_le, List, [], ◌∷◌, ◌++◌, length, OnOk, OnErr, IfOk};
ghost use Rattle.std.specs.Option.{option_copied};
ghost use Rattle.vt_base.specs.Protocol.{read, write, r_read, r_write};
ghost use Rattle.vt_model.specs.History.{IsBlock, held};
ghost use Rattle.vt_model.specs.Places.{next_arena, fits, lengths_in, crowd, bucket_of, bucket_count};
ghost use Rattle.vt_model.specs.Answer.{answer_to_write, with_added, collides};
ghost use Rattle.vt_model.specs.Plain.{StandsForReply, answer_of};
ghost use Rattle.vt_model.specs.Verdict.{verdict_outcome};

use crate::layout::{Layout, Left, bucket_of, has_room};
use crate::stored::{Stored, crowd, find_key, has_other_bytes, last_arena, room_left};
use crate::{BUCKET_ROOM, SECTOR_VERSION, WRITTEN_VERSION};
use std::alloc::{AllocError, Global};
use std::marker::Model;
use vt_base::{Bytes, Key, Kind, MAX_BLOCK, Score, Scorer, Why};

/// A write that is answered with its score: that, and where its block is to be added, if it is.
#[derive(Clone, Copy)]
struct Verdict {
    score: Score,
    /// The arena's number; None where the block is held already, or has no bytes.
    arena: Option<usize>,
}

/// A store that is one list of blocks, searched from the front: slow, and plainly right. Tests
/// alone use it, beside the log and the store: crates/vt_log_tests/src/log.rt,
/// crates/vt_core_tests/src/drawn.rt.
#[derive(Drop)]
pub struct PlainStore<S: Scorer> {
    scorer: S,
    /// The arenas and the sections, which say for what there is room.
    layout: Layout,
    /// What was accepted, in that order.
    blocks: Vec<Stored>,
}

impl<S: Scorer> Model for PlainStore<S> {
    ghost use Rattle.vt_model.specs.Plain.{Store};

    ghost Value = { Store };

    ghost use Rattle.vt_model.specs.Stored.{history_of, AreScored};

    ghost view = { λ s. record { setup = s.layout; history = history_of s.blocks.items } };

    ghost invariant = { λ s. AreScored S.score_of s.blocks.items };
}

impl<S: Scorer> PlainStore<S> {
    /// A store without blocks. `arenas` has how many bytes each arena's region has, and `versions`
    /// each one's version; `base` is the first arena that is not sealed, and `sections` has how many
    /// buckets each index section has.
    pub fn new(
        alloc: Global,
        scorer: S,
        arenas: Vec<u32>,
        versions: Vec<u16>,
        base: usize,
        sections: Vec<u32>,
    ) -> Self
        ensures setup { result.setup ≡ record {
          arenas = arenas.items;
          versions = versions.items;
          base = base;
          sections = sections.items;
        } }
        ensures empty { result.history ≡ [] }
    {
        PlainStore {
            scorer,
            layout: Layout::new(arenas, versions, base, sections),
            blocks: Vec::new(alloc),
        }
    }

    /// Takes a block in, and gives its score.
    pub fn write(&mut self, alloc: Global, kind: u8, bytes: &[u8]) -> Result<Score, Why>
        // Nothing but want of memory takes the place of the answer.
        ensures answered { let outcome = answer_of S.score_of self.old (write kind bytes.now) in
            (result ≡ Err Why.NoMemory)
            ⊎ StandsForReply (λ score. r_write score.0) result outcome.reply }
        ensures known { let outcome = answer_of S.score_of self.old (write kind bytes.now) in
            OnOk result (self.new.history ≡ with_added self.old.history outcome.added) }
        ensures err { OnErr result (self.new.history ≡ self.old.history) }
        ensures setup { self.new.setup ≡ self.old.setup }

        // Memory is wanted only for a block that is added.
        ensures memory { result ≡ Err Why.NoMemory →
            IsSome (answer_of S.score_of self.old (write kind bytes.now)).added }
        ensures block { result ≡ Err Why.NoMemory →
            IsBlock (record { kind = kind; bytes = bytes.now }) }
    {
        let kind = Kind::from_wire(kind).ok_or(Why::BadType)?;
        let verdict = self.judge(kind, bytes)?;
        if let Some(arena) = verdict.arena {
            let key = Key {
                score: verdict.score,
                kind,
            };
            self.add(alloc, key, bytes, arena)
                .map_err(|_| Why::NoMemory)?;
        }
        Ok(verdict.score)
    }

    /// The bytes of a block, of which the reader takes `count` at most. They are lent, so no memory
    /// is wanted.
    pub fn read(&self, score: &Score, kind: u8, count: u32) -> Result<&[u8], Why>
        ensures answered { let outcome = answer_of S.score_of self.now (read score.now.0 kind count) in
            StandsForReply (λ bytes. r_read bytes.now) result outcome.reply }
        ensures memory { result ≢ Err Why.NoMemory }
    {
        let kind = Kind::from_wire(kind).ok_or(Why::BadType)?;
        let bytes = self
            .held(&Key {
                score: *score,
                kind,
            })
            .ok_or(Why::Absent)?;
        if bytes.len() > count as usize {
            return Err(Why::TooSmall);
        }
        Ok(bytes)
    }

    /// What becomes of a write of a block type.
    fn judge(&self, kind: Kind, bytes: &[u8]) -> Result<Verdict, Why>
        ensures answer { answer_to_write S.score_of self.now.setup self.now.history kind bytes.now
            ≡ verdict_outcome kind bytes.now result }
        ensures scored { IfOk result (λ v. v.score.0 ≡ S.score_of bytes.now) }
        ensures memory { result ≢ Err Why.NoMemory }
    {
        if bytes.len() > MAX_BLOCK {
            return Err(Why::TooBig);
        }
        let score = self.scorer.score(bytes);
        if bytes.is_empty() {
            return Ok(Verdict { score, arena: None });
        }
        if self.collides(&score, bytes) {
            return Err(Why::Collision);
        }
        if self.held(&Key { score, kind }).is_some() {
            return Ok(Verdict { score, arena: None });
        }
        if self.is_full(&score) {
            return Err(Why::IndexFull);
        }
        let arena = self.next_arena(bytes.len()).ok_or(Why::ArenasFull)?;
        Ok(Verdict {
            score,
            arena: Some(arena),
        })
    }

    /// The bytes under a key: no bytes under the zero score, else those of its block, and None
    /// where there is no such block.
    fn held(&self, key: &Key) -> Option<&[u8]>
        ensures { option_copied result
            ≡ held S.score_of self.now.history key.now.score.0 key.now.kind }
    {
        if key.score == self.scorer.score(&[]) {
            return Some(&[]);
        }
        let block = find_key(&self.blocks, key)?;
        Some(block.bytes.as_slice())
    }

    /// Whether this score is the zero score, or that of a block with other bytes.
    fn collides(&self, score: &Score, bytes: &[u8]) -> bool
        requires { score.now.0 ≡ S.score_of bytes.now }
        ensures { result ≡ collides S.score_of self.now.history bytes.now }
    {
        *score == self.scorer.score(&[]) || has_other_bytes(&self.blocks, score, bytes)
    }

    /// Whether the bucket of a score has no room.
    fn is_full(&self, score: &Score) -> bool
        ensures { let n = bucket_count self.now.setup in
            let taken = crowd S.score_of n self.now.history (bucket_of n score.now.0) in
            result ≡ nat_le BUCKET_ROOM taken }
    {
        let buckets = self.layout.bucket_count();
        crowd(&self.blocks, buckets, bucket_of(buckets, score)) >= BUCKET_ROOM
    }

    /// Where a further block of `len` bytes goes.
    fn next_arena(&self, len: usize) -> Option<usize>
        ensures { result ≡ next_arena self.now.setup self.now.history len }
    {
        let current = self.layout.base().max(last_arena(&self.blocks));
        if self.layout.version_of(current) == WRITTEN_VERSION && self.fits(current, len) {
            return Some(current);
        }
        if self.layout.version_of(current) == SECTOR_VERSION {
            return None;
        }
        let next = self.layout.next(current)?;
        self.fits_empty(next, len).then_some(next)
    }

    /// Whether a further block of `len` bytes fits an arena.
    fn fits(&self, arena: usize, len: usize) -> bool
        ensures { result
            ≡ fits self.now.setup arena (lengths_in arena self.now.history ++ len ∷ []) }
    {
        let version = self.layout.version_of(arena);
        let room = self.layout.room_of(arena);
        match room_left(&self.blocks, arena, version, room) {
            Some(left) => has_room(version, left, len),
            None => false,
        }
    }

    /// Whether a block of `len` bytes fits an arena without blocks.
    fn fits_empty(&self, arena: usize, len: usize) -> bool
        ensures { result ≡ fits self.now.setup arena (len ∷ []) }
    {
        let left = Left {
            room: self.layout.room_of(arena) as u128,
            clumps: 0,
        };
        has_room(self.layout.version_of(arena), left, len)
    }

    /// Puts a new block at the end; on want of memory nothing changes.
    fn add(&mut self, alloc: Global, key: Key, bytes: &[u8], arena: usize) -> Result<(), AllocError>
        requires { key.score.0 ≡ S.score_of bytes.now }
        ensures ok { OnOk result (self.new.history ≡ self.old.history ++ record {
          block = record { kind = key.kind; bytes = bytes.now };
          arena = arena;
        } ∷ []) }
        ensures err { OnErr result (self.new.history ≡ self.old.history) }
        ensures setup { self.new.setup ≡ self.old.setup }
    {
        let bytes = Bytes::copy_of(alloc, bytes)?;
        self.blocks.push(Stored { key, bytes, arena })?;
        Ok(())
    }
}
