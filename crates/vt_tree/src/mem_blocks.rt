//! A store of blocks in memory, in which tests keep archives; the store `:memory:` of the program is another one, a
//! whole store on disks in memory.

ghost use Rattle.std.specs.Prelude.{◌≡◌, ◌==◌, ◌&&◌, not, find};
ghost use Rattle.std.specs.List.{list_any};
ghost use Rattle.std.specs.Option.{option_copied};
ghost use Rattle.std.specs.Str.{bytes_eq};

use crate::{BlockErr, Blocks};
use std::alloc::{AllocError, Global};
use std::marker::Model;
use vt_base::{Bytes, Key, Kind, Score, Scorer, Text};

/// A block, and what it is found by.
#[derive(Drop)]
pub struct Stored {
    pub key: Key,
    pub bytes: Bytes,
}

/// A list of blocks in memory, searched from the front. Its calls are counted from 0, and it keeps
/// the keys of what was given and of what was taken.
#[derive(Drop)]
pub struct MemBlocks<S: Scorer> {
    scorer: S,
    /// In the order in which they were put, each once.
    kept: Vec<Stored>,
    /// How many of the first blocks were there at the last sync.
    synced: usize,
    /// The numbers of the calls that fail.
    failing: Vec<u64>,
    /// The numbers of the calls that are refused.
    refusing: Vec<u64>,
    /// How many calls were made.
    calls: u64,
    /// How many of them have failed.
    faults: u64,
    /// How many were refused for a reason other than want of memory.
    refusals: u64,
    /// The keys of the blocks that were given, in order.
    gets: Vec<Key>,
    /// The keys of the blocks that were taken in, in order.
    puts: Vec<Key>,
}

impl<S: Scorer> Model for MemBlocks<S> {
    ghost use Rattle.std.specs.Prelude.{◌≡◌, map};
    ghost use Rattle.std.specs.List.{All};
    ghost use Rattle.vt_tree.specs.Memory.{BlocksMemory, block_of, IsKeptBlock};

    ghost Value = { BlocksMemory };

    ghost view = { λ m. record {
      blocks = map block_of m.kept.items;
      synced = m.synced;
      failing = m.failing.items;
      refusing = m.refusing.items;
      calls = m.calls;
      counts = record { faults = m.faults; refusals = m.refusals };
      gets = m.gets.items;
      puts = m.puts.items;
    } };

    ghost invariant = { λ m. All (IsKeptBlock S.score_of) m.kept.items };
}

impl<S: Scorer> MemBlocks<S> {
    ghost use Rattle.std.specs.Prelude.{◌≡◌, ◌≤◌, [], ◌∷◌, ◌++◌, length, map, IfSome};
    ghost use Rattle.std.specs.Option.{option_copied};
    ghost use Rattle.vt_base.specs.declared.TheConstants.{MAX_BLOCK};
    ghost use Rattle.vt_tree.specs.Maps.{no_blocks};
    ghost use Rattle.vt_tree.specs.Memory.{HoldsInMemory, block_of, held_in};

    /// No blocks. A call is refused only where a block is absent, or collides with another.
    pub fn new(alloc: Global, scorer: S) -> Self
        ensures is { result ≡ record {
          blocks = [];
          synced = 0;
          failing = [];
          refusing = [];
          calls = 0;
          counts = record { faults = 0; refusals = 0 };
          gets = [];
          puts = [];
        } }
        ensures holds { HoldsInMemory S.score_of result
            (record { held = no_blocks S.score_of; synced = no_blocks S.score_of }) }
    {
        MemBlocks {
            scorer,
            kept: Vec::new(alloc),
            synced: 0,
            failing: Vec::new(alloc),
            refusing: Vec::new(alloc),
            calls: 0,
            faults: 0,
            refusals: 0,
            gets: Vec::new(alloc),
            puts: Vec::new(alloc),
        }
    }

    /// The calls with these numbers fail, in place of those that were named before.
    pub fn failing(self, calls: Vec<u64>) -> Self
        ensures { result ≡ record self { failing = calls.items } }
    {
        let mut blocks = self;
        blocks.failing = calls;
        blocks
    }

    /// The calls with these numbers are refused, but for those that fail, in place of those that
    /// were named before.
    pub fn refusing(self, calls: Vec<u64>) -> Self
        ensures { result ≡ record self { refusing = calls.items } }
    {
        let mut blocks = self;
        blocks.refusing = calls;
        blocks
    }

    /// The bytes of this type and score, or None where none are kept. The zero score has no bytes.
    pub fn held(&self, kind: Kind, score: &Score) -> Option<&[u8]>
        ensures found { option_copied result ≡ held_in S.score_of self.now score.now.0 kind }
        ensures most { IfSome result (λ bytes. length bytes.now ≤ MAX_BLOCK) }
    {
        if *score == self.scorer.score(&[]) {
            return Some(&[]);
        }
        let key = Key {
            score: *score,
            kind,
        };
        let block = find_key(&self.kept, &key)?;
        Some(block.bytes.as_slice())
    }

    /// The blocks, in the order in which they were put, each once.
    pub fn blocks(&self) -> &[Stored]
        ensures { map block_of result.now ≡ self.now.blocks }
    {
        &self.kept
    }

    /// How many of them the last sync that was answered has covered.
    pub fn synced(&self) -> usize
        ensures { result ≡ self.now.synced }
    {
        self.synced
    }

    /// The keys of the blocks that were given, in order.
    pub fn gets(&self) -> &[Key]
        ensures { result.now ≡ self.now.gets }
    {
        &self.gets
    }

    /// The keys of the blocks that were taken, in order, also of those that were there.
    pub fn puts(&self) -> &[Key]
        ensures { result.now ≡ self.now.puts }
    {
        &self.puts
    }

    /// How many calls have failed.
    pub fn faults(&self) -> u64
        ensures { result ≡ self.now.counts.faults }
    {
        self.faults
    }

    /// How many calls were refused for a reason other than want of memory.
    pub fn refusals(&self) -> u64
        ensures { result ≡ self.now.counts.refusals }
    {
        self.refusals
    }
}

/// The first block that has this key.
fn find_key<'a>(blocks: &'a [Stored], key: &Key) -> Option<&'a Stored>
    ensures { let k = key.now in
        option_copied result
        ≡ find (λ b. bytes_eq b.key.score.0 k.score.0 && b.key.kind == k.kind) blocks.now }
{
    blocks.iter().find(|b| b.key == *key)
}

/// Whether a block has this score and other bytes.
fn has_other_bytes(blocks: &[Stored], score: &Score, bytes: &[u8]) -> bool
    ensures { let s = score.now.0 in
        result
        ≡ list_any (λ b. bytes_eq b.key.score.0 s && not (bytes_eq b.bytes bytes.now)) blocks.now }
{
    blocks
        .iter()
        .any(|b| b.key.score == *score && b.bytes.as_slice() != bytes)
}

/// What is to become of a call.
#[derive(Clone, Copy)]
enum Fate {
    /// It is answered with a fault.
    Fails,
    /// It is refused, whatever is kept.
    IsRefused,
    /// It is answered by what is kept.
    GoesOn,
}

impl<S: Scorer> MemBlocks<S> {
    ghost use Rattle.std.specs.Prelude.{◌≡◌, ◌≤◌, [], ◌∷◌, ◌++◌, length, Some, IfOk, IfSome};
    ghost use Rattle.std.specs.Prelude.{OnOk, OnErr, MatchBool, ℕ};
    ghost use Rattle.vt_base.specs.Faults.{one_more};
    ghost use Rattle.vt_base.specs.declared.TheConstants.{MAX_BLOCK};
    ghost use Rattle.vt_tree.specs.Calls.{with_refusal, put};
    ghost use Rattle.vt_tree.specs.declared.error.BlockErr.{BlockErr};
    ghost use Rattle.vt_tree.specs.Memory.{held_in, MeetsFate, IsByText, GivesInMemory};
    ghost use Rattle.vt_tree.specs.Maps.{HasNoOther};
    ghost use Rattle.vt_tree.specs.Memory.{TakesInMemory, Collides, blocks_after};

    /// Counts a call, and tells what is to become of it.
    fn begin(&mut self) -> Fate
        ensures fate { MeetsFate result self.old }
        ensures left { self.new ≡ record self.old { calls = one_more self.old.calls } }
    {
        let call = self.calls;
        self.calls = call.saturating_add(1);
        if self.failing.contains(&call) {
            Fate::Fails
        } else if self.refusing.contains(&call) {
            Fate::IsRefused
        } else {
            Fate::GoesOn
        }
    }

    /// Counts a fault, and answers it.
    fn fault(&mut self) -> BlockErr
        ensures err { result ≡ BlockErr.Fault }
        ensures left { self.new
            ≡ record self.old { counts = with_refusal (Some result) self.old.counts } }
    {
        self.faults = self.faults.saturating_add(1);
        BlockErr::Fault
    }

    /// A refusal with this text, counted.
    fn refusal(&mut self, alloc: Global, text: &str) -> BlockErr
        ensures err { IsByText text.now result }
        ensures left { self.new
            ≡ record self.old { counts = with_refusal (Some result) self.old.counts } }
    {
        match Text::copy_of(alloc, text.as_bytes()) {
            Ok(text) => {
                self.refusals = self.refusals.saturating_add(1);
                BlockErr::Refused(text)
            }
            Err(AllocError) => BlockErr::NoMemory,
        }
    }

    /// The block of a key, which is noted. It is refused where there is none.
    fn give(&mut self, alloc: Global, key: Key) -> Result<Bytes, BlockErr>
        ensures given { GivesInMemory S.score_of self.old self.new key result }
        ensures most { IfOk result (λ bytes. length bytes ≤ MAX_BLOCK) }
    {
        let Some(bytes) = self.copy_held(alloc, &key)? else {
            return Err(self.refusal(alloc, "no such block"));
        };
        match self.gets.push(key) {
            Ok(()) => Ok(bytes),
            Err(_) => Err(BlockErr::NoMemory),
        }
    }

    /// A copy of the bytes of a key.
    fn copy_held(&self, alloc: Global, key: &Key) -> Result<Option<Bytes>, AllocError>
        ensures found { IfOk result (λ found.
            found ≡ held_in S.score_of self.now key.now.score.0 key.now.kind) }
        ensures most { IfOk result (λ found. IfSome found (λ bytes. length bytes ≤ MAX_BLOCK)) }
    {
        match self.held(key.kind, &key.score) {
            Some(bytes) => Ok(Some(Bytes::copy_of(alloc, bytes)?)),
            None => Ok(None),
        }
    }

    /// Takes a block in, if none with its score has other bytes, and notes its key.
    fn take(&mut self, alloc: Global, kind: Kind, bytes: &[u8]) -> Result<Score, BlockErr>
        requires { length bytes.now ≤ MAX_BLOCK }
        ensures { TakesInMemory S.score_of self.old self.new
            (record { kind = kind; bytes = bytes.now }) result }
    {
        let score = self.scorer.score(bytes);
        if self.collides(&score, bytes) {
            return Err(self.refusal(alloc, "score collision"));
        }
        match self.add(alloc, Key { score, kind }, bytes) {
            Ok(()) => Ok(score),
            Err(AllocError) => Err(BlockErr::NoMemory),
        }
    }

    /// Whether a block, or no bytes, has this score, which is that of these bytes, and is other
    /// than they.
    fn collides(&self, score: &Score, bytes: &[u8]) -> bool
        requires { score.now.0 ≡ S.score_of bytes.now }
        ensures { MatchBool result (Collides S.score_of self.now bytes.now) ((kind : ℕ) →
            HasNoOther S.score_of (held_in S.score_of self.now)
            (record { kind = kind; bytes = bytes.now })) }
    {
        if *score == self.scorer.score(&[]) {
            return !bytes.is_empty();
        }
        has_other_bytes(&self.kept, score, bytes)
    }

    /// Adds a block, unless it is there, and notes its key; or, where memory is short, nothing.
    fn add(&mut self, alloc: Global, key: Key, bytes: &[u8]) -> Result<(), AllocError>
        requires own { key.score.0 ≡ S.score_of bytes.now }
        requires most { length bytes.now ≤ MAX_BLOCK }
        ensures ok { OnOk result (self.new ≡ record self.old {
          blocks = blocks_after S.score_of self.old
              (put (record { kind = key.kind; bytes = bytes.now }) (Ok key.score));
          puts = self.old.puts ++ key ∷ [];
        }) }
        ensures err { OnErr result (self.new ≡ self.old) }
    {
        let is_there = self.held(key.kind, &key.score).is_some();
        self.puts.reserve(1)?;
        if !is_there {
            let bytes = Bytes::copy_of(alloc, bytes)?;
            self.kept.push(Stored { key, bytes })?;
        }
        self.puts.push(key)?;
        Ok(())
    }
}

impl<S: Scorer> Scorer for MemBlocks<S> {
    ghost score_of = { S.score_of };

    ghost score_len = { S.score_len };

    ghost score_bytes = { S.score_bytes };

    /// The score by its scorer.
    fn score(&self, block: &[u8]) -> Score {
        self.scorer.score(block)
    }
}

impl<S: Scorer> Blocks for MemBlocks<S> {
    ghost use Rattle.vt_tree.specs.Memory.{DoesInMemory, HoldsInMemory};
    ghost use Rattle.vt_tree.specs.MemoryLaws as laws;

    ghost does = { DoesInMemory S.score_of };

    ghost holds = { HoldsInMemory S.score_of };

    ghost counts = { λ m. m.counts };

    ghost tells = { λ m m' call maps does holds. laws.tells S.score_of m m' call maps does holds };

    ghost synced_is_held = { λ m maps holds. laws.synced_is_held S.score_of m maps holds };

    ghost write_once = { λ m maps holds. laws.write_once S.score_of m maps holds };

    ghost counting = { λ m m' call does. does.leaves.counts };

    /// The block that is kept under this type and score, unless the call is one of those that fail
    /// or are refused.
    fn get(&mut self, alloc: Global, kind: Kind, score: &Score) -> Result<Bytes, BlockErr> {
        match self.begin() {
            Fate::Fails => Err(self.fault()),
            Fate::IsRefused => Err(self.refusal(alloc, "refused on demand")),
            Fate::GoesOn => self.give(
                alloc,
                Key {
                    score: *score,
                    kind,
                },
            ),
        }
    }

    /// Keeps the block, unless the call is one of those that fail or are refused.
    fn put(&mut self, alloc: Global, kind: Kind, bytes: &[u8]) -> Result<Score, BlockErr> {
        match self.begin() {
            Fate::Fails => Err(self.fault()),
            Fate::IsRefused => Err(self.refusal(alloc, "refused on demand")),
            Fate::GoesOn => self.take(alloc, kind, bytes),
        }
    }

    /// All blocks that it keeps are synced, unless the call is one of those that fail or are
    /// refused.
    fn sync(&mut self, alloc: Global) -> Result<(), BlockErr> {
        match self.begin() {
            Fate::Fails => Err(self.fault()),
            Fate::IsRefused => Err(self.refusal(alloc, "refused on demand")),
            Fate::GoesOn => {
                self.synced = self.kept.len();
                Ok(())
            }
        }
    }
}
