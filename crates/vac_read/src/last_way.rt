//! What is kept of the way of the last reading of a file, so that the next one doesn't ask for it again.

ghost use Rattle.std.specs.Prelude.{◌≡◌, ◌==◌, ◌-◌, ◌≤◌, Some, Err, find, position, min, length};
ghost use Rattle.std.specs.Prelude.{IfErr, IfOk, IfSome, OnErr, OnOk};
ghost use Rattle.std.specs.Option.{option_copied};
ghost use Rattle.vt_base.specs.declared.TheConstants.{MAX_BLOCK};
ghost use Rattle.vac_read.specs.declared.TheConstants.{MAX_WAY};
ghost use Rattle.vt_tree.specs.declared.error.TreeErr.{TreeErr};
ghost use Rattle.vt_tree.specs.Content.{byte_of, size_of};
ghost use Rattle.vt_tree.specs.Entries.{FitsEntry};
ghost use Rattle.vac_read.specs.LastWay.{IsRightWay, ReadsOnWay, keeping, kept_of};
ghost use Rattle.vt_tree.specs.Maps.{Maps};
ghost use Rattle.vt_tree.specs.Reading.{unfit, GivesBytes, IsOfEntry};

use crate::MAX_WAY;
use std::alloc::{AllocError, Global};
use std::marker::Model;
use vt_base::{Bytes, Kind, Score, Scorer};
use vt_tree::{BlockErr, Blocks, Entry, TreeErr, read_range};

/// A block that was on the way.
#[derive(Drop)]
pub struct WayBlock {
    pub kind: Kind,
    pub score: Score,
    pub bytes: Bytes,
}

/// The blocks that were on the way of the last readings, of each type the last one, so that a file which is read part
/// by part, in order, has each block asked for about once. What is kept is of one store: over another one it would be
/// the first one's.
#[derive(Drop)]
pub struct LastWay {
    blocks: Vec<WayBlock>,
}

impl Model for LastWay {
    ghost use Rattle.std.specs.Prelude.{List};
    ghost use Rattle.vac_read.specs.declared.last_way.WayBlock.{WayBlock};
    ghost use Rattle.vac_read.specs.LastWay.{IsBoundedWay};

    ghost Value = { List WayBlock };

    ghost view = { λ w. w.blocks.items };

    ghost invariant = { λ w. IsBoundedWay w.blocks.items };
}

impl LastWay {
    ghost use Rattle.std.specs.Prelude.{[]};

    /// Nothing is kept.
    pub fn new(alloc: Global) -> Self
        ensures { result ≡ [] }
    {
        LastWay {
            blocks: Vec::new(alloc),
        }
    }

    /// A copy of the block of this type and score, if it is kept.
    fn found(&self, alloc: Global, kind: Kind, score: &Score) -> Result<Option<Bytes>, AllocError>
        ensures found { IfOk result (λ found. found ≡ kept_of kind score.now.0 self.now) }
        ensures most { IfOk result (λ found. IfSome found (λ bytes. length bytes ≤ MAX_BLOCK)) }
    {
        match self.kept(kind, score) {
            Some(bytes) => Ok(Some(Bytes::copy_of(alloc, bytes)?)),
            None => Ok(None),
        }
    }

    /// The block of this type and score, if it is kept.
    fn kept(&self, kind: Kind, score: &Score) -> Option<&[u8]>
        ensures found { option_copied result ≡ kept_of kind score.now.0 self.now }
        ensures most { IfSome result (λ bytes. length bytes.now ≤ MAX_BLOCK) }
    {
        let block = find_kind(&self.blocks, kind)?;
        if block.score == *score {
            Some(block.bytes.as_slice())
        } else {
            None
        }
    }

    /// Keeps a copy of a block in place of that of its type.
    fn keep(
        &mut self,
        alloc: Global,
        kind: Kind,
        score: &Score,
        bytes: &[u8],
    ) -> Result<(), AllocError>
        requires { length bytes.now ≤ MAX_BLOCK }
        ensures ok { OnOk result (self.new ≡ keeping MAX_WAY
            (record { kind = kind; score = score.now; bytes = bytes.now }) self.old) }
        ensures err { OnErr result (self.new ≡ self.old) }
    {
        let bytes = Bytes::copy_of(alloc, bytes)?;
        let block = WayBlock {
            kind,
            score: *score,
            bytes,
        };
        if let Some(at) = place_of(&self.blocks, kind) {
            self.blocks[at] = block;
            return Ok(());
        }
        if self.blocks.len() < MAX_WAY {
            self.blocks.push(block)?;
        }
        Ok(())
    }
}

/// The block of this type, if one is kept.
fn find_kind<'a>(blocks: &'a [WayBlock], kind: Kind) -> Option<&'a WayBlock>
    ensures { option_copied result ≡ find (λ b. b.kind == kind) blocks.now }
{
    blocks.iter().find(|b| b.kind == kind)
}

/// Where the block of this type is kept, if one is.
fn place_of(blocks: &[WayBlock], kind: Kind) -> Option<usize>
    ensures { result ≡ position (λ b. b.kind == kind) blocks.now }
{
    blocks.iter().position(|b| b.kind == kind)
}

/// A store of blocks, beside what is kept of the way of the last reading.
#[derive(Drop)]
struct OnWay<'a, B: Blocks> {
    blocks: &'a mut B,
    way: &'a mut LastWay,
    /// Whether memory was short for a copy.
    short: bool,
}

impl<'a, B: Blocks> Scorer for OnWay<'a, B> {
    ghost score_of = { B.score_of };

    ghost score_len = { B.score_len };

    ghost score_bytes = { B.score_bytes };

    /// The score by the store.
    fn score(&self, block: &[u8]) -> Score {
        self.blocks.score(block)
    }
}

impl<'a, B: Blocks> Blocks for OnWay<'a, B> {
    ghost use Rattle.std.specs.Prelude.{◌≡◌};
    ghost use Rattle.vac_read.specs.LastWay.{DoesOnWay};
    ghost use Rattle.vac_read.specs.LastWayLaws as laws;

    ghost does = { λ w call w'. (w'.blocks.ghost_name ≡ w.blocks.ghost_name)
        × (w'.way.ghost_name ≡ w.way.ghost_name)
        × DoesOnWay B.does w.blocks.now w'.blocks.now w.way.now w'.way.now w.short w'.short call };

    // (what the store holds is told by those who lend it)
    ghost holds = { λ w m. ⊥ };

    ghost counts = { λ w. B.counts w.blocks.now };

    ghost tells = { λ w w' call m does holds. absurd holds };

    ghost synced_is_held = { λ w m holds. absurd holds };

    ghost write_once = { λ w m holds. absurd holds };

    ghost counting = { λ w w' call does. laws.counting B.does B.counts B.counting
        w.blocks.now w'.blocks.now w.way.now w'.way.now w.short w'.short call does.2 };

    /// The block that is kept; or else the store's, which is kept then. Where memory was short, no more are asked for.
    fn get(&mut self, alloc: Global, kind: Kind, score: &Score) -> Result<Bytes, BlockErr> {
        if self.short {
            return Err(BlockErr::NoMemory);
        }
        match self.way.found(alloc, kind, score) {
            Ok(Some(bytes)) => Ok(bytes),
            Ok(None) => {
                let block = self.blocks.get(alloc, kind, score)?;
                match self.way.keep(alloc, kind, score, block.as_slice()) {
                    Ok(()) => Ok(block),
                    Err(AllocError) => {
                        self.short = true;
                        Ok(block)
                    }
                }
            }
            Err(AllocError) => {
                self.short = true;
                Err(BlockErr::NoMemory)
            }
        }
    }

    /// Hands the block to the store.
    fn put(&mut self, alloc: Global, kind: Kind, bytes: &[u8]) -> Result<Score, BlockErr> {
        self.blocks.put(alloc, kind, bytes)
    }

    /// Commits all that the store holds.
    fn sync(&mut self, alloc: Global) -> Result<(), BlockErr> {
        self.blocks.sync(alloc)
    }
}

/// So many bytes of a file from this place on, and fewer where it ends before, by what is kept of the way of the last
/// reading. Of the blocks on the way to them, each that isn't kept is asked for once, and is kept then, and no other.
pub(crate) fn range_on_way<B: Blocks>(
    alloc: Global,
    blocks: &mut B,
    way: &mut LastWay,
    entry: &Entry,
    at: u64,
    n: u32,
) -> Result<Bytes, TreeErr>
    requires { FitsEntry entry.now }

    // An entry that can't stand, or is too long, is refused without a call, and no other is.
    ensures unfit { (err : TreeErr) → unfit entry.now ≡ Some err
        → (result ≡ Err err) × (blocks.new ≡ blocks.old) × (way.new ≡ way.old) }
    ensures fit { IfErr result (λ err. IsOfEntry err → unfit entry.now ≡ Some err) }

    ensures reads { ReadsOnWay B.does B.score_of blocks.old blocks.new way.old way.new entry.now at
        (min n (size_of entry.now - at)) result }

    // The same of a store that tells what it holds.
    ensures content { (m : Maps) → B.holds blocks.old m → B.holds blocks.new m
        × (IsRightWay m.held way.old → IsRightWay m.held way.new
        × GivesBytes (byte_of m.held entry.now) at (min n (size_of entry.now - at)) result) }
{
    let mut on = OnWay {
        blocks,
        way,
        short: false,
    };
    let read = read_range(alloc, &mut on, entry, at, n);
    if on.short {
        return Err(TreeErr::NoMemory);
    }
    read
}
