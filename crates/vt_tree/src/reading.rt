//! Reading a part of a file.

ghost use Rattle.std.specs.Prelude.{◌≡◌, ◌+◌, ◌-◌, ◌*◌, ◌%◌, ◌<◌, ◌≤◌, ◌^◌, Some, [], true};
ghost use Rattle.std.specs.Prelude.{min, length, replicate, IfErr};
ghost use Rattle.vt_tree.specs.declared.error.TreeErr.{TreeErr};
ghost use Rattle.vt_tree.specs.Content.{size_of, scores_in, fits_at, byte_of};
ghost use Rattle.vt_tree.specs.Entries.{FitsEntry};
ghost use Rattle.vt_tree.specs.Maps.{Maps};
ghost use Rattle.vt_tree.specs.Reading.{unfit, IsOfEntry, GivesBytes, ReadsRange};
ghost use Rattle.vt_tree.specs.Walking.{ReadsBelow, ReadsEach};
ghost use Rattle.vt_tree.specs.Walking.{ReadsAt, ReadsFile};
ghost use Rattle.vt_tree.specs.Walking.{ReadsBlock, AppendsBytes, cut_out};

use crate::plain::{fits, leaf_kind, leaves_below, pointer_kind, score_in, size_of};
use crate::{Blocks, Entry, TreeErr};
use std::alloc::Global;
use vt_base::{Bytes, Kind, Score, Scorer};

/// The most bytes of a file, 1 TiB.
pub(crate) const MAX_FILE: u64 = 1 << 40;

const _: () = prove!(MAX_FILE == 1024 * 1024 * 1024 * 1024);

/// So many bytes of a file from this place on, and fewer where it ends before. Each block on the
/// way to them is asked for once, and no other.
pub fn read_range<B: Blocks>(
    alloc: Global,
    blocks: &mut B,
    entry: &Entry,
    at: u64,
    n: u32,
) -> Result<Bytes, TreeErr>
    requires { FitsEntry entry.now }

    // An entry that can't stand, or is too long, is refused without a call, and no other is.
    ensures unfit { (err : TreeErr) → unfit entry.now ≡ Some err
        → (result ≡ Err err) × (blocks.new ≡ blocks.old) }
    ensures fit { IfErr result (λ err. IsOfEntry err → unfit entry.now ≡ Some err) }

    ensures reads { ReadsRange B.does B.score_of blocks.old blocks.new entry.now at
        (min n (size_of entry.now - at)) result }

    // The same of a store that tells what it holds.
    ensures content { (m : Maps) → B.holds blocks.old m → B.holds blocks.new m
        × GivesBytes (byte_of m.held entry.now) at (min n (size_of entry.now - at)) result }
{
    if let Some(bad) = entry.fault() {
        return Err(TreeErr::BadEntry(bad));
    }
    let size = size_of(entry);
    if size > MAX_FILE {
        return Err(TreeErr::TooLong);
    }
    let len = size.saturating_sub(at).min(u64::from(n)) as usize;
    let mut out = Vec::with_capacity(alloc, len)?;
    let zero = blocks.score(&[]);
    let walk = Walk { alloc, entry, zero };
    walk.append_file(blocks, at, len, &mut out)?;
    Ok(Bytes::from_vec(out))
}

/// What a reading of a file goes by.
#[derive(Clone, Copy)]
struct Walk<'a> {
    alloc: Global,
    /// That of the file.
    entry: &'a Entry,
    /// The zero score, below which all bytes are zeros.
    zero: Score,
}

impl<'a> Walk<'a> {
    /// Appends so many bytes of the file from this place on.
    fn append_file<B: Blocks>(
        &self,
        blocks: &mut B,
        from: u64,
        len: usize,
        out: &mut Vec<u8>,
    ) -> Result<(), TreeErr>
        requires depth { self.now.entry.now.depth < 8 }
        requires zero { self.now.zero.0 ≡ B.score_of [] }
        requires fits { 0 < len → (20 ≤ self.now.entry.now.psize) × (0 < self.now.entry.now.dsize) }
        requires room { length out.old.items + len < 2 ^ 64 }
        requires small { from + len < 2 ^ 64 }
        ensures { ReadsFile B.does B.score_of blocks.old blocks.new self.now.entry.now from len
            out.old.items out.new.items result }
    {
        let entry = self.entry;
        let reach = leaves_below(entry.psize, entry.depth) * u128::from(entry.dsize);
        let from = u128::from(from);
        let reached = reach.saturating_sub(from).min(len as u128) as usize;
        if reached == 0 {
            return append_zeros(out, len);
        }
        self.append_below(blocks, entry.depth, &entry.score, from, reached, out)?;
        append_zeros(out, len - reached)
    }

    /// Appends so many bytes below a score, from this place below it on.
    #[cycle(below)]
    fn append_below<B: Blocks>(
        &self,
        blocks: &mut B,
        depth: u8,
        score: &Score,
        from: u128,
        len: usize,
        out: &mut Vec<u8>,
    ) -> Result<(), TreeErr>
        requires depth { depth < 8 }
        requires zero { self.now.zero.0 ≡ B.score_of [] }
        requires fits { (20 ≤ self.now.entry.now.psize) × (0 < self.now.entry.now.dsize) }
        requires some { 0 < len }
        requires room { length out.old.items + len < 2 ^ 64 }
        requires small { from + len < 2 ^ 64 }
        requires reached { from + len
            ≤ scores_in self.now.entry.now.psize ^ depth * self.now.entry.now.dsize }
        ensures { ReadsBelow B.does B.score_of blocks.old blocks.new self.now.entry.now depth
            score.now.0 from len out.old.items out.new.items result }
    {
        if *score == self.zero {
            return append_zeros(out, len);
        }
        if depth == 0 {
            let kind = leaf_kind(self.entry.is_dir);
            let leaf = self.block(blocks, 0, kind, score)?;
            return append_leaf(leaf.as_slice(), from as usize, len, out);
        }
        let pointers = self.block(blocks, depth, pointer_kind(depth), score)?;
        self.append_each(blocks, depth, pointers.as_slice(), from, len, out)
    }

    /// Appends so many bytes below the scores of a pointer block, from this place below it on.
    #[cycle(below)]
    fn append_each<B: Blocks>(
        &self,
        blocks: &mut B,
        depth: u8,
        pointers: &[u8],
        from: u128,
        len: usize,
        out: &mut Vec<u8>,
    ) -> Result<(), TreeErr>
        requires depth { (0 < depth) × (depth < 8) }
        requires zero { self.now.zero.0 ≡ B.score_of [] }
        requires fits { (20 ≤ self.now.entry.now.psize) × (0 < self.now.entry.now.dsize) }
        requires whole { fits_at self.now.entry.now depth pointers.now ≡ true }
        requires some { 0 < len }
        requires room { length out.old.items + len < 2 ^ 64 }
        requires small { from + len < 2 ^ 64 }
        requires reached { from + len
            ≤ scores_in self.now.entry.now.psize ^ depth * self.now.entry.now.dsize }
        ensures { ReadsEach B.does B.score_of blocks.old blocks.new self.now.entry.now (depth - 1)
            pointers.now from len out.old.items out.new.items result }
    {
        let leaves = leaves_below(self.entry.psize, depth - 1);
        let span = leaves * u128::from(self.entry.dsize);
        let mut at = from;
        let mut left = len;
        while left > 0 {
            let most = (span - at % span).min(left as u128) as usize;
            self.append_at(blocks, depth, pointers, span, at, most, out)?;
            at += most as u128;
            left -= most;
        }
        Ok(())
    }

    /// Appends so many bytes that stand below one score of a pointer block, and zeros where it has
    /// none there. So many bytes stand below each of its scores.
    #[cycle(below)]
    fn append_at<B: Blocks>(
        &self,
        blocks: &mut B,
        depth: u8,
        pointers: &[u8],
        span: u128,
        from: u128,
        len: usize,
        out: &mut Vec<u8>,
    ) -> Result<(), TreeErr>
        requires depth { (0 < depth) × (depth < 8) }
        requires zero { self.now.zero.0 ≡ B.score_of [] }
        requires fits { (20 ≤ self.now.entry.now.psize) × (0 < self.now.entry.now.dsize) }
        requires whole { fits_at self.now.entry.now depth pointers.now ≡ true }
        requires some { 0 < len }
        requires room { length out.old.items + len < 2 ^ 64 }
        requires small { from + len < 2 ^ 64 }
        requires span { span
            ≡ scores_in self.now.entry.now.psize ^ (depth - 1) * self.now.entry.now.dsize }
        requires reached { from % span + len ≤ span }
        ensures { ReadsAt B.does B.score_of blocks.old blocks.new self.now.entry.now (depth - 1)
            pointers.now from len out.old.items out.new.items result }
    {
        match score_in(pointers, from / span) {
            Some(below) => self.append_below(blocks, depth - 1, &below, from % span, len, out),
            None => append_zeros(out, len),
        }
    }

    /// A block on the way, which fits the entry. It fails where the store does, or the block has a
    /// length that the entry doesn't allow.
    fn block<B: Blocks>(
        &self,
        blocks: &mut B,
        depth: u8,
        kind: Kind,
        score: &Score,
    ) -> Result<Bytes, TreeErr>
        ensures { ReadsBlock B.does blocks.old blocks.new self.now.entry.now depth kind score.now.0
            result }
    {
        let block = match blocks.get(self.alloc, kind, score) {
            Ok(block) => block,
            Err(err) => return Err(TreeErr::Block(err)),
        };
        if !fits(self.entry, depth, block.as_slice()) {
            return Err(TreeErr::BadBlock {
                depth,
                len: block.len(),
            });
        }
        Ok(block)
    }
}

/// Appends so many zeros.
fn append_zeros(out: &mut Vec<u8>, len: usize) -> Result<(), TreeErr>
    requires room { length out.old.items + len < 2 ^ 64 }
    ensures { AppendsBytes (replicate len 0) out.old.items out.new.items result }
{
    out.resize(out.len() + len, 0)?;
    Ok(())
}

/// Appends so many bytes of a leaf from this place on, zeros where it was cut.
fn append_leaf(leaf: &[u8], from: usize, len: usize, out: &mut Vec<u8>) -> Result<(), TreeErr>
    requires room { length out.old.items + len < 2 ^ 64 }
    ensures { AppendsBytes (cut_out leaf.now from len) out.old.items out.new.items result }
{
    let end = out.len() + len;
    if from < leaf.len() {
        let most = (leaf.len() - from).min(len);
        out.extend_from_slice(&leaf[from..from + most])?;
    }
    out.resize(end, 0)?;
    Ok(())
}
