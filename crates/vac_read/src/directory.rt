//! The entries of a folder.

ghost use Rattle.std.specs.Prelude.{ℕ, ◌≡◌, ◌+◌, ◌*◌, ◌<◌, ◌≤◌, ◌^◌, [], IfOk, MatchOption};
ghost use Rattle.std.specs.Prelude.{length, take, drop};
ghost use Rattle.vt_tree.specs.Content.{size_of};
ghost use Rattle.vt_tree.specs.Entries.{IsTreeEntry};
ghost use Rattle.vac_read.specs.Asking.{ReadsFew, leaf_blocks};
ghost use Rattle.vac_read.specs.Folders.{KeepsLeaf, IsEntryPlace, TellsLeaf, TellsBytes, TellsEntry};
ghost use Rattle.vac_read.specs.Nodes.{IsDirectory};

use crate::VacBad;
use std::alloc::Global;
use vt_base::Bytes;
use vt_tree::{Blocks, ENTRY_LEN, Entry, read_range};

/// A folder's stream of entries, with the leaf of it that was read last.
#[derive(Drop)]
pub(crate) struct Directory {
    /// What leaves take their memory from.
    alloc: Global,
    /// The entry of that stream.
    stream: Entry,
    /// Where the leaf begins in the stream, in bytes.
    start: u64,
    /// The leaf that was read last; none of it, where none was read yet.
    leaf: Bytes,
}

impl Directory {
    /// No leaf was read yet.
    pub(crate) fn new(alloc: Global, stream: Entry) -> Self
        ensures stream { result.stream ≡ stream }
        ensures leaf { result.leaf ≡ [] }
    {
        Directory {
            alloc,
            stream,
            start: 0,
            leaf: Bytes::from_vec(Vec::new(alloc)),
        }
    }

    /// The entry of the stream.
    pub(crate) fn stream(&self) -> &Entry
        ensures { result.now ≡ self.now.stream }
    {
        &self.stream
    }

    /// The entry of this number, which has to be that of a directory, or not; this is the place of
    /// what names it in the folder's metadata.
    pub(crate) fn entry<B: Blocks>(
        &mut self,
        blocks: &mut B,
        number: u64,
        is_dir: bool,
        at: usize,
    ) -> Result<Entry, VacBad>
        requires stream { IsDirectory self.old.stream }
        requires number { number ≤ 2 ^ 32 }
        ensures stream { self.new.stream ≡ self.old.stream }
        ensures entry { IfOk result (λ e. IsTreeEntry e × (e.is_dir ≡ is_dir)) }
        ensures reads { ReadsFew B.does B.holds B.score_of blocks.old blocks.new result
            (λ map. KeepsLeaf map self.old → KeepsLeaf map self.new
            × TellsEntry self.old.stream number is_dir at result map)
            (λ map n. n ≤ leaf_blocks self.old.stream) }
    {
        let Some((start, inside)) = place_of(&self.stream, number) else {
            return Err(VacBad::Meta { at });
        };
        self.read_leaf(blocks, start)?;
        match bytes_at(self.leaf.as_slice(), inside) {
            Some(bytes) => entry_in(bytes, is_dir, at),
            None => Err(VacBad::Meta { at }),
        }
    }

    /// Reads the leaf that begins at this place, unless it is the one that is kept.
    fn read_leaf<B: Blocks>(&mut self, blocks: &mut B, start: u64) -> Result<(), VacBad>
        requires { IsDirectory self.old.stream }
        ensures stream { self.new.stream ≡ self.old.stream }
        ensures reads { ReadsFew B.does B.holds B.score_of blocks.old blocks.new result
            (λ map. KeepsLeaf map self.old → KeepsLeaf map self.new
            × TellsLeaf self.old self.new start result map)
            (λ map n. (leaf : ℕ) → start ≡ leaf * self.old.stream.dsize
            → n ≤ leaf_blocks self.old.stream) }
    {
        if !self.leaf.is_empty() && self.start == start {
            return Ok(());
        }
        let dsize = u32::from(self.stream.dsize);
        self.leaf = read_range(self.alloc, blocks, &self.stream, start, dsize)?;
        self.start = start;
        Ok(())
    }
}

/// How many bytes a stream has.
pub(crate) fn size_of(stream: &Entry) -> u64
    ensures { result ≡ size_of stream.now }
{
    if stream.active { stream.size } else { 0 }
}

/// Where the leaf begins that has the entry of this number, and where the entry stands in it; None
/// where the directory ends before.
fn place_of(stream: &Entry, number: u64) -> Option<(u64, usize)>
    requires stream { IsDirectory stream.now }
    requires number { number ≤ 2 ^ 32 }
    ensures { IsEntryPlace stream.now number result }
{
    let dsize = u64::from(stream.dsize);
    let each = dsize / ENTRY_LEN as u64;
    if each == 0 {
        return None;
    }
    let start = number / each * dsize;
    let inside = number % each * ENTRY_LEN as u64;
    if start + inside + ENTRY_LEN as u64 > size_of(stream) {
        return None;
    }
    Some((start, inside as usize))
}

/// The forty bytes of a leaf from this place on, if they are there.
fn bytes_at(leaf: &[u8], inside: usize) -> Option<&[u8; 40]>
    ensures { MatchOption result (length leaf.now < inside + 40)
        (λ bytes. bytes.now ≡ take 40 (drop inside leaf.now)) }
{
    leaf.get(inside..)?.first_chunk()
}

/// The entry that these bytes are, which has to be that of a directory, or not; this is the place
/// of what names it in the folder's metadata.
pub(crate) fn entry_in(bytes: &[u8; 40], is_dir: bool, at: usize) -> Result<Entry, VacBad>
    ensures { TellsBytes bytes.now is_dir at result }
{
    let entry = Entry::decode(bytes)?;
    if entry.is_dir == is_dir {
        Ok(entry)
    } else {
        Err(VacBad::Meta { at })
    }
}
