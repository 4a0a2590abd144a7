//! Writing a stream of bytes as a tree of blocks.

ghost use Rattle.std.specs.Prelude.{◌≡◌, ◌==◌, ◌-◌, ◌≤◌, ◌<◌, ◌^◌, ℕ, List, [], true, false};
ghost use Rattle.std.specs.Prelude.{◌*◌, IsTrue, IfOk, IfErr, OnOk, length, map, take};
ghost use Rattle.std.specs.List.{flat_map};
ghost use Rattle.std.specs.Str.{bytes_eq};
ghost use Rattle.vt_base.specs.Faults.{CountsFault};
ghost use Rattle.vt_tree.specs.declared.error.TreeErr.{TreeErr};
ghost use Rattle.vt_tree.specs.Entries.{IsTreeEntry};
ghost use Rattle.vt_tree.specs.Growing.{next_of, shape_of, IsReadyToWrite, TakesNextLeaf, StopsAhead};
ghost use Rattle.vt_tree.specs.Growing.{HasFirst, GrowsTree, WritesTree, StopsTree};
ghost use Rattle.vt_tree.specs.Growing.{StopsStream, PutsBlock};
ghost use Rattle.vt_tree.specs.Streams.{Shape, leaf_block, pointer_block, tree_of, without_end};
ghost use Rattle.vt_tree.specs.Writing.{IsTaken, IsTakenWhole, IsAll, WritesStream, GivesUpStream};
ghost use Rattle.vt_tree.specs.Writing.{is_source_fault};

use crate::plain::{SCORE_LEN, leaf_kind, pointer_kind};
use crate::reading::MAX_FILE;
use crate::{Blocks, Entry, TreeErr};
use std::alloc::{AllocError, Global};
use vt_base::{Kind, MAX_BLOCK, Score, Scorer};
use vt_out::Source;

/// Writes what a source has left as a tree of blocks (venti(6)), with leaves of dsize bytes and
/// pointer blocks of psize bytes, and gives the entry that stands for it, with generation 0. The
/// source is read once, front to back; one leaf, and the scores of one pointer block of each depth,
/// are in memory. Each block is put once, behind those that it names. More than 2^40 bytes are too
/// long; a failed source, a call of the store that isn't answered and want of memory end it too.
pub fn write_stream<B: Blocks, R: Source>(
    alloc: Global,
    blocks: &mut B,
    source: &mut R,
    dsize: u16,
    psize: u16,
    is_dir: bool,
) -> Result<Entry, TreeErr>
    // So a depth of 7 reaches 2^40 bytes.
    requires dsize_least { 480 ≤ dsize }
    requires dsize_most { dsize ≤ MAX_BLOCK }
    requires psize_least { 500 ≤ psize }
    requires psize_most { psize ≤ MAX_BLOCK }

    ensures written { let shape : Shape
        = record { psize = psize; dsize = dsize; is_dir = is_dir } in
        IfOk result (WritesStream B.does B.holds B.score_of blocks.old blocks.new shape
        (IsTakenWhole R.tells (R.left source.old) (R.left source.new))) }
    ensures entry { IfOk result IsTreeEntry }
    ensures refused { let shape : Shape
        = record { psize = psize; dsize = dsize; is_dir = is_dir } in
        IfErr result (GivesUpStream B.does B.holds B.score_of blocks.old blocks.new shape
        (IsAll R.tells (R.left source.old))) }
    ensures cause { CountsFault is_source_fault result
        (R.faults source.old) (R.faults source.new) }
    ensures keeps { R.kept source.new ≡ R.kept source.old }
{
    let zero = blocks.score(&[]);
    let cut = Cut {
        alloc,
        psize,
        dsize,
        is_dir,
        zero,
    };
    let mut ahead = Ahead::new(alloc, dsize)?;
    ahead.advance(source)?;
    let (depth, score) = cut.tree(blocks, source, &mut ahead)?;
    Ok(Entry {
        generation: 0,
        psize,
        dsize,
        active: true,
        is_dir,
        depth,
        size: ahead.size,
        score,
    })
}

/// The next leaf of a stream.
#[derive(Drop)]
struct Ahead {
    /// A buffer of a whole leaf, of `dsize` bytes.
    leaf: Vec<u8>,
    /// How many bytes were taken into the leaf: all that it has room for, fewer where the source
    /// ended in it, and none behind that.
    filled: usize,
    /// Whether the source has given its last bytes.
    ended: bool,
    /// How many bytes were taken.
    size: u64,
}

impl Ahead {
    /// No leaf was taken yet.
    fn new(alloc: Global, dsize: u16) -> Result<Self, AllocError>
        ensures { IfOk result (λ ahead. (length ahead.leaf.items ≡ dsize)
            × (next_of ahead ≡ record { leaf = []; ended = false; size = 0 })) }
    {
        Ok(Ahead {
            leaf: vec![in alloc; 0u8; dsize as usize]?,
            filled: 0,
            ended: false,
            size: 0,
        })
    }

    /// Takes the next leaf from the source: whole, unless the source ends in it.
    fn advance<R: Source>(&mut self, source: &mut R) -> Result<(), TreeErr>
        requires filled { self.old.filled ≤ length self.old.leaf.items }
        requires size { self.old.size ≤ 2 ^ 40 }
        requires room { length self.old.leaf.items ≤ MAX_BLOCK }
        ensures ok { OnOk result (TakesNextLeaf (length self.old.leaf.items)
            (next_of self.old) (next_of self.new)
            (IsTaken R.tells (R.left source.old) (R.left source.new))) }
        ensures end { OnOk result (self.old.ended ≡ false → self.new.ended ≡ true
            → IsTrue R.tells → R.left source.new ≡ []) }
        ensures stays { self.old.ended ≡ true
            → (self.new.ended ≡ true) × (R.left source.new ≡ R.left source.old) }
        ensures err { IfErr result (StopsAhead (next_of self.old)
            (IsAll R.tells (R.left source.old))) }
        ensures room { length self.new.leaf.items ≡ length self.old.leaf.items }
        ensures filled { self.new.filled ≤ length self.new.leaf.items }
        ensures cause { CountsFault is_source_fault result
            (R.faults source.old) (R.faults source.new) }
        ensures keeps { R.kept source.new ≡ R.kept source.old }
    {
        if self.ended {
            self.filled = 0;
            return Ok(());
        }
        self.filled = fill(source, &mut self.leaf)?;
        self.ended = self.filled < self.leaf.len();
        self.size += self.filled as u64;
        if self.size > MAX_FILE {
            return Err(TreeErr::TooLong);
        }
        Ok(())
    }
}

/// Fills the buffer as far as the source goes, and says how far. It fails where a read of the
/// source does.
fn fill<R: Source>(source: &mut R, buf: &mut [u8]) -> Result<usize, TreeErr>
    ensures within { IfOk result (λ n. n ≤ length buf.new) }
    ensures taken { IfOk result (λ n.
        IsTaken R.tells (R.left source.old) (R.left source.new) (take n buf.new)) }
    ensures end { IfOk result (λ n. n < length buf.new → IsTrue R.tells → R.left source.new ≡ []) }
    ensures fault { IfErr result (λ err. (err ≡ TreeErr.SourceFault)
        × ((bytes : List ℕ) × IsTaken R.tells (R.left source.old) (R.left source.new) bytes)) }
    ensures cause { CountsFault is_source_fault result
        (R.faults source.old) (R.faults source.new) }
    ensures keeps { R.kept source.new ≡ R.kept source.old }
{
    let mut n = 0;
    while n < buf.len() {
        let Ok(more) = source.take(&mut buf[n..]) else {
            return Err(TreeErr::SourceFault);
        };
        if more == 0 {
            return Ok(n);
        }
        n += more;
    }
    Ok(n)
}

/// How a stream is cut, and the zero score.
#[derive(Clone, Copy)]
struct Cut {
    alloc: Global,
    /// The most bytes of a pointer block, and below it of a leaf.
    psize: u16,
    dsize: u16,
    /// Whether it is the stream of a directory.
    is_dir: bool,
    zero: Score,
}

impl Cut {
    /// Writes all leaves to the stream's end, and what stands above them, and gives the depth of
    /// the topmost block and its score. It fails where a call of the store or the source does, or
    /// the source has too many bytes.
    fn tree<B: Blocks, R: Source>(
        &self,
        blocks: &mut B,
        source: &mut R,
        ahead: &mut Ahead,
    ) -> Result<(u8, Score), TreeErr>
        requires ready { IsReadyToWrite B.score_of self.now ahead.old R.tells (R.left source.old) }
        requires size { ahead.old.size ≡ ahead.old.filled }
        ensures grown { IfOk result (λ top. WritesTree B.does B.score_of blocks.old blocks.new
            (shape_of self.now) (next_of ahead.old) (next_of ahead.new)
            (IsTaken R.tells (R.left source.old) (R.left source.new)) top.0 top.1) }
        ensures end { OnOk result (IsTrue R.tells → R.left source.new ≡ []) }
        ensures stopped { IfErr result (StopsStream B.does B.score_of blocks.old blocks.new
            (shape_of self.now) (next_of ahead.old)
            (IsAll R.tells (R.left source.old))) }
        ensures cause { CountsFault is_source_fault result
            (R.faults source.old) (R.faults source.new) }
        ensures keeps { R.kept source.new ≡ R.kept source.old }
    {
        if ahead.filled == 0 {
            return Ok((0, self.zero));
        }
        let mut depth = 0;
        let mut score = self.leaf(blocks, source, ahead)?;
        while ahead.filled > 0 {
            depth += 1;
            score = self.above(blocks, source, ahead, depth, &score)?;
        }
        Ok((depth, score))
    }

    /// Writes the next leaf, and takes the one behind it. It fails where a call of the store or the
    /// source does, or the source has too many bytes.
    fn leaf<B: Blocks, R: Source>(
        &self,
        blocks: &mut B,
        source: &mut R,
        ahead: &mut Ahead,
    ) -> Result<Score, TreeErr>
        requires ready { IsReadyToWrite B.score_of self.now ahead.old R.tells (R.left source.old) }
        requires some { 0 < ahead.old.filled }
        ensures grown { IfOk result (GrowsTree B.does B.score_of blocks.old blocks.new
            (shape_of self.now) 0 (next_of ahead.old) (next_of ahead.new)
            (IsTaken R.tells (R.left source.old) (R.left source.new)) [] []) }
        ensures ready { OnOk result
            (IsReadyToWrite B.score_of self.now ahead.new R.tells (R.left source.new)) }
        ensures stopped { IfErr result (StopsTree B.does B.score_of blocks.old blocks.new
            (shape_of self.now) 0 (next_of ahead.old)
            (IsAll R.tells (R.left source.old)) [] []) }
        ensures cause { CountsFault is_source_fault result
            (R.faults source.old) (R.faults source.new) }
        ensures keeps { R.kept source.new ≡ R.kept source.old }
    {
        let score = self.put_leaf(blocks, &ahead.leaf[..ahead.filled])?;
        ahead.advance(source)?;
        Ok(score)
    }

    /// Writes the next leaves as a tree of this depth, as many as it reaches. It fails where a call
    /// of the store or the source does, or the source has too many bytes.
    #[cycle(subtree)]
    fn subtree<B: Blocks, R: Source>(
        &self,
        blocks: &mut B,
        source: &mut R,
        ahead: &mut Ahead,
        depth: u8,
    ) -> Result<Score, TreeErr>
        requires ready { IsReadyToWrite B.score_of self.now ahead.old R.tells (R.left source.old) }
        requires some { 0 < ahead.old.filled }
        requires depth { depth < 8 }
        ensures grown { IfOk result (GrowsTree B.does B.score_of blocks.old blocks.new
            (shape_of self.now) depth (next_of ahead.old) (next_of ahead.new)
            (IsTaken R.tells (R.left source.old) (R.left source.new)) [] []) }
        ensures ready { OnOk result
            (IsReadyToWrite B.score_of self.now ahead.new R.tells (R.left source.new)) }
        ensures stopped { IfErr result (StopsTree B.does B.score_of blocks.old blocks.new
            (shape_of self.now) depth (next_of ahead.old)
            (IsAll R.tells (R.left source.old)) [] []) }
        ensures cause { CountsFault is_source_fault result
            (R.faults source.old) (R.faults source.new) }
        ensures keeps { R.kept source.new ≡ R.kept source.old }
    {
        if depth == 0 {
            return self.leaf(blocks, source, ahead);
        }
        let first = self.subtree(blocks, source, ahead, depth - 1)?;
        self.above(blocks, source, ahead, depth, &first)
    }

    /// Writes further trees behind a first one, as many as a pointer block names or there are
    /// leaves for, and the pointer block of this depth above them. It fails where a call of the
    /// store or the source does, or the source has too many bytes.
    #[cycle(subtree)]
    fn above<B: Blocks, R: Source>(
        &self,
        blocks: &mut B,
        source: &mut R,
        ahead: &mut Ahead,
        depth: u8,
        first: &Score,
    ) -> Result<Score, TreeErr>
        requires ready { IsReadyToWrite B.score_of self.now ahead.old R.tells (R.left source.old) }
        requires depth { (0 < depth) × (depth < 8) }
        ensures grown { (leaves : List (List ℕ))
            → HasFirst B.score_of (shape_of self.now) (depth - 1) (next_of ahead.old) leaves
            first.now
            → IfOk result (GrowsTree B.does B.score_of blocks.old blocks.new
            (shape_of self.now) depth (next_of ahead.old) (next_of ahead.new)
            (IsTaken R.tells (R.left source.old) (R.left source.new)) leaves
            (tree_of B.score_of (shape_of self.now) (depth - 1) leaves).blocks) }
        ensures ready { OnOk result
            (IsReadyToWrite B.score_of self.now ahead.new R.tells (R.left source.new)) }
        ensures stopped { (leaves : List (List ℕ))
            → HasFirst B.score_of (shape_of self.now) (depth - 1) (next_of ahead.old) leaves
            first.now
            → IfErr result (StopsTree B.does B.score_of blocks.old blocks.new
            (shape_of self.now) depth (next_of ahead.old)
            (IsAll R.tells (R.left source.old)) leaves
            (tree_of B.score_of (shape_of self.now) (depth - 1) leaves).blocks) }
        ensures cause { CountsFault is_source_fault result
            (R.faults source.old) (R.faults source.new) }
        ensures keeps { R.kept source.new ≡ R.kept source.old }
    {
        let most = self.psize as usize / SCORE_LEN;
        let mut scores = Vec::with_capacity(self.alloc, most)?;
        scores.push(*first)?;
        while ahead.filled > 0 && scores.len() < most {
            scores.push(self.subtree(blocks, source, ahead, depth - 1)?)?;
        }
        self.put_pointers(blocks, depth, &scores)
    }

    /// Puts the block of a leaf with these bytes. It fails where the call of the store does.
    fn put_leaf<B: Blocks>(&self, blocks: &mut B, bytes: &[u8]) -> Result<Score, TreeErr>
        requires zero { self.now.zero.0 ≡ B.score_of [] }
        requires most { length bytes.now ≤ MAX_BLOCK }
        ensures { PutsBlock B.does B.score_of blocks.old blocks.new
            (leaf_block (shape_of self.now) bytes.now) result }
    {
        let kept = if self.is_dir {
            bytes.len()
        } else {
            len_without_zeros(bytes)
        };
        self.put(blocks, leaf_kind(self.is_dir), &bytes[..kept])
    }

    /// Puts the pointer block of this depth over these scores. It fails where the call of the store
    /// does.
    fn put_pointers<B: Blocks>(
        &self,
        blocks: &mut B,
        depth: u8,
        scores: &[Score],
    ) -> Result<Score, TreeErr>
        requires depth { (0 < depth) × (depth < 8) }
        requires zero { self.now.zero.0 ≡ B.score_of [] }
        requires few { 20 * length scores.now ≤ MAX_BLOCK }
        ensures { PutsBlock B.does B.score_of blocks.old blocks.new
            (pointer_block B.score_of depth (map (λ s. s.0) scores.now)) result }
    {
        let kept = len_without_score(scores, &self.zero);
        let bytes = joined(self.alloc, &scores[..kept])?;
        self.put(blocks, pointer_kind(depth), &bytes)
    }

    /// Puts a block, unless it has no bytes, and gives its score.
    fn put<B: Blocks>(&self, blocks: &mut B, kind: Kind, bytes: &[u8]) -> Result<Score, TreeErr>
        requires zero { self.now.zero.0 ≡ B.score_of [] }
        requires most { length bytes.now ≤ MAX_BLOCK }
        ensures { PutsBlock B.does B.score_of blocks.old blocks.new
            (record { kind = kind; bytes = bytes.now }) result }
    {
        if bytes.is_empty() {
            return Ok(self.zero);
        }
        match blocks.put(self.alloc, kind, bytes) {
            Ok(score) => Ok(score),
            Err(err) => Err(TreeErr::Block(err)),
        }
    }
}

/// How many bytes stand before the zeros at the end.
fn len_without_zeros(bytes: &[u8]) -> usize
    ensures within { result ≤ length bytes.now }
    ensures value { take result bytes.now ≡ without_end (λ b. b == 0) bytes.now }
{
    let mut len = bytes.len();
    while len > 0 && bytes[len - 1] == 0 {
        len -= 1;
    }
    len
}

/// How many scores stand before those at the end that are this one.
fn len_without_score(scores: &[Score], score: &Score) -> usize
    ensures within { result ≤ length scores.now }
    ensures value { take result (map (λ s. s.0) scores.now)
        ≡ without_end (bytes_eq score.now.0) (map (λ s. s.0) scores.now) }
{
    let mut len = scores.len();
    while len > 0 && *score == scores[len - 1] {
        len -= 1;
    }
    len
}

/// The scores one behind another.
fn joined(alloc: Global, scores: &[Score]) -> Result<Vec<u8>, AllocError>
    ensures bytes { IfOk result (λ bytes. bytes.items ≡ flat_map (λ s. s.0) scores.now) }
    ensures len { IfOk result (λ bytes. length bytes.items ≡ 20 * length scores.now) }
{
    let mut bytes = Vec::with_capacity(alloc, SCORE_LEN * scores.len())?;
    for score in scores {
        bytes.extend_from_slice(&score.0)?;
    }
    Ok(bytes)
}
