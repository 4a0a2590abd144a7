//! The content of a file byte by byte: slow, and plainly right. What reads streams is compared with
//! it.

ghost use Rattle.std.specs.Prelude.{◌≡◌, ◌<◌, ◌^◌, ◌%◌, IfOk, IfErr, MatchResult, Ok, Err};
ghost use Rattle.std.specs.Prelude.{length};
ghost use Rattle.std.specs.Option.{option_copied, option_map};
ghost use Rattle.vt_tree.specs.Content.{size_of, scores_in, leaf_kind, pointer_kind, fits_at};
ghost use Rattle.vt_tree.specs.Content.{byte_of_leaf, score_in, score_of_pointers, byte_below};
ghost use Rattle.vt_tree.specs.Content.{byte_of, IsFileContent, FirstTrouble};
ghost use Rattle.vt_tree.specs.Entries.{FitsEntry};
ghost use Rattle.vt_tree.specs.Memory.{held_in};

use crate::{Entry, MemBlocks};
use std::alloc::{AllocError, Global};
use vt_base::{Bytes, Kind, Score, Scorer};

/// How many bytes a score has.
pub(crate) const SCORE_LEN: usize = 20;

const _: () = prove!(SCORE_LEN == 20);

/// Why a byte of a file can't be told.
#[derive(Clone, Copy, Debug, PartialEq, Eq)]
pub enum ContentError {
    /// A block on the way to it isn't held.
    Absent,
    /// A leaf (depth 0) or a pointer block on the way to it is longer than the entry says, or a
    /// pointer block has no whole scores.
    BadBlock { depth: u8, len: usize },
}

/// How many bytes the file has.
pub(crate) fn size_of(entry: &Entry) -> u64
    ensures { result ≡ size_of entry.now }
{
    if entry.active { entry.size } else { 0 }
}

/// The type of the leaves of a stream.
pub(crate) fn leaf_kind(is_dir: bool) -> Kind
    ensures { result ≡ leaf_kind is_dir }
{
    if is_dir { Kind::DIRECTORY } else { Kind::DATA }
}

/// The type of pointer blocks of this depth.
pub(crate) fn pointer_kind(depth: u8) -> Kind
    requires { depth < 8 }
    ensures { result ≡ pointer_kind depth }
{
    let Some(kind) = Kind::from_wire(2 + depth) else {
        unreachable!();
    };
    kind
}

/// How many leaves stand below a pointer block of this depth, and 1 at depth 0.
#[tactic(auto, using(crate::proofs::Powers::power_fits, crate::proofs::Powers::one_deeper))]
pub(crate) fn leaves_below(psize: u16, depth: u8) -> u128
    requires { depth < 8 }
    ensures value { result ≡ scores_in psize ^ depth }
    ensures fits { result < 2 ^ 84 }
{
    if depth == 0 {
        return 1;
    }
    // (a pointer block has as many scores, of 20 bytes each, as fit whole)
    leaves_below(psize, depth - 1) * u128::from(psize / 20)
}

/// Whether a block of this depth fits the entry: a leaf isn't longer than dsize; a pointer block
/// isn't longer than psize, and has whole scores.
pub(crate) fn fits(entry: &Entry, depth: u8, block: &[u8]) -> bool
    ensures { result ≡ fits_at entry.now depth block.now }
{
    if depth == 0 {
        block.len() <= entry.dsize as usize
    } else {
        block.len() <= entry.psize as usize && block.len() % SCORE_LEN == 0
    }
}

/// The score at a place of a pointer block, if it has so many.
pub(crate) fn score_in(block: &[u8], place: u128) -> Option<Score>
    requires { length block.now % 20 ≡ 0 }
    ensures { option_map (λ s. s.0) result ≡ score_in block.now place }
{
    if place >= (block.len() / SCORE_LEN) as u128 {
        return None;
    }
    let at = SCORE_LEN * place as usize;
    let mut score = [0; SCORE_LEN];
    score.copy_from_slice(&block[at..at + SCORE_LEN]);
    Some(Score(score))
}

/// Byte `place` of the file.
pub fn byte_at<S: Scorer>(
    blocks: &MemBlocks<S>,
    entry: &Entry,
    place: u64,
) -> Result<u8, ContentError>
    requires fits { FitsEntry entry.now }
    requires size { 0 < entry.now.dsize }
    ensures { result ≡ byte_of (held_in S.score_of blocks.now) entry.now place }
{
    let leaf = u128::from(place / u64::from(entry.dsize));
    let byte = (place % u64::from(entry.dsize)) as usize;
    if leaf < leaves_below(entry.psize, entry.depth) {
        byte_below(blocks, entry, entry.depth, &entry.score, leaf, byte)
    } else {
        Ok(0)
    }
}

/// The byte of a leaf below so many pointer blocks.
fn byte_below<S: Scorer>(
    blocks: &MemBlocks<S>,
    entry: &Entry,
    depth: u8,
    score: &Score,
    leaf: u128,
    byte: usize,
) -> Result<u8, ContentError>
    requires depth { depth < 8 }
    requires reached { leaf < scores_in entry.now.psize ^ depth }
    ensures { result ≡ byte_below (held_in S.score_of blocks.now) entry.now depth score.now.0
        leaf byte }
{
    if depth == 0 {
        return byte_of_leaf(entry, byte, blocks.held(leaf_kind(entry.is_dir), score));
    }
    let leaves = leaves_below(entry.psize, depth - 1);
    let block = blocks.held(pointer_kind(depth), score);
    match score_of_pointers(entry, depth, leaf / leaves, block)? {
        Some(below) => byte_below(blocks, entry, depth - 1, &below, leaf % leaves, byte),
        None => Ok(0),
    }
}

/// A byte of a leaf.
fn byte_of_leaf(entry: &Entry, byte: usize, block: Option<&[u8]>) -> Result<u8, ContentError>
    ensures { result ≡ byte_of_leaf entry.now byte (option_copied block.entry) }
{
    let block = block.ok_or(ContentError::Absent)?;
    if !fits(entry, 0, block) {
        return Err(ContentError::BadBlock {
            depth: 0,
            len: block.len(),
        });
    }
    Ok(block.get(byte).copied().unwrap_or(0))
}

/// The score at a place of a pointer block.
fn score_of_pointers(
    entry: &Entry,
    depth: u8,
    place: u128,
    block: Option<&[u8]>,
) -> Result<Option<Score>, ContentError>
    requires { 0 < depth }
    ensures { let wanted = score_of_pointers entry.now depth place (option_copied block.entry) in
        MatchResult result (λ score. wanted ≡ Ok (option_map (λ s. s.0) score))
        (λ trouble. wanted ≡ Err trouble) }
{
    let block = block.ok_or(ContentError::Absent)?;
    if !fits(entry, depth, block) {
        return Err(ContentError::BadBlock {
            depth,
            len: block.len(),
        });
    }
    Ok(score_in(block, place))
}

/// The whole file, or the trouble of its first byte that has any.
pub fn content<S: Scorer>(
    alloc: Global,
    blocks: &MemBlocks<S>,
    entry: &Entry,
) -> Result<Result<Bytes, ContentError>, AllocError>
    requires fits { FitsEntry entry.now }
    requires size { 0 < entry.now.dsize }
    ensures ok { IfOk result (λ found. IfOk found
        (IsFileContent (held_in S.score_of blocks.now) entry.now)) }
    ensures bad { IfOk result (λ found. IfErr found
        (FirstTrouble (byte_of (held_in S.score_of blocks.now) entry.now) 0
        (size_of entry.now))) }
{
    let mut bytes = Vec::new(alloc);
    for place in 0..size_of(entry) {
        match byte_at(blocks, entry, place) {
            Ok(byte) => bytes.push(byte)?,
            Err(trouble) => return Ok(Err(trouble)),
        }
    }
    Ok(Ok(Bytes::from_vec(bytes)))
}
