//! From the bytes of a clump to its block.

ghost use Rattle.std.specs.Prelude.{◌≡◌, ◌≤◌, ◌++◌, None, length, IfOk, MatchResult};
ghost use Rattle.vt_clump.specs.Clumps.{IsClumpRead};
ghost use Rattle.vt_clump.specs.Faults.{first_bad_clump, other_score, FailsWith, IsClumpRefusal};
ghost use Rattle.vt_clump.specs.Spelling.{Stored, BeginsWithClump, size_in, stored_in};

use crate::header::{HEADER_LEN, Header};
use std::alloc::Global;
use vt_base::{Bytes, Kind, Score, Scorer};

/// A clump that was read.
#[derive(Drop)]
pub struct Clump {
    pub kind: Kind,
    pub score: Score,
    /// When the session that wrote it began, in seconds since 1970.
    pub time: u32,
    /// The block.
    pub bytes: Bytes,
}

/// How a block is stored where it isn't stored as it is.
#[derive(Clone, Copy, Debug, PartialEq, Eq)]
pub enum Encoding {
    /// Encoding 2, which isn't read.
    Compressed,
    /// Another number than 1, which is that of a block as it is, and 2.
    Unknown(u8),
}

/// Why bytes don't begin with a clump: the first of these tests that fails, with what was found,
/// and what was wanted where that isn't the same for all clumps.
#[derive(Clone, Copy, Debug, PartialEq, Eq)]
pub enum ClumpBad {
    /// Less than a header.
    Short,
    /// The first four bytes aren't `VCLP`.
    Magic([u8; 4]),
    /// No block type.
    Kind(u8),
    /// The block isn't stored as it is.
    Encoding(Encoding),
    /// Size and uncsize differ, or are 0, above 57,344 or more than the bytes behind the header.
    Size { want: u16, found: u16 },
    /// The block has another score than its header says.
    Score { want: Score, found: Score },
    /// Memory ran out.
    NoMemory,
}

/// Reads the clump that the bytes begin with. Bytes may follow it.
pub fn unpack<S: Scorer>(alloc: Global, bytes: &[u8], scorer: &S) -> Result<Clump, ClumpBad>
    ensures read { IfOk result (λ clump. (s : Stored)
        × BeginsWithClump S.score_of s bytes.now × IsClumpRead s clump) }
    ensures all_are_read { (s : Stored) → BeginsWithClump S.score_of s bytes.now
        → MatchResult result (IsClumpRead s) (λ bad. bad ≡ ClumpBad.NoMemory) }
    ensures refused { MatchResult result (λ _. first_bad_clump S.score_of bytes.now ≡ None)
        (IsClumpRefusal (first_bad_clump S.score_of bytes.now)) }
{
    let header = Header::decode(bytes)?;
    let block = &bytes[HEADER_LEN..HEADER_LEN + header.size as usize];
    check_score(header.score, block, scorer)?;
    let Ok(block) = Bytes::copy_of(alloc, block) else {
        return Err(ClumpBad::NoMemory);
    };
    Ok(clump_of(&header, block))
}

/// Reads the clump of a header and of the bytes behind it, no more than it names as its block. They
/// are taken over, and not copied.
pub fn unpack_block<S: Scorer>(
    header: &[u8; HEADER_LEN],
    block: Bytes,
    scorer: &S,
) -> Result<Clump, ClumpBad>
    requires { length block ≤ size_in header.now }
    ensures read { let bytes = header.now ++ block in IfOk result (IsClumpRead (stored_in bytes)) }
    ensures refused { let bytes = header.now ++ block in
        FailsWith (first_bad_clump S.score_of bytes) result }
{
    let header = Header::decode_before(header, block.len())?;
    check_score(header.score, block.as_slice(), scorer)?;
    Ok(clump_of(&header, block))
}

/// Tests the score of a block. Another one is told, with the score that the header names.
fn check_score<S: Scorer>(want: Score, block: &[u8], scorer: &S) -> Result<(), ClumpBad>
    ensures { FailsWith (other_score want.0 (S.score_of block.now)) result }
{
    let found = scorer.score(block);
    if found != want {
        return Err(ClumpBad::Score { want, found });
    }
    Ok(())
}

/// The clump of this header and block.
fn clump_of(header: &Header, block: Bytes) -> Clump
    ensures kind { result.kind ≡ header.now.kind }
    ensures score { result.score.0 ≡ header.now.score.0 }
    ensures time { result.time ≡ header.now.time }
    ensures bytes { result.bytes ≡ block }
{
    Clump {
        kind: header.kind,
        score: header.score,
        time: header.time,
        bytes: block,
    }
}
