//! Reading a clump.

ghost use Rattle.std.specs.Prelude.{◌≡◌, ◌⊎◌, ◌+◌, ◌-◌, ◌≤◌, ◌∷◌, ◌++◌, min, ℕ, List, length, take, IsTrue, IfOk, IfErr, OnOk, Ok, Err, MatchResult};
ghost use Rattle.vt_base.specs.Bytes.{AreBytes};
ghost use Rattle.vt_base.specs.Faults.{CountsFault};
ghost use Rattle.vt_disk.specs.Calls.{OnlyReads, MadeCalls};
ghost use Rattle.vt_disk.specs.Disk.{part};
ghost use Rattle.vt_disk.specs.Region.{FitsDisk};
ghost use Rattle.vt_clump.specs.Spelling.{Stored, IsStoredBlock, size_in};
ghost use Rattle.vt_clump.specs.Clumps.{IsClumpRead};
ghost use Rattle.vt_arena.specs.Layout.{Content, IsArenaContent, HasBlocks};
ghost use Rattle.vt_arena.specs.Places.{offset_of};
ghost use Rattle.vt_arena.specs.Reading.{HasHeader, clump_at, header_at, reads_for, damage_of_clump, ReadsClumpAs, is_clump_fault};

use crate::error::ReadBad;
use std::alloc::Global;
use vt_base::{Bytes, Failed, FieldValue, Scorer};
use vt_clump::{Clump, ClumpBad, Encoding, block_len, unpack_block};
use vt_disk::{Disk, Region};
use vt_model::{ARENA_HEAD_LEN, CLUMP_HEADER_LEN};

/// Reads the clump at an offset of an arena's region: its header, which says how long its block is,
/// and the block. Both are read by one device call where the block has at most `size` bytes, and
/// else by two. The answer is the same, whatever `size` is.
///
/// Damaged says by what value the clump differs from one whose block has the score that it names.
/// An offset at which no header lies between the head and the region's end is Damaged too, with
/// that offset.
pub fn read<D: Disk, S: Scorer>(
    alloc: Global,
    disk: &mut D,
    region: Region,
    offset: u64,
    size: u16,
    scorer: &S,
) -> Result<Clump, ReadBad>
    requires region { FitsDisk region (D.size disk.old) }

    // The clump is given that stands there, and refused exactly where none does.
    ensures answer { HasHeader region.len offset → (bytes : List ℕ)
        × (IsTrue D.tells → bytes ≡ clump_at region offset (D.bytes disk.old))
        × ReadsClumpAs S.score_of bytes result }
    ensures outside { ¬ HasHeader region.len offset
        → result ≡ Err (ReadBad.Damaged (FieldValue.Number ARENA_HEAD_LEN)
        (FieldValue.Number offset)) }
    ensures whole { IfOk result (λ clump. (s : Stored)
        × IsStoredBlock S.score_of s × IsClumpRead s clump) }

    // The block that stands there is given.
    ensures committed { (old : Content) (before behind : List Stored) (s : Stored)
        → IsTrue D.tells → IsArenaContent S.score_of region.len old
        → HasBlocks region old (D.bytes disk.old)
        → old.stored ≡ before ++ s ∷ behind → offset ≡ offset_of old.version before
        → MatchResult result (IsClumpRead s)
        (λ bad. (bad ≡ ReadBad.Fault) ⊎ (bad ≡ ReadBad.NoMemory)) }

    // It makes one read where the header says that the block has at most `size` bytes, else two,
    // and none where no header lies there. It writes nothing.
    ensures untouched { ¬ HasHeader region.len offset → disk.new ≡ disk.old }
    ensures reads { OnlyReads D.Disk 2 disk.old disk.new }
    ensures once { IsTrue D.tells → size_in (header_at region offset (D.bytes disk.old)) ≤ size
        → OnlyReads D.Disk 1 disk.old disk.new }
    ensures calls { IfOk result (λ clump.
        MadeCalls D.Disk (reads_for size (length clump.bytes)) disk.old disk.new) }
    ensures cause { CountsFault is_clump_fault result (D.faults disk.old) (D.faults disk.new) }
{
    if !has_header(region.len, offset) {
        return Err(ReadBad::Damaged {
            want: FieldValue::Number(ARENA_HEAD_LEN as u128),
            found: FieldValue::Number(u128::from(offset)),
        });
    }
    let (header, block) = read_clump(alloc, disk, region, offset, size)?;
    match unpack_block(&header, block, scorer) {
        Ok(clump) => Ok(clump),
        Err(bad) => Err(refusal(bad)),
    }
}

/// Whether a clump's header at this offset lies in a region of this length, behind the head: `read`
/// makes device calls for such an offset alone.
pub fn has_header(len: u64, offset: u64) -> bool
    ensures { IsTrue result ↔ HasHeader len offset }
{
    let header_len = CLUMP_HEADER_LEN as u64;
    offset >= ARENA_HEAD_LEN as u64 && len >= header_len && offset <= len - header_len
}

/// Reads a header and the block behind it, cut at the region's end. Bytes that are no clump are
/// refused by the first test that fails; else a read failed, or memory ran out.
fn read_clump<D: Disk>(
    alloc: Global,
    disk: &mut D,
    region: Region,
    offset: u64,
    size: u16,
) -> Result<([u8; CLUMP_HEADER_LEN], Bytes), ReadBad>
    requires region { FitsDisk region (D.size disk.old) }
    requires header { HasHeader region.len offset }
    ensures read { IfOk result (λ it. IsTrue D.tells
        → it.0 ++ it.1 ≡ clump_at region offset (D.bytes disk.old)) }
    ensures header { IfOk result (λ it. (length it.0 ≡ CLUMP_HEADER_LEN) × AreBytes it.0) }
    ensures most { IfOk result (λ it. length it.1 ≤ size_in it.0) }
    ensures refused { IfErr result (λ bad. (bad ≡ ReadBad.Fault) ⊎ (bad ≡ ReadBad.NoMemory)) }
    ensures reads { OnlyReads D.Disk 2 disk.old disk.new }
    ensures once { IsTrue D.tells → size_in (header_at region offset (D.bytes disk.old)) ≤ size
        → OnlyReads D.Disk 1 disk.old disk.new }
    ensures calls { IfOk result (λ it.
        MadeCalls D.Disk (reads_for size (size_in it.0)) disk.old disk.new) }
    ensures cause { CountsFault is_clump_fault result (D.faults disk.old) (D.faults disk.new) }
{
    let mut bytes = read_bytes(
        alloc,
        disk,
        region,
        offset,
        CLUMP_HEADER_LEN + size as usize,
    )?;
    let header = header_of(&bytes);
    let len = block_len(&header);
    if len > size {
        let at = offset + CLUMP_HEADER_LEN as u64;
        let block = read_bytes(alloc, disk, region, at, len as usize)?;
        return Ok((header, Bytes::from_vec(block)));
    }
    let there = bytes.len() - CLUMP_HEADER_LEN;
    bytes.copy_within(CLUMP_HEADER_LEN.., 0);
    bytes.truncate(there.min(len as usize));
    Ok((header, Bytes::from_vec(bytes)))
}

/// The header with which these bytes begin.
fn header_of(bytes: &[u8]) -> [u8; CLUMP_HEADER_LEN]
    requires { CLUMP_HEADER_LEN ≤ length bytes.now }
    ensures header { result ≡ take CLUMP_HEADER_LEN bytes.now }
    ensures len { length result ≡ CLUMP_HEADER_LEN }
    ensures bytes { AreBytes result }
{
    let mut header = [0; CLUMP_HEADER_LEN];
    header.copy_from_slice(&bytes[..CLUMP_HEADER_LEN]);
    header
}

/// Reads so many bytes from this place of a region on, or up to the region's end. It fails where
/// the read does, or memory runs out.
fn read_bytes<D: Disk>(
    alloc: Global,
    disk: &mut D,
    region: Region,
    at: u64,
    len: usize,
) -> Result<Vec<u8>, ReadBad>
    requires region { FitsDisk region (D.size disk.old) }
    requires inside { at ≤ region.len }
    ensures read { IfOk result (λ bytes. IsTrue D.tells → bytes.items
        ≡ part (region.start + at) (min len (region.len - at)) (D.bytes disk.old)) }
    ensures len { IfOk result (λ bytes. length bytes.items ≡ min len (region.len - at)) }
    ensures refused { IfErr result (λ bad. (bad ≡ ReadBad.Fault) ⊎ (bad ≡ ReadBad.NoMemory)) }
    ensures reads { OnlyReads D.Disk 1 disk.old disk.new }
    ensures calls { OnOk result (MadeCalls D.Disk 1 disk.old disk.new) }
    ensures cause { CountsFault is_clump_fault result (D.faults disk.old) (D.faults disk.new) }
{
    let len = (len as u64).min(region.len - at);
    let Ok(mut bytes) = vec![in alloc; 0; len as usize] else {
        return Err(ReadBad::NoMemory);
    };
    match region.read_at(disk, at, &mut bytes) {
        Ok(()) => Ok(bytes),
        Err(Failed) => Err(ReadBad::Fault),
    }
}

/// What was wanted and what was found, in a clump that is no clump.
fn refusal(bad: ClumpBad) -> ReadBad
    ensures damaged { ¬ (bad ≡ ClumpBad.NoMemory)
        → result ≡ ReadBad.Damaged (damage_of_clump bad).0 (damage_of_clump bad).1 }
    ensures memory { bad ≡ ClumpBad.NoMemory → result ≡ ReadBad.NoMemory }
{
    // (of what may stand there, the value that this program writes is told as wanted: type 13,
    // encoding 1)
    let (want, found) = match bad {
        ClumpBad::Short => (number_value(CLUMP_HEADER_LEN as u16), number_value(0)),
        ClumpBad::Magic(found) => (FieldValue::Magic(*b"VCLP"), FieldValue::Magic(found)),
        ClumpBad::Kind(found) => (number_value(13), number_value(u16::from(found))),
        ClumpBad::Encoding(Encoding::Compressed) => (number_value(1), number_value(2)),
        ClumpBad::Encoding(Encoding::Unknown(found)) => {
            (number_value(1), number_value(u16::from(found)))
        }
        ClumpBad::Size { want, found } => (number_value(want), number_value(found)),
        ClumpBad::Score { want, found } => (FieldValue::Score(want), FieldValue::Score(found)),
        ClumpBad::NoMemory => return ReadBad::NoMemory,
    };
    ReadBad::Damaged { want, found }
}

/// A number, as damage tells it.
fn number_value(n: u16) -> FieldValue
    ensures { result ≡ FieldValue.Number n }
{
    FieldValue::Number(u128::from(n))
}

ghost use Rattle.std.specs.Prelude.{◌↔◌};
