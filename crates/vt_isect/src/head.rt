//! The head of a section, and its frame.

ghost use Rattle.std.specs.Prelude.{◌≡◌, ◌≢◌, ◌+◌, ◌++◌, ◌≤◌, ℕ, None, Some, codes, length, take, IfOk, IfErr, MatchResult};
ghost use Rattle.byteorder.specs.Endian.{big_bytes};
ghost use Rattle.vt_base.specs.Faults.{CountsFault};
ghost use Rattle.vt_isect.specs.Faults.{first_bad_section, NamesSectionCause, TellsOfHead, refuses_by_fault};
ghost use Rattle.vt_isect.specs.Head.{IsHead, IsHeadFrame, encoded, section_head_bytes};

use crate::error::{Field, SectBad};
use crate::{FIELDS_LEN, FRAME_LEN, LEAST_LEN};
use vt_base::fields::{put, put_u8, put_u16, put_u32, put_u64, u16_at, u32_at, u64_at};
use vt_disk::NAME_LEN;

/// What a section's head says.
#[derive(Clone, Copy, Debug, PartialEq, Eq)]
pub struct Head {
    /// 0 where it is formatted, 1 where it is in use, 2 where it is being built.
    pub state: u8,
    /// The number of its first bucket, over all sections.
    pub first: u32,
    /// How many buckets it has.
    pub count: u32,
    /// How many buckets all sections have.
    pub total: u32,
    /// How many blocks of the log surely have their entries in the index: each block below it that
    /// belongs to this section has.
    pub mark: u64,
}

/// The name and the head of a frame of 8,192 bytes, on a disk of this length. They are refused by
/// the first test that fails.
pub fn decode_head(frame: &[u8], len: u64) -> Result<([u8; NAME_LEN], Head), SectBad>
    requires whole { length frame.now ≡ FRAME_LEN }
    requires room { LEAST_LEN ≤ len }
    ensures spelling { IfOk result (λ it. IsHeadFrame it.0 it.1 frame.now) }
    ensures name { IfOk result (λ it. length it.0 ≡ NAME_LEN) }
    ensures refused { MatchResult result (λ _. first_bad_section len frame.now ≡ None)
        (λ bad. first_bad_section len frame.now ≡ Some bad) }
    ensures differs { IfErr result (NamesSectionCause len) }
    ensures told { IfErr result TellsOfHead }
    ensures cause { (faults : ℕ) → CountsFault refuses_by_fault result faults faults }
{
    // (the places of the fields: docs/FORMATS.md, Index sections)
    if frame[..4] != b"VSEC"[..] {
        return Err(SectBad::NotFormatted);
    }
    let version = u16_at(frame, 4);
    if version != 1 {
        return Err(SectBad::Torn {
            field: Field::Version,
            found: u64::from(version),
            want: 1,
        });
    }
    let mut name = [0; NAME_LEN];
    name.copy_from_slice(&frame[7..71]);
    let head = Head {
        state: frame[6],
        first: u32_at(frame, 71),
        count: u32_at(frame, 75),
        total: u32_at(frame, 79),
        mark: u64_at(frame, 83),
    };
    Ok((name, head))
}

/// Writes the frame of this name and head.
pub fn encode_head(name: &[u8; NAME_LEN], head: &Head, frame: &mut [u8])
    requires whole { length frame.old ≡ FRAME_LEN }
    requires name { length name.now ≡ NAME_LEN }
    ensures written { frame.new ≡ encoded name.now head.now }
    ensures fits { IsHead head.now }
{
    let at = put_fields(name, head, frame);
    frame[at..].fill(0);
}

/// Writes the fields of a head, and gives the place behind them.
fn put_fields(name: &[u8; NAME_LEN], head: &Head, frame: &mut [u8]) -> usize
    requires whole { length frame.old ≡ FRAME_LEN }
    requires name { length name.now ≡ NAME_LEN }
    ensures written { take FIELDS_LEN frame.new ≡ section_head_bytes name.now head.now }
    ensures end { result ≡ FIELDS_LEN }
    ensures fits { IsHead head.now }
{
    let at = put(frame, 0, b"VSEC");
    let at = put_u16(frame, at, 1);
    let at = put_u8(frame, at, head.state);
    let at = put(frame, at, name);
    let at = put_u32(frame, at, head.first);
    let at = put_u32(frame, at, head.count);
    let at = put_u32(frame, at, head.total);
    put_u64(frame, at, head.mark)
}
